// Points and directions of the plane: a point of two numbers, whether it lies in the frame, and whether a direction is a unit.
#![tactic(auto)]

ghost use Rattle.std.specs.Prelude.{◌≡◌};
ghost use Rattle.model.specs.Acceptance.{in_frame, is_unit};

use integers::magnitude;
use model::{Point, limits};

// The point of two numbers of 32 bits, or a direction of two such components.
pub fn point(x: i32, y: i32) -> Point
    ensures { result ≡ record { x = x; y = y } }
{
    Point {
        x: x as i64,
        y: y as i64,
    }
}

// Whether a point lies in the frame.
pub fn in_frame(x: i64, y: i64) -> bool
    ensures { result ≡ in_frame x y }
{
    if magnitude(x) > limits::FRAME {
        return false;
    }
    magnitude(y) <= limits::FRAME
}

// Components above 2^31 are no unit's, and the squares of others add up to a u64.
const COMPONENT: u64 = 1 << 31;

// Whether c² + s² is at most 2^31 from 2^60.
pub fn is_unit(c: i64, s: i64) -> bool
    ensures { result ≡ is_unit c s }
{
    let m = magnitude(c);
    let n = magnitude(s);
    if m > COMPONENT {
        return false;
    }
    if n > COMPONENT {
        return false;
    }
    let sum = m * m + n * n;
    if sum > limits::MOST_UNIT {
        return false;
    }
    sum >= limits::LEAST_UNIT
}
