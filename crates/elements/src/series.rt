// The series of document 01, "Position on an element", on magnitudes: no number on the way is negative.
ghost use Rattle.std.specs.Prelude.{◌≡◌, ℕ, ◌+◌, ◌*◌, ◌/◌, ◌^◌, ◌<◌, ◌≤◌, pos, ◌*ℤ◌};
ghost use Rattle.integers.specs.Signs.{with_sign};
ghost use Rattle.model.specs.declared.Shape.TheVariants.{Circular, Clothoid};
ghost use Rattle.model.specs.Acceptance.{longest_element, widest};
ghost use Rattle.model.specs.Rounding.{ONE, near};
ghost use Rattle.model.specs.Series.{F, square_of, direction_of};
ghost use Rattle.rounding.specs.Rounded.{lowered};
ghost use Rattle.elements.specs.Reached.{factor_of, series_of, widest_angle, widest_divisor, Factorable, Curved, Usable, measured, measured_by, series_at, with_aside};

use model::units::{GRAINS, ONE};
use rounding::near_even;

// The numbers of F(a; b, d).
#[derive(Clone, Copy)]
pub struct Factor {
    pub a: u64,
    pub b: u64,
    pub d: u64,
}

// The factors of u and of v, and the divisor of v.
#[derive(Clone, Copy)]
pub struct CurveNumbers {
    pub along: Factor,
    pub aside: Factor,
    pub divisor: u64,
}

const ARC: CurveNumbers = CurveNumbers {
    along: Factor { a: 6, b: 1, d: 20 },
    aside: Factor { a: 12, b: 1, d: 30 },
    divisor: 2,
};

const SPIRAL: CurveNumbers = CurveNumbers {
    along: Factor {
        a: 10,
        b: 5,
        d: 108,
    },
    aside: Factor {
        a: 14,
        b: 7,
        d: 220,
    },
    divisor: 3,
};

const COSINE: Factor = Factor { a: 2, b: 1, d: 12 };

const SINE: Factor = Factor { a: 6, b: 1, d: 20 };

// The magnitudes of the angle t, of u and of v.
#[derive(Clone, Copy)]
pub struct Magnitudes {
    pub angle: u64,
    pub along: u64,
    pub aside: u64,
}

// The magnitudes of the components of a direction in the element's own frame.
#[derive(Clone, Copy)]
pub struct Components {
    pub along: u64,
    pub aside: u64,
}

// p, the square of the angle.
pub fn square_of(angle: u64) -> u64
    requires { angle ≤ widest_angle }
    ensures result_value { pos result ≡ square_of (pos angle) }
    ensures small { result ≤ 2 ^ 28 }
{
    near_even(angle * angle, ONE, 0)
}

// F(a; b, d).
pub fn factor_of(square: u64, f: Factor) -> u64
    requires { Factorable square f }
    ensures result_value { pos result ≡ F (factor_of f) (pos square) }
    ensures small { result ≤ ONE }
{
    let inner = ONE - near_even(f.b * square, f.d, 0);
    ONE - near_even(square * inner, f.a * ONE, 0)
}

// u, of a length in mm and the factor of u.
pub fn along(length: u64, f: u64) -> u64
    requires { (length ≤ longest_element) × (f ≤ ONE) }
    ensures { pos result ≡ near (pos (100 * length) *ℤ pos f) ONE }
{
    near_even(GRAINS * length * f, ONE, 0)
}

// v, of a length in mm, an angle, what is taken off for a half, the factor of v and its divisor.
pub fn aside(length: u64, angle: u64, off: u64, f: u64, divisor: u64) -> u64
    requires curved { Curved length angle off }
    requires f_bound { (f ≤ ONE) × (1 ≤ divisor) × (divisor ≤ 3) }
    ensures { (sign : ℕ) → sign ≤ 1 → lowered sign ≡ off → with_sign sign (pos result) ≡ near (near (pos (100 * length) *ℤ with_sign sign (pos angle)) ONE *ℤ pos f) (divisor * ONE) }
{
    let w = near_even(GRAINS * length * angle, ONE, off);
    near_even(w * f, divisor * ONE, off)
}

// u and v of a curve by the numbers of its series.
fn curve(k: CurveNumbers, length: u64, angle: u64, off: u64) -> Magnitudes
    requires usable { Usable k }
    requires curved { Curved length angle off }
    ensures { (sign : ℕ) → sign ≤ 1 → lowered sign ≡ off → measured sign result ≡ series_at (series_of k) length (with_sign sign (pos angle)) }
{
    let square = square_of(angle);
    let f = k.along;
    let g = k.aside;
    Magnitudes {
        angle,
        along: along(length, factor_of(square, f)),
        aside: aside(length, angle, off, factor_of(square, g), k.divisor),
    }
}

// u and v of an arc.
pub fn arc(length: u64, angle: u64, off: u64) -> Magnitudes
    requires { Curved length angle off }
    ensures { (sign : ℕ) → sign ≤ 1 → lowered sign ≡ off → measured sign result ≡ measured_by Circular length (with_sign sign (pos angle)) }
{
    curve(ARC, length, angle, off)
}

// U and V of a spiral.
pub fn spiral(length: u64, angle: u64, off: u64) -> Magnitudes
    requires { Curved length angle off }
    ensures { (sign : ℕ) → sign ≤ 1 → lowered sign ≡ off → measured sign result ≡ measured_by Clothoid length (with_sign sign (pos angle)) }
{
    curve(SPIRAL, length, angle, off)
}

// The direction on a curve, before it is negated where the anchor is the far end.
pub fn direction(angle: u64, off: u64) -> Components
    requires { Curved 0 angle off }
    ensures { (sign : ℕ) → sign ≤ 1 → lowered sign ≡ off → with_aside sign result ≡ direction_of Circular (with_sign sign (pos angle)) }
{
    let square = square_of(angle);
    Components {
        along: factor_of(square, COSINE),
        aside: near_even(angle * factor_of(square, SINE), ONE, off),
    }
}

// The magnitude of t on an arc: near of twice the numerator over twice the radius.
pub fn arc_angle(s: u64, half: u64, divisor: u64) -> u64
    requires { (s ≤ longest_element) × (half ≤ widest) × (1 ≤ divisor) }
    ensures { result ≡ (2 * (ONE * s) + half) / divisor }
{
    (2 * (ONE * s) + half) / divisor
}

// The base of a digit of the quotient: ONE is its square.
const DIGIT: u64 = 1 << 15;

// The magnitude of t on a spiral: ONE·l² has up to 68 bits, so a long division with two digits.
pub fn spiral_angle(l: u64, half: u64, divisor: u64) -> u64
    requires { (l ≤ longest_element) × (half < widest_divisor) × (1 ≤ divisor) × (divisor < widest_divisor) × (l * l ≤ divisor) }
    ensures { result ≡ (ONE * (l * l) + half) / divisor }
{
    let whole = l * l * DIGIT;
    let high = whole / divisor;
    let rest = (whole % divisor) * DIGIT;
    high * DIGIT + (rest + half) / divisor
}
