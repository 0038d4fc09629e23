// One visit of the walk, and the step to the next station.
ghost use Rattle.std.specs.Prelude.{◌≡◌, ◌+◌, ◌-◌, ◌*◌, ◌/◌, ◌^◌, ◌<◌, ◌≤◌, nat_abs, ◌-ℤ◌};
ghost use Rattle.integers.specs.Root.{root};
ghost use Rattle.model.specs.Acceptance.{frame};
ghost use Rattle.model.specs.Series.{position_on};
ghost use Rattle.model.specs.Stations.{distance_sq};
ghost use Rattle.model.specs.Walk.{root_slack, step_divisor};
ghost use Rattle.plane.specs.Frame.{InFrame};
ghost use Rattle.elements.specs.Extent.{widest_position, unreached};
ghost use Rattle.elements.specs.Prepared.{Ready};
ghost use Rattle.walk.specs.Search.{countable, widest_square, seen_at, Known, Strided};

use crate::Seen;
use elements::Prepared;
use model::{Point, limits};

// The step to the next station: how many stations it leaves out, and for the steps after it the whole root b of the best and
// the square of b + 31, below which none is left out. Where the limit is 0, the root is not taken yet.
#[derive(Clone, Copy)]
pub struct Stride {
    pub root: u64,
    pub limit: u64,
    pub skip: u64,
}

// The square of a difference.
fn squared_gap(a: i64, b: i64) -> u64
    requires { (nat_abs a ≤ frame) × (nat_abs b ≤ widest_position) }
    ensures value { result ≡ nat_abs (a -ℤ b) * nat_abs (a -ℤ b) }
    ensures small { result ≤ widest_square }
{
    let d = a - b;
    (d * d) as u64
}

// The squared distance of a point from the position at s mm from the element's start.
pub fn distance(p: Prepared, s: u64, q: Point) -> u64
    requires ready { Ready p }
    requires s_le_length { s ≤ p.element.length }
    requires in_frame { InFrame q }
    ensures { result ≡ distance_sq q (position_on p.element s) }
{
    let at = elements::position(p, s);
    squared_gap(q.x, at.x) + squared_gap(q.y, at.y)
}

// Station `s` at the squared distance `d` is visited.
pub fn seen(d: u64, s: u64, w: Seen) -> Seen
    requires { w.visits < countable }
    ensures { result ≡ seen_at d s w }
{
    let visits = w.visits + 1;
    if d < w.best {
        return Seen {
            best: d,
            at: s,
            visits,
        };
    }
    if d == w.best {
        if s < w.at {
            return Seen {
                best: d,
                at: s,
                visits,
            };
        }
    }
    Seen {
        best: w.best,
        at: w.at,
        visits,
    }
}

// The root of the best and its limit, taken where they are not known.
fn rooted(best: u64, t: Stride) -> Stride
    requires best_le_unreached { best ≤ unreached }
    requires known { Known best t }
    ensures { (result.root ≡ root best) × (result.limit ≡ (root best + root_slack) * (root best + root_slack)) }
{
    if t.limit > 0 {
        return t;
    }
    let b = integers::whole_root(best);
    Stride {
        root: b,
        limit: (b + limits::ROOT_SLACK) * (b + limits::ROOT_SLACK),
        skip: 0,
    }
}

// How many stations are left out after one at the squared distance `d`, where b is the root of the best: a − b < 31 exactly where d is below
// the limit, the square of b + 31.
fn left_out(d: u64, b: u64, limit: u64) -> u64
    requires { limit ≡ (b + root_slack) * (b + root_slack) }
    ensures value { result ≡ (root d - b - root_slack) / step_divisor }
    ensures small { result < 2 ^ 32 }
{
    if d < limit {
        return 0;
    }
    (integers::whole_root(d) - b - limits::ROOT_SLACK) / limits::STEP_DIVISOR
}

// The step after a station at the squared distance `d`, where the best before it was `best`.
pub fn stepped(d: u64, best: u64, t: Stride) -> Stride
    requires best_le_unreached { best ≤ unreached }
    requires known { Known best t }
    ensures { Strided d best result }
{
    if d < best {
        return Stride {
            root: 0,
            limit: 0,
            skip: 0,
        };
    }
    let r = rooted(best, t);
    Stride {
        root: r.root,
        limit: r.limit,
        skip: left_out(d, r.root, r.limit),
    }
}
