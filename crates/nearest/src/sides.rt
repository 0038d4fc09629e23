// How a point lies to a position and a direction: the residual along it and the offset to its left.
ghost use Rattle.std.specs.Prelude.{◌&&◌, ◌≡◌, eqb, pos, neg_ℤ};
ghost use Rattle.std.specs.Int.Signed.{lt_z};
ghost use Rattle.model.specs.Answers.{past_end};
ghost use Rattle.elements.specs.Extent.{Placeable};
ghost use Rattle.plane.specs.Frame.{InFrame};
ghost use Rattle.nearest.specs.Sides.{sides_of};

use elements::Placement;
use model::{Point, limits};
use rounding::near_sum;

#[derive(Clone, Copy)]
pub struct Sides {
    pub residual: i64,
    pub offset: i64,
}

// Residual and offset of a point: along the direction, and along it turned to the left.
pub fn to_point(at: Placement, q: Point) -> Sides
    requires placeable { Placeable at }
    requires in_frame { InFrame q }
    ensures { result ≡ sides_of (record { x = at.x; y = at.y }) (record { x = at.tx; y = at.ty }) q }
{
    let dx = q.x - at.x;
    let dy = q.y - at.y;
    Sides {
        residual: near_sum(at.tx, dx, at.ty, dy),
        offset: near_sum(at.tx, dy, at.ty, 0 - dx),
    }
}

// Whether a point lies before the start: the station judged is 0, and the residual is below −100.
pub fn before_start(s: u64, residual: i64) -> bool
    ensures { result ≡ (eqb s 0 && lt_z residual (neg_ℤ (pos past_end))) }
{
    s == 0 && residual < limits::PAST_START
}

// Whether a point lies after the end: the station judged is T, and the residual is above 100.
pub fn after_end(s: u64, t: u64, residual: i64) -> bool
    ensures { result ≡ (eqb s t && lt_z (pos past_end) residual) }
{
    s == t && residual > limits::PAST_END
}
