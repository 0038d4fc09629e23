// A sighting: its own refusals, its point with the direction to it, and the move of a stake that was sighted.
#![tactic(auto)]

ghost use Rattle.std.specs.Prelude.{[], ◌≡◌, ◌+ℤ◌, ◌*ℤ◌};
ghost use Rattle.model.specs.Rounding.{ONE, near};
ghost use Rattle.model.specs.Refusals.{verdict};
ghost use Rattle.model.specs.Acceptance.{in_frame, is_unit};
ghost use Rattle.model.specs.Answers.{answer_of, paper_if, paper_after, paper_of_outcome, paper_of_placed, paper_of_move};
ghost use Rattle.model.specs.Sightings.{turned as turned_by, is_sight, sight_rules, sight_question, sighted_move_question, sighted_move};
ghost use Rattle.sightings.specs.SightRanges.{Pair, Along, Sightable, placed_by, Facing, moved_back};

use integers::magnitude;
use integers::signs::with_sign;
use model::{Move, Outcome, Placed, Point, Refusal, Sighting, limits, refusals, refused};
use plane::{in_frame, is_unit, point};
use rounding::near_one;
use stakes::move_by;

// Whether a pair is a unit.
fn is_pair(c: i32, s: i32) -> bool
    ensures { result ≡ is_unit c s }
{
    is_unit(c as i64, s as i64)
}

// Whether an instrument stands in the frame.
fn is_place(x: i32, y: i32) -> bool
    ensures { result ≡ in_frame x y }
{
    in_frame(x as i64, y as i64)
}

// Whether a distance is one that can be sighted.
fn is_sight(d: i32) -> bool
    ensures { result ≡ is_sight d }
{
    if d < 0 {
        return false;
    }
    magnitude(d as i64) <= limits::LONGEST_SIGHT
}

// 7 for either pair that is no unit, 11 for the place of the instrument, 15 for the distance.
pub fn check(sighting: Sighting) -> Outcome
    ensures value { result ≡ verdict (sight_rules sighting) }
    ensures paper { paper_of_outcome result ≡ paper_if (verdict (sight_rules sighting)) [] }
{
    let backsight = is_pair(sighting.backsight_c, sighting.backsight_s);
    let angle = is_pair(sighting.angle_c, sighting.angle_s);
    let stands = is_place(sighting.x, sighting.y);
    let reached = is_sight(sighting.distance);
    if !backsight {
        return refused(refusals::NOT_UNIT, 0);
    }
    if !angle {
        return refused(refusals::NOT_UNIT, 0);
    }
    if !stands {
        return refused(refusals::OUTSIDE_FRAME, 0);
    }
    if !reached {
        return refused(refusals::ASKED_OUT_OF_RANGE, 0);
    }
    Outcome::Done
}

// The direction from the instrument to the prism: that to the backsight, turned by the angle. It need not be a unit.
fn turned(backsight: Point, angle: Point) -> Point
    requires pair { Pair backsight }
    requires pair_2 { Pair angle }
    ensures { result ≡ turned_by backsight angle }
{
    let b = backsight.x;
    let g = backsight.y;
    let a = angle.x;
    let h = angle.y;
    Point {
        x: near_one(b * a - g * h),
        y: near_one(g * a + b * h),
    }
}

// A coordinate of the point: from the instrument's, the distance along a component of the direction.
fn gone(from: i32, distance: i32, along: i64) -> i64
    requires { Along from distance along }
    ensures { result ≡ from +ℤ near (distance *ℤ along) ONE }
{
    from as i64 + near_one(distance as i64 * along)
}

// The point of a sighting that nothing refuses, in the frame or not, and the direction to it.
fn placed(sighting: Sighting) -> Placed
    requires { Sightable sighting }
    ensures { result ≡ placed_by sighting }
{
    let backsight = point(sighting.backsight_c, sighting.backsight_s);
    let angle = point(sighting.angle_c, sighting.angle_s);
    let t = turned(backsight, angle);
    Placed::At {
        x: gone(sighting.x, sighting.distance, t.x),
        y: gone(sighting.y, sighting.distance, t.y),
        tx: t.x,
        ty: t.y,
    }
}

// The point and the direction to it, or the sighting's own refusal. Whether the point lies in the frame is not asked.
pub fn sight(sighting: Sighting) -> Placed
    ensures value { result ≡ answer_of (sight_question sighting) }
    ensures paper { paper_of_placed result ≡ paper_after [] (sight_question sighting) }
{
    match check(sighting) {
        // field by field: as one, the refusal would be kept below the stack pointer, where a call of the C library writes nothing
        Outcome::Refused(why) => Placed::Refused(Refusal {
            number: why.number,
            place: why.place,
        }),
        Outcome::Done => placed(sighting),
    }
}

// The move from a point that was sighted, with the direction to it: 11 for the point or the target outside the frame. It faces back to the instrument.
fn move_back(own: Point, target: Point, tx: i64, ty: i64) -> Move
    requires { Facing tx ty }
    ensures { result ≡ moved_back own target tx ty }
{
    if !in_frame(own.x, own.y) {
        return Move::Refused(Refusal {
            number: refusals::OUTSIDE_FRAME,
            place: 0,
        });
    }
    if !in_frame(target.x, target.y) {
        return Move::Refused(Refusal {
            number: refusals::OUTSIDE_FRAME,
            place: 0,
        });
    }
    move_by(own, target, with_sign(1, tx), with_sign(1, ty))
}

// The move of a stake that was sighted to its target: the sighting's own refusal, then 11 for its point and for the target.
pub fn stake_out(sighting: Sighting, target: Point) -> Move
    ensures value { result ≡ sighted_move sighting target }
    ensures paper { paper_of_move result ≡ paper_after [] (sighted_move_question sighting target) }
{
    match sight(sighting) {
        // field by field, as in `sight`
        Placed::Refused(Refusal { number, place }) => Move::Refused(Refusal { number, place }),
        Placed::At { x, y, tx, ty } => move_back(Point { x, y }, target, tx, ty),
    }
}
