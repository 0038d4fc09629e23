// The stake-out: how far to move a stake to its target, forward along the heading and to the left of it.
#![tactic(auto)]

ghost use Rattle.std.specs.Prelude.{[], ◌≡◌};
ghost use Rattle.model.specs.Answers.{paper_after, forward_of, left_of, move_question, stake_out, paper_of_move};
ghost use Rattle.stakes.specs.StakeRanges.{Stakeable};

use model::{Move, Point, Refusal, refusals};
use plane::{in_frame, is_unit};
use rounding::near_sum;

// The move between two points of the frame, under a heading that need not be a unit.
pub fn move_by(own: Point, target: Point, c: i64, s: i64) -> Move
    requires { Stakeable own target c s }
    ensures { result ≡ Move.By (forward_of own target c s) (left_of own target c s) }
{
    let dx = target.x - own.x;
    let dy = target.y - own.y;
    Move::By {
        forward: near_sum(c, dx, s, dy),
        left: near_sum(-s, dx, c, dy),
    }
}

// The move from a stake's own point to its target under a heading: 11 for either point outside the frame, 7 for a heading that is no unit.
pub fn stake_out(own: Point, target: Point, c: i64, s: i64) -> Move
    ensures value { result ≡ stake_out own target c s }
    ensures paper { paper_of_move result ≡ paper_after [] (move_question own target c s) }
{
    if !in_frame(own.x, own.y) {
        return Move::Refused(Refusal {
            number: refusals::OUTSIDE_FRAME,
            place: 0,
        });
    }
    if !in_frame(target.x, target.y) {
        return Move::Refused(Refusal {
            number: refusals::OUTSIDE_FRAME,
            place: 0,
        });
    }
    if !is_unit(c, s) {
        return Move::Refused(Refusal {
            number: refusals::NOT_UNIT,
            place: 0,
        });
    }
    move_by(own, target, c, s)
}
