// What a C call returns and writes: an answer's number and place in 32 bits, and numbers of 32 bits in lent bytes.
#![tactic(auto)]

ghost use Rattle.std.specs.Prelude.{◌≡◌, ◌+◌, ◌≤◌, length};
ghost use Rattle.std.specs.Int.{w32};
ghost use Rattle.std.proofs.Common.{SFits};
ghost use Rattle.model.specs.Answers.{code, refused_with, paper_of_outcome, paper_of_move};
ghost use Rattle.model.specs.Readings.{paper_of_reading};
ghost use Rattle.model.specs.Calls.{move_size, move_bytes};
ghost use Rattle.codes.specs.Codes.{Codable, Movable, put_two};

use model::{Move, Outcome, ReadingAnswer, Refusal, layout, refusals};

// A refusal's number plus 256 times its place.
pub fn code_of(why: Refusal) -> u32
    requires { Codable (refused_with why 0) }
    ensures { result ≡ code (refused_with why 0) }
{
    why.number + refusals::PLACE_UNIT * why.place
}

// 0 where nothing is refused.
pub fn outcome_code(outcome: Outcome) -> u32
    requires { Codable (paper_of_outcome outcome) }
    ensures { result ≡ code (paper_of_outcome outcome) }
{
    match outcome {
        Outcome::Done => 0,
        Outcome::Refused(why) => code_of(why),
    }
}

// 0 for an answer of either sort.
pub fn answer_code(answer: ReadingAnswer) -> u32
    requires { Codable (paper_of_reading 0 answer) }
    ensures { result ≡ code (paper_of_reading 0 answer) }
{
    match answer {
        ReadingAnswer::PlanePoint {
            station: _,
            offset: _,
            residual: _,
            visits: _,
        } => 0,
        ReadingAnswer::LinePlace { x: _, y: _ } => 0,
        ReadingAnswer::Refused(why) => code_of(why),
    }
}

// Two i32, one after the other at any place: 4 is the bytes of an i32, as in `fields::put_i32`.
pub fn put_two(room: &mut [u8], at: usize, a: i64, b: i64)
    requires at_in_bounds { at + 8 ≤ length room.old }
    requires sfits { SFits w32 a }
    requires sfits_2 { SFits w32 b }
    ensures { room.new ≡ put_two room.old at a b }
{
    fields::put_i32(room, at, a as i32);
    fields::put_i32(room, at + 4, b as i32);
}

// A move into its 8 bytes, forward and left; a refusal leaves them as they came.
pub fn answer_move(answer: Move, room: &mut [u8]) -> u32
    requires room_len { length room.old ≡ move_size }
    requires movable { Movable answer }
    ensures value { result ≡ code (paper_of_move answer) }
    ensures room_after { room.new ≡ move_bytes answer room.old }
{
    match answer {
        Move::By { forward, left } => {
            put_two(room, layout::FORWARD_AT, forward, left);
            0
        }
        Move::Refused(why) => code_of(why),
    }
}
