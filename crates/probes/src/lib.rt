// Calls for tests and tools: a crest's bytes, a question in numbers, and room for the answer; and the bytes of a record, copied.
#![tactic(auto)]

ghost use Rattle.std.specs.Prelude.{◌≡◌, length, pos};
ghost use Rattle.model.specs.Crest.{file_crest};
ghost use Rattle.probes.specs.Replies.{reply_of_placed, reply_of_located, reply_of_inverse, reply_code, reply_bytes, Sendable};
ghost use Rattle.probes.specs.ProbeCalls.{four_size, position_call, locate_call, inverse_call, record_call};

use codes::{code_of, put_two};
use entries::{inverse, locate, position, record_outcome, record_part};
use fields::parts::copy_at;
use model::{Inverse, Located, Outcome, Placed, Refusal, layout, refusals};
use plane::point;

// Room for two numbers of 32 bits and for four, and where the first and the third lie.
const TWO_SIZE: usize = 8;

const FOUR_SIZE: usize = 16;

const SLOT_A: usize = 0;

const SLOT_C: usize = 8;

// What is sent back: numbers of 32 bits for the room, or a refusal.
#[derive(Clone, Copy)]
pub enum Reply {
    Four { a: i64, b: i64, c: i64, d: i64 },
    Two { a: i64, b: i64 },
    Refused(Refusal),
}

fn reply_of_placed(answer: Placed) -> Reply
    ensures { result ≡ reply_of_placed answer }
{
    match answer {
        Placed::At { x, y, tx, ty } => Reply::Four {
            a: x,
            b: y,
            c: tx,
            d: ty,
        },
        Placed::Refused(why) => Reply::Refused(why),
    }
}

fn reply_of_located(answer: Located) -> Reply
    requires { Sendable four_size (reply_of_located answer) }
    ensures { result ≡ reply_of_located answer }
{
    match answer {
        Located::At {
            station,
            offset,
            residual,
            visits,
        } => Reply::Four {
            a: station as i64,
            b: offset,
            c: residual,
            d: visits as i64,
        },
        Located::Refused(why) => Reply::Refused(why),
    }
}

fn reply_of_inverse(answer: Inverse) -> Reply
    ensures { result ≡ reply_of_inverse answer }
{
    match answer {
        Inverse::At { x, y } => Reply::Two { a: x, b: y },
        Inverse::Refused(why) => Reply::Refused(why),
    }
}

// A reply into its room; a refusal leaves the room as it came.
fn send(reply: Reply, room: &mut [u8]) -> u32
    requires { Sendable (length room.old) reply }
    ensures value { result ≡ reply_code reply }
    ensures room_after { room.new ≡ reply_bytes reply room.old }
{
    match reply {
        Reply::Four { a, b, c, d } => {
            put_two(room, SLOT_A, a, b);
            put_two(room, SLOT_C, c, d);
            0
        }
        Reply::Two { a, b } => {
            put_two(room, SLOT_A, a, b);
            0
        }
        Reply::Refused(why) => code_of(why),
    }
}

// X, Y, Tx, Ty at a station, each i32: 18 first, for room that is not 16 bytes.
pub fn probe_position(crest: &[u8], station: u32, out: &mut [u8]) -> u32
    ensures { (result, out.new) ≡ position_call (file_crest crest.now) (pos station) out.old }
{
    if out.len() != FOUR_SIZE {
        return refusals::WRONG_ROOM;
    }
    send(reply_of_placed(position(crest, station as i64)), out)
}

// Station, offset and residual of a point, and how many stations were visited, each of 32 bits: 18 first, for room that is not 16 bytes.
pub fn probe_locate(crest: &[u8], x: i32, y: i32, out: &mut [u8]) -> u32
    ensures { (result, out.new) ≡ locate_call (file_crest crest.now) (record { x = x; y = y }) out.old }
{
    if out.len() != FOUR_SIZE {
        return refusals::WRONG_ROOM;
    }
    send(reply_of_located(locate(crest, point(x, y))), out)
}

// X, Y at a station and an offset, each i32: 18 first, for room that is not 8 bytes.
pub fn probe_inverse(crest: &[u8], station: u32, offset: i32, out: &mut [u8]) -> u32
    ensures { (result, out.new) ≡ inverse_call (file_crest crest.now) (pos station) offset out.old }
{
    if out.len() != TWO_SIZE {
        return refusals::WRONG_ROOM;
    }
    send(
        reply_of_inverse(inverse(crest, station as i64, offset as i64)),
        out,
    )
}

// The 32 bytes of record i, counted from 0: 18 first, for room that is not 32 bytes; then the crest's own refusals; then 15.
pub fn probe_record(crest: &[u8], i: u32, out: &mut [u8]) -> u32
    ensures { (result, out.new) ≡ record_call crest.now i out.old }
{
    if out.len() != layout::RECORD_SIZE {
        return refusals::WRONG_ROOM;
    }
    match record_outcome(crest, i as usize) {
        Outcome::Done => {
            copy_at(out, 0, record_part(crest, i as usize));
            0
        }
        Outcome::Refused(why) => code_of(why),
    }
}
