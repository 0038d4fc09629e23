// The writer: the file of record bytes, into lent room.
ghost use Rattle.std.specs.Prelude.{[], ◌≡◌, length};
ghost use Rattle.model.specs.Answers.{paper_if, paper_of_outcome};
ghost use Rattle.model.specs.Writer.{writer_outcome, written};

use crate::check::check;
use crestfile::write::{blocks_needed, write_blocks};
use model::layout::BLOCK_SIZE;
use model::{Outcome, refusals, refused};
use sources::Form;

// 17, 4 to 9, 18: what the writer comes to, for room of this length.
fn outcome_of(records: &[u8], room: usize) -> Outcome
    ensures { result ≡ writer_outcome records.now room }
{
    match check(records, &records[0..0], Form::Row) {
        Outcome::Refused(x) => return Outcome::Refused(x),
        Outcome::Done => {}
    }
    if room < BLOCK_SIZE * blocks_needed(records.len()) {
        return refused(refusals::WRONG_ROOM, 0);
    }
    Outcome::Done
}

// The file of these records at the front of the room; a refusal leaves the room as it came.
pub fn write(records: &[u8], room: &mut [u8]) -> Outcome
    ensures value { result ≡ writer_outcome records.now (length room.old) }
    ensures room_after { room.new ≡ written records.now room.old }
    ensures paper { paper_of_outcome result ≡ paper_if (writer_outcome records.now (length room.old)) [] }
{
    match outcome_of(records, room.len()) {
        Outcome::Refused(x) => Outcome::Refused(x),
        Outcome::Done => {
            write_blocks(records, room);
            Outcome::Done
        }
    }
}
