// The reader: a record as a part of the lent file, beside which no amendment is lent.
ghost use Rattle.std.specs.Prelude.{[], ◌≡◌};
ghost use Rattle.model.specs.Answers.{paper_if, paper_of_outcome, reader_outcome, reader_span, reader_part};
ghost use Rattle.alignment.specs.Lent.{Lent};

use crate::check::check;
use model::{Outcome, refusals, refused};
use sources::{Form, count_in, record_in};

// What the reader comes to: the refusals of the file, then 15 for a number that no record has.
pub fn record_outcome(file: &[u8], r: usize) -> Outcome
    ensures value { result ≡ reader_outcome file.now r }
    ensures paper { paper_of_outcome result ≡ paper_if (reader_outcome file.now r) [] }
{
    let none = &file[0..0];
    match check(file, none, Form::File) {
        Outcome::Refused(x) => return Outcome::Refused(x),
        Outcome::Done => {}
    }
    if r < count_in(file, none, Form::File) {
        return Outcome::Done;
    }
    refused(refusals::ASKED_OUT_OF_RANGE, 0)
}

// Record r of the file, where it lies; an empty part where the reader refuses.
pub fn record_part(file: &[u8], r: usize) -> &[u8]
    ensures result_value { result.now ≡ reader_part file.now r }
    ensures lent { Lent file.entry (reader_span file.now r) result }
{
    let none = &file[0..0];
    match record_outcome(file, r) {
        Outcome::Refused(_) => none,
        Outcome::Done => record_in(file, none, Form::File, r),
    }
}
