// A crest as its lent bytes and how to read them. Records are read where they lie: only the forms know where that is.
#![tactic(auto)]

ghost use Rattle.std.specs.Prelude.{[], ◌≡◌, ◌+◌, ◌≤◌, ◌<◌, length};
ghost use Rattle.model.specs.Records.{record_size, most_records, part, record_of};
ghost use Rattle.model.specs.Refusals.{verdict};
ghost use Rattle.model.specs.Acceptance.{element_at, each_record, record_rules};
ghost use Rattle.sources.specs.Sources.{records_in, count_in, start_in, layout_rules, Readable};
ghost use Rattle.model.specs.Answers.{paper_if, paper_of_outcome};

use crestfile::check::{check_blocks, record_count, record_start};
use crestfile::write::count_fits;
use fields::parts::part_at;
use model::layout::RECORD_SIZE;
use model::{Element, Outcome, refusals, refused};
use records::check_record;

// How the bytes of a crest are read: as a file, or as records one after the other, which the writer is lent. An amendment is lent beside them; neither form reads it.
#[derive(Clone, Copy)]
pub enum Form {
    File,
    Row,
}

// What is lent for an amendment where there is none.
pub fn no_amendment(crest: &[u8]) -> &[u8]
    ensures { result.now ≡ [] }
{
    &crest[0..0]
}

// What has to hold before a record is read: the blocks of a file, or how many records there are in a row.
pub fn check_layout(crest: &[u8], amendment: &[u8], form: Form) -> Outcome
    ensures value { result ≡ verdict (layout_rules form crest.now amendment.now) }
    ensures paper { paper_of_outcome result ≡ paper_if (verdict (layout_rules form crest.now amendment.now)) [] }
{
    match form {
        Form::File => check_blocks(crest),
        Form::Row => {
            if count_fits(crest.len()) {
                Outcome::Done
            } else {
                refused(refusals::RECORD_COUNT, 0)
            }
        }
    }
}

// How many records a crest has.
pub fn count_in(crest: &[u8], amendment: &[u8], form: Form) -> usize
    requires { Readable form crest.now amendment.now }
    ensures { result ≡ count_in form crest.now amendment.now }
{
    match form {
        Form::File => record_count(crest),
        Form::Row => crest.len() / RECORD_SIZE,
    }
}

// Where record r starts.
fn start_in(form: Form, r: usize) -> usize
    requires { r < most_records }
    ensures { result ≡ start_in form r }
{
    match form {
        Form::File => record_start(r),
        Form::Row => RECORD_SIZE * r,
    }
}

// The one way to the part of record r.
fn part_in(crest: &[u8], form: Form, r: usize) -> &[u8]
    requires r_lt_most_records { r < most_records }
    requires record_size_in_bounds { start_in form r + record_size ≤ length crest.now }
    ensures result_value { result.now ≡ part crest.now (start_in form r) record_size }
    ensures place { result.ref_ptr ≡ (crest.entry.ref_ptr.0, start_in form r + crest.entry.ref_ptr.1) }
{
    part_at(crest, start_in(form, r), RECORD_SIZE)
}

// Record r, where it lies.
pub fn record_in<'a>(crest: &'a [u8], amendment: &'a [u8], form: Form, r: usize) -> &'a [u8]
    requires readable { Readable form crest.now amendment.now }
    requires r_bound { r < count_in form crest.now amendment.now }
    ensures result_value { result.now ≡ record_of (records_in form crest.now amendment.now) r }
    ensures size { length result.now ≡ record_size }
    ensures place { result.ref_ptr ≡ (crest.entry.ref_ptr.0, start_in form r + crest.entry.ref_ptr.1) }
{
    part_in(crest, form, r)
}

// The element of record r.
pub fn element_in(crest: &[u8], amendment: &[u8], form: Form, r: usize) -> Element
    requires readable { Readable form crest.now amendment.now }
    requires r_bound { r < count_in form crest.now amendment.now }
    ensures { result ≡ element_at (records_in form crest.now amendment.now) r }
{
    records::element(part_in(crest, form, r))
}

// The refusals of record r by its own bytes.
fn check_in(crest: &[u8], amendment: &[u8], form: Form, r: usize) -> Outcome
    requires readable { Readable form crest.now amendment.now }
    requires r_bound { r < count_in form crest.now amendment.now }
    ensures { result ≡ verdict (record_rules (record_of (records_in form crest.now amendment.now) r) r) }
{
    check_record(part_in(crest, form, r), r as u32)
}

// 4 to 7: every record, where it lies.
pub fn check_records(crest: &[u8], amendment: &[u8], form: Form) -> Outcome
    requires { Readable form crest.now amendment.now }
    ensures value { result ≡ verdict (each_record (records_in form crest.now amendment.now)) }
    ensures paper { paper_of_outcome result ≡ paper_if (verdict (each_record (records_in form crest.now amendment.now))) [] }
{
    let n = count_in(crest, amendment, form);
    let mut r: usize = 0;
    while r < n {
        match check_in(crest, amendment, form, r) {
            Outcome::Refused(x) => return Outcome::Refused(x),
            Outcome::Done => {}
        }
        r += 1;
    }
    Outcome::Done
}
