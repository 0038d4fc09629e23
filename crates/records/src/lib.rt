// One record of a crest: its element, and its refusals.
#![tactic(auto)]

ghost use Rattle.std.specs.Prelude.{[], ◌≡◌, ◌+◌, ◌≤◌, ◌&&◌, leb, length};
ghost use Rattle.model.specs.Kinds.{decide};
ghost use Rattle.model.specs.Records.{record_size, i32_at};
ghost use Rattle.model.specs.Refusals.{verdict};
ghost use Rattle.model.specs.Acceptance.{longest_element, kind_in, element_of, reserved_zero, radius_good, ranges_good, record_rules};
ghost use Rattle.model.specs.Answers.{paper_if, paper_of_outcome};

use fields::parts::all_zero;
use integers::magnitude;
use model::{Element, Kind, KindByte, Outcome, Shape, layout, limits, refusals, refused, shape_of};
use plane::{in_frame, is_unit};

// Whether x is from low to high.
fn between(low: u64, x: u64, high: u64) -> bool
    ensures { result ≡ (leb low x && leb x high) }
{
    if x < low {
        return false;
    }
    x <= high
}

// Whether a radius of magnitude r fits an element of this shape and length.
fn radius_good(shape: Shape, l: u64, r: u64) -> bool
    requires { l ≤ longest_element }
    ensures { result ≡ radius_good shape l r }
{
    match shape {
        Shape::Straight => r == 0,
        Shape::Circular => between(2 * l, r, limits::WIDEST),
        Shape::Clothoid => between(l, r, limits::WIDEST),
    }
}

// Whether length, radius and anchor are in their ranges.
fn ranges_good(e: Element) -> bool
    ensures { result ≡ ranges_good e }
{
    if !between(1, e.length, limits::LONGEST_ELEMENT) {
        return false;
    }
    let kind = e.kind;
    if !radius_good(shape_of(kind), e.length, magnitude(e.radius)) {
        return false;
    }
    in_frame(e.x, e.y)
}

// The kind that a byte names, and a line where it names none.
fn kind_in(byte: u8) -> Kind
    ensures { result ≡ kind_in (decide byte) }
{
    match model::kind_of(byte) {
        KindByte::Damaged => Kind::Line,
        KindByte::Known(kind) => kind,
        KindByte::Later => Kind::Line,
    }
}

// The i32 in the four bytes from `at` on, in 64 bits.
fn wide_at(rec: &[u8], at: usize) -> i64
    requires { at + 4 ≤ length rec.now }
    ensures { result ≡ i32_at rec.now at }
{
    fields::i32_at(rec, at) as i64
}

// The element that a record's 32 bytes give.
pub fn element(rec: &[u8]) -> Element
    requires { length rec.now ≡ record_size }
    ensures { result ≡ element_of rec.now }
{
    Element {
        kind: kind_in(rec[layout::KIND_AT]),
        length: fields::u32_at(rec, layout::RECORD_LENGTH_AT) as u64,
        x: wide_at(rec, layout::X_AT),
        y: wide_at(rec, layout::Y_AT),
        c: wide_at(rec, layout::C_AT),
        s: wide_at(rec, layout::S_AT),
        radius: wide_at(rec, layout::RADIUS_AT),
    }
}

// Whether the bytes of a record that must be zero are.
fn reserved_zero(rec: &[u8]) -> bool
    requires { length rec.now ≡ record_size }
    ensures { result ≡ reserved_zero rec.now }
{
    if !all_zero(&rec[layout::FIRST_ZEROS_AT..layout::RECORD_LENGTH_AT]) {
        return false;
    }
    all_zero(&rec[layout::LAST_ZEROS_AT..layout::RECORD_SIZE])
}

// The refusals of record r by its own 32 bytes: kind, reserved bytes, ranges, direction.
pub fn check_record(rec: &[u8], r: u32) -> Outcome
    requires { length rec.now ≡ record_size }
    ensures value { result ≡ verdict (record_rules rec.now r) }
    ensures paper { paper_of_outcome result ≡ paper_if (verdict (record_rules rec.now r)) [] }
{
    match model::kind_of(rec[layout::KIND_AT]) {
        KindByte::Damaged => return refused(refusals::DAMAGED_RECORD, r),
        KindByte::Later => return refused(refusals::LATER_KIND, r),
        KindByte::Known(_) => {}
    }
    if !reserved_zero(rec) {
        return refused(refusals::DAMAGED_RECORD, r);
    }
    let e = element(rec);
    if !ranges_good(e) {
        return refused(refusals::FIELD_OUT_OF_RANGE, r);
    }
    if !is_unit(e.c, e.s) {
        return refused(refusals::NOT_UNIT, r);
    }
    Outcome::Done
}
