// Positions and directions on elements: a row's station, X, Y, Tx and Ty.
ghost use Rattle.std.specs.Prelude.{◌≡◌};
ghost use Rattle.elements.specs.Prepared.{Ready};
ghost use Rattle.comparisons.specs.Agreement.{placement_is, element_agrees, record_agrees};

use crate::said::{Row, is_at};
use elements::{Placement, Prepared};
use model::Outcome;
use model::layout::RECORD_SIZE;

// Whether a placement is the row's.
fn same(row: &Row, p: Placement) -> bool
    ensures { result ≡ placement_is row.now (record { x = p.x; y = p.y }) (record { x = p.tx; y = p.ty }) }
{
    is_at(row, 4, p.x) & is_at(row, 12, p.y) & is_at(row, 20, p.tx) & is_at(row, 28, p.ty)
}

// Whether the station is on the element, and position and direction there are the row's.
fn agrees_on(row: &Row, p: Prepared) -> bool
    requires { Ready p }
    ensures { result ≡ element_agrees row.now p.element }
{
    let e = p.element;
    let s = fields::u32_at(row, 0) as u64;
    if e.length < s {
        return false;
    }
    same(row, elements::placed(p, s))
}

// Whether the record is accepted, and the row agrees on its element.
pub fn agrees(row: &Row, rec: &[u8]) -> bool
    ensures { result ≡ record_agrees row.now rec.now }
{
    if rec.len() != RECORD_SIZE {
        return false;
    }
    match records::check_record(rec, 0) {
        Outcome::Refused(_) => false,
        Outcome::Done => agrees_on(row, elements::prepare(records::element(rec))),
    }
}
