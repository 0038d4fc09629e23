// Points on crests: a row's x and y, and the offset, residual, refusal number, station and visits that they come to.
ghost use Rattle.std.specs.Prelude.{◌≡◌};
ghost use Rattle.comparisons.specs.Agreement.{point_says, located_is, point_agrees};

use crate::said::{Row, is_at};
use fields::eight::u64_at;
use model::{Located, Point};

// Whether station, offset, residual and visits are the row's.
fn says(row: &Row, station: u64, offset: i64, residual: i64, visits: u64) -> bool
    ensures { result ≡ point_says row.now station offset residual visits }
{
    is_at(row, 16, offset)
        & is_at(row, 24, residual)
        & (station == fields::u32_at(row, 36) as u64)
        & (visits == fields::u32_at(row, 40) as u64)
}

// Whether what a point comes to is the row's; a refusal has zeros for an answer's numbers.
fn same(row: &Row, found: Located) -> bool
    ensures { result ≡ located_is row.now found }
{
    let number = fields::u32_at(row, 32);
    match found {
        Located::At {
            station,
            offset,
            residual,
            visits,
        } => (number == 0) & says(row, station, offset, residual, visits),
        Located::Refused(why) => {
            (number != 0) & (why.number == number) & (why.place == 0) & says(row, 0, 0, 0, 0)
        }
    }
}

// Whether the row's point on a crest comes to what the row says.
pub fn agrees(row: &Row, crest: &[u8]) -> bool
    ensures { result ≡ point_agrees row.now crest.now }
{
    let p = Point {
        x: u64_at(row, 0).cast_signed(),
        y: u64_at(row, 8).cast_signed(),
    };
    same(row, entries::locate(crest, p))
}
