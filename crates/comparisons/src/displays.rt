// Display pairs: a row's sort of reading, its two f64 numbers, the pair that a crest shows for them, and the seven numbers of a sighting.
ghost use Rattle.std.specs.Prelude.{◌≡◌};
ghost use Rattle.comparisons.specs.Notes.{display_agrees};

use crate::notes::{line, plane, same_display, sighted};
use crate::said::Row;

// Whether the display pair of the row's reading on a crest is the row's.
pub fn agrees(row: &Row, crest: &[u8]) -> bool
    ensures { result ≡ display_agrees row.now crest.now }
{
    match row[0] {
        0 => same_display(row, 24, entries::display(crest, plane(row))),
        1 => same_display(row, 24, entries::display(crest, line(row))),
        3 => same_display(row, 24, entries::display(crest, sighted(row, 40))),
        _ => false,
    }
}
