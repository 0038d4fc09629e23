// Crest files: a row's number and place of a refusal, both 0 where the file is accepted.
ghost use Rattle.std.specs.Prelude.{◌≡◌};
ghost use Rattle.comparisons.specs.Agreement.{file_agrees};

use crate::said::Row;
use entries::check;
use model::Outcome;

// Whether the check of a file comes to the row's number and place.
pub fn agrees(row: &Row, file: &[u8]) -> bool
    ensures { result ≡ file_agrees row.now file.now }
{
    let number = fields::u16_at(row, 0) as u32;
    let place = fields::u16_at(row, 2) as u32;
    match check(file) {
        Outcome::Done => (number == 0) & (place == 0),
        Outcome::Refused(why) => (number != 0) & (why.number == number) & (why.place == place),
    }
}
