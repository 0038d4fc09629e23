// f64 numbers as whole numbers: a row's bits and outcome.
ghost use Rattle.std.specs.Prelude.{◌≡◌};
ghost use Rattle.comparisons.specs.Agreement.{number_code, number_agrees};

use crate::said::{Row, is_at};
use fields::eight::{float, u64_at};
use whole_numbers::{BEYOND, NEGATIVE_BEYOND, WholeNumber, whole_of, whole_of_bits};

// A whole number in the vectors' one number: 2^62 with its sign for one beyond, 2^63 - 1 for none.
fn code(n: WholeNumber) -> i64
    ensures { result ≡ number_code n }
{
    match n {
        WholeNumber::Is(z) => z,
        WholeNumber::Beyond { negative } => { if negative { NEGATIVE_BEYOND } else { BEYOND } }
        WholeNumber::Not => 0x7fff_ffff_ffff_ffff,
    }
}

// Whether the bits of a row, and the f64 that they make, come to the row's outcome.
pub fn agrees(row: &Row) -> bool
    ensures { result ≡ number_agrees row.now }
{
    let bits = u64_at(row, 0);
    is_at(row, 8, code(whole_of_bits(bits))) & is_at(row, 8, code(whole_of(float(bits))))
}
