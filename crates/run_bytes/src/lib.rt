// The run record from and to the 24 bytes that a C caller lends. They are a slice, of a length that is tested: of an array that is lent from it by
// `as_mut_array` and written, a proof knows the length only.
#![tactic(auto)]

ghost use Rattle.std.specs.Prelude.{◌≡◌, length};
ghost use Rattle.model.specs.Run.{run_size, run_at, run_bytes};

use model::{Run, layout};

// Bytes 10 and 11 are not read.
pub fn run_at(bytes: &[u8]) -> Run
    requires { length bytes.now ≡ run_size }
    ensures { result ≡ run_at bytes.now }
{
    Run {
        answered: fields::u16_at(bytes, layout::ANSWERED_AT),
        refused: fields::u16_at(bytes, layout::REFUSED_AT),
        latest: fields::u16_at(bytes, layout::LATEST_AT),
        first: fields::u16_at(bytes, layout::FIRST_AT),
        reading: fields::u16_at(bytes, layout::FIRST_READING_AT),
        one: fields::i32_at(bytes, layout::ONE_AT),
        two: fields::i32_at(bytes, layout::TWO_AT),
        three: fields::i32_at(bytes, layout::THREE_AT),
    }
}

// Bytes 10 and 11 are not changed.
pub fn put_run(bytes: &mut [u8], run: Run)
    requires { length bytes.old ≡ run_size }
    ensures { bytes.new ≡ run_bytes run bytes.old }
{
    fields::put_u16(bytes, layout::ANSWERED_AT, run.answered);
    fields::put_u16(bytes, layout::REFUSED_AT, run.refused);
    fields::put_u16(bytes, layout::LATEST_AT, run.latest);
    fields::put_u16(bytes, layout::FIRST_AT, run.first);
    fields::put_u16(bytes, layout::FIRST_READING_AT, run.reading);
    fields::put_i32(bytes, layout::ONE_AT, run.one);
    fields::put_i32(bytes, layout::TWO_AT, run.two);
    fields::put_i32(bytes, layout::THREE_AT, run.three);
}
