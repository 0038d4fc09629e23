// Little-endian fields of eight bytes.
ghost use Rattle.std.specs.Prelude.{◌≡◌, ◌+◌, ◌*◌, ◌≤◌, length};
ghost use Rattle.std.specs.Float.{binary64};
ghost use Rattle.std.specs.Float.Ieee.{of_bits};
ghost use Rattle.model.specs.Records.{u32_at};

use crate::bytes_at;

// The highest bit: of an i64 and of an f64 its sign.
pub const SIGN: u64 = 1 << 63;

// The bits of an f64 below its sign: 11 of the exponent, which is the greatest of infinities and nans, and 52 of the fraction.
pub const FRACTION: u64 = 1 << 52;

pub const NOT_FINITE: u64 = 2047;

// The u64 in the eight bytes from `at` on.
pub fn u64_at(s: &[u8], at: usize) -> u64
    requires { at + 8 ≤ length s.now }
    ensures { result ≡ u32_at s.now at + 4294967296 * u32_at s.now (at + 4) }
{
    u64::from_le_bytes(bytes_at(s, at))
}

// The f64 with these bits. The language makes no float of a nan's bits: there it is 0 / 0.
pub fn float(bits: u64) -> f64
    ensures { result ≡ of_bits binary64 bits }
{
    let exponent = bits % SIGN / FRACTION;
    let fraction = bits % FRACTION;
    if (exponent == NOT_FINITE) & (fraction != 0) {
        return 0.0 / 0.0;
    }
    f64::from_bits(bits)
}
