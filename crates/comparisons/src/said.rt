// What a row says: fields of the bytes after its head.
ghost use Rattle.std.specs.Prelude.{◌≡◌, ◌+◌, ◌≤◌};
ghost use Rattle.comparisons.specs.Said.{is_at, float_is_at};

use fields::eight::u64_at;

// The bytes after a row's head, and zeros.
pub type Row = [u8; 124];

// Whether the eight bytes from `at` on are z, in two's complement.
pub fn is_at(row: &Row, at: usize, z: i64) -> bool
    requires { at + 8 ≤ 124 }
    ensures { result ≡ is_at row.now at z }
{
    z == u64_at(row, at).cast_signed()
}

// Whether the eight bytes from `at` on are the bits of x; a nan has no bits of its own in the language, and agrees with none.
pub fn float_is_at(row: &Row, at: usize, x: f64) -> bool
    requires { at + 8 ≤ 124 }
    ensures { result ≡ float_is_at row.now at x }
{
    if x != x {
        return false;
    }
    f64::to_bits(x) == u64_at(row, at)
}
