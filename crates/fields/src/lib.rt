// Lent bytes: their little-endian fields, and their parts.
#![tactic(auto)]

pub mod eight;
pub mod parts;

ghost use Rattle.std.specs.Prelude.{◌≡◌, ◌+◌, ◌≤◌, length};
ghost use Rattle.model.specs.Records.{part, u16_at, u32_at, i32_at, u16_bytes, u32_bytes, put, i32_bytes};

use crate::parts::copy_at;

// N bytes from `at` on, as an array.
fn bytes_at<const N: usize>(s: &[u8], at: usize) -> [u8; N]
    requires { at + N ≤ length s.now }
    ensures { result ≡ part s.now at N }
{
    *s[at..at + N].as_array().unwrap()
}

// The u16 in the two bytes from `at` on.
pub fn u16_at(s: &[u8], at: usize) -> u16
    requires { at + 2 ≤ length s.now }
    ensures { result ≡ u16_at s.now at }
{
    u16::from_le_bytes(bytes_at(s, at))
}

// The u32 in the four bytes from `at` on.
pub fn u32_at(s: &[u8], at: usize) -> u32
    requires { at + 4 ≤ length s.now }
    ensures { result ≡ u32_at s.now at }
{
    u32::from_le_bytes(bytes_at(s, at))
}

// The i32 in the four bytes from `at` on.
pub fn i32_at(s: &[u8], at: usize) -> i32
    requires { at + 4 ≤ length s.now }
    ensures { result ≡ i32_at s.now at }
{
    i32::from_le_bytes(bytes_at(s, at))
}

// n over the two bytes from `at` on.
pub fn put_u16(s: &mut [u8], at: usize, n: u16)
    requires { at + 2 ≤ length s.old }
    ensures { s.new ≡ put s.old at (u16_bytes n) }
{
    copy_at(s, at, &n.to_le_bytes());
}

// v over the four bytes from `at` on.
pub fn put_u32(s: &mut [u8], at: usize, v: u32)
    requires { at + 4 ≤ length s.old }
    ensures { s.new ≡ put s.old at (u32_bytes v) }
{
    copy_at(s, at, &v.to_le_bytes());
}

// z over the four bytes from `at` on.
pub fn put_i32(s: &mut [u8], at: usize, z: i32)
    requires { at + 4 ≤ length s.old }
    ensures { s.new ≡ put s.old at (i32_bytes z) }
{
    copy_at(s, at, &z.to_le_bytes());
}
