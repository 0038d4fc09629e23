// One block of a crest file: its sums and its fields, and the block written into lent room.
#![tactic(auto)]

ghost use Rattle.std.specs.Prelude.{◌++◌, ◌≡◌, ◌≤◌, ◌<◌, length, IsTrue};
ghost use Rattle.model.specs.Records.{block_size, per_block, records_end, sums_at, put, u16_bytes, sum_a, sum_b};
ghost use Rattle.model.specs.Acceptance.{sums_agree, use_fits, fields_fit};
ghost use Rattle.model.specs.Writer.{block_body, block};

use fields::parts::{all_zero, clear_at, copy_at};
use model::layout::{
    EDITION, EDITION_AT, FIELDS_AT, PER_BLOCK, RECORD_SIZE, SUM_B_AT, SUM_MODULUS, SUMS_AT,
    USED_AT, ZERO_COUNT, ZEROS_AT,
};

// The two sums of a block, modulo 65,536.
#[derive(Clone, Copy)]
struct Sums {
    a: u16,
    b: u16,
}

// The sums of bytes 0 to 507: A adds them up, and B counts byte i 508 - i times.
fn sums_of(block: &[u8]) -> Sums
    requires { sums_at ≤ length block.now }
    ensures { (result.a ≡ sum_a block.now) × (result.b ≡ sum_b block.now) }
{
    let mut a: usize = 0;
    let mut b: usize = 0;
    for (i, x) in block[..SUMS_AT].iter().enumerate() {
        a += usize::from(*x);
        b += (SUMS_AT - i) * usize::from(*x);
    }
    Sums {
        a: (a % SUM_MODULUS) as u16,
        b: (b % SUM_MODULUS) as u16,
    }
}

// Whether both stored sums are those of the bytes before them.
#[tactic(auto, unfolding(model::specs::Acceptance::sums_agree))]
pub fn sums_agree(block: &[u8]) -> bool
    requires { length block.now ≡ block_size }
    ensures { result ≡ sums_agree block.now }
{
    let s = sums_of(block);
    fields::u16_at(block, SUMS_AT) == s.a && fields::u16_at(block, SUM_B_AT) == s.b
}

// Whether block b of n may use so many records: 15 in every block but the last, 1 to 15 in that.
#[tactic(auto, unfolding(model::specs::Acceptance::use_fits))]
fn use_fits(n: usize, b: usize, used: usize) -> bool
    requires { b < n }
    ensures value { result ≡ use_fits n b used }
    ensures few { IsTrue result → used ≤ per_block }
{
    if b + 1 == n {
        1 <= used && used <= PER_BLOCK
    } else {
        used == PER_BLOCK
    }
}

// Whether block b of n has the fields that it must have, and zeros where nothing is in use.
#[tactic(auto, unfolding(model::specs::Acceptance::fields_fit))]
pub fn fields_fit(n: usize, b: usize, block: &[u8]) -> bool
    requires block_len { length block.now ≡ block_size }
    requires b_lt_n { b < n }
    ensures { result ≡ fields_fit n b block.now }
{
    let number = usize::from(fields::u16_at(block, FIELDS_AT));
    let used = usize::from(fields::u16_at(block, USED_AT));
    number == b
        && use_fits(n, b, used)
        && fields::u32_at(block, EDITION_AT) == EDITION
        && all_zero(&block[ZEROS_AT..SUMS_AT])
        && all_zero(&block[RECORD_SIZE * used..FIELDS_AT])
}

// Bytes 0 to 507 of block b: its records, zeros up to 480, the block's fields, zeros.
fn write_body(room: &mut [u8], b: usize, records: &[u8])
    requires room_len { length room.old ≡ block_size }
    requires records_len_bound { length records.now ≤ records_end }
    requires b_bound { b < 65536 }
    ensures { room.new ≡ put room.old 0 (block_body b records.now) }
{
    let n = records.len();
    copy_at(room, 0, records);
    clear_at(room, n, FIELDS_AT - n);
    fields::put_u16(room, FIELDS_AT, b as u16);
    fields::put_u16(room, USED_AT, (n / RECORD_SIZE) as u16);
    fields::put_u32(room, EDITION_AT, EDITION);
    clear_at(room, ZEROS_AT, ZERO_COUNT);
}

// The two sums of bytes 0 to 507, after them.
fn write_sums(room: &mut [u8])
    requires { length room.old ≡ block_size }
    ensures { room.new ≡ put room.old sums_at (u16_bytes (sum_a room.old) ++ u16_bytes (sum_b room.old)) }
{
    let s = sums_of(room);
    fields::put_u16(room, SUMS_AT, s.a);
    fields::put_u16(room, SUM_B_AT, s.b);
}

// Block b of these records, 15 at most. The room is a part of the file's, and no array: of what is lent through `as_mut_array` and unwrapped, a
// proof knows the length only.
pub fn write_block(room: &mut [u8], b: usize, records: &[u8])
    requires room_len { length room.old ≡ block_size }
    requires records_len_bound { length records.now ≤ records_end }
    requires b_bound { b < 65536 }
    ensures { room.new ≡ block b records.now }
{
    write_body(room, b, records);
    write_sums(room);
}
