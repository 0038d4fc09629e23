// For measurement: many stations of one element, which is prepared once, and many whole square roots.
#![tactic(auto)]

ghost use Rattle.std.specs.Prelude.{◌≡◌, ◌*◌, ◌^◌, ◌<◌, ◌≤◌, nat_abs, ◌+ℤ◌};
ghost use Rattle.model.specs.Series.{position_on};
ghost use Rattle.elements.specs.Prepared.{Ready};
ghost use Rattle.element_probe.specs.Sums.{addable, mixed, next_on, sum_from, sum_over, roots_from};

use elements::Prepared;
use model::{Outcome, layout};

// The next station, from the element's end again to its start.
fn next_on(length: u64, s: u64) -> u64
    ensures { result ≡ next_on length s }
{
    if s < length { s + 1 } else { 0 }
}

// X + 2Y of the position at s, added to a sum.
fn add_position(p: Prepared, s: u64, sum: i64) -> i64
    requires ready { Ready p }
    requires s_le_length { s ≤ p.element.length }
    requires sum_bound { nat_abs sum < addable }
    ensures { result ≡ sum +ℤ mixed (position_on p.element s) }
{
    let at = elements::position(p, s);
    sum + (at.x + 2 * at.y)
}

// `count` stations from 0 on.
fn positions(p: Prepared, count: u32) -> i64
    requires { Ready p }
    ensures { result ≡ sum_from p.element count 0 }
{
    let e = p.element;
    let length = e.length;
    let mut sum: i64 = 0;
    let mut s = 0;
    let mut left = count;
    while left > 0 {
        sum = add_position(p, s, sum);
        s = next_on(length, s);
        left -= 1;
    }
    sum
}

// The sum over `count` positions on the element of a record; 0 where the bytes are no accepted record.
pub fn element_positions(rec: &[u8], count: u32) -> i64
    ensures { result ≡ sum_over rec.now count }
{
    if rec.len() != layout::RECORD_SIZE {
        return 0;
    }
    match records::check_record(rec, 0) {
        Outcome::Refused(_) => 0,
        Outcome::Done => positions(elements::prepare(records::element(rec)), count),
    }
}

// The sum of `count` whole square roots, from that of high * 2^32 on.
pub fn root_sum(high: u32, count: u32) -> u64
    ensures { result ≡ roots_from count («high» * 2 ^ 32) }
{
    let first = high as u64 * 0x1_0000_0000;
    let n = count as u64;
    let mut sum = 0;
    let mut i = 0;
    while i < n {
        sum += integers::whole_root(first + i);
        i += 1;
    }
    sum
}
