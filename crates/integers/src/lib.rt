// Whole-number arithmetic in 64 bits, each function equal to a definition over unbounded whole numbers.
#![tactic(auto)]

ghost use Rattle.std.specs.Prelude.{◌≡◌, ◌^◌, ◌<◌, unsigned_abs};
ghost use Rattle.integers.specs.Floor.{floor_div};
ghost use Rattle.integers.specs.Root.{root};

mod guess;
pub mod signs;

// The absolute value, which of the least i64 is no i64.
pub fn magnitude(z: i64) -> u64
    ensures { result ≡ unsigned_abs z }
{
    if z >= 0 { z as u64 } else { (!z) as u64 + 1 }
}

// n / 2^30, rounded down.
pub fn floor_2_30(n: i64) -> i64
    ensures { result ≡ floor_div n (2 ^ 30) }
{
    n >> 30
}

// The whole square root of x, rounded down. Whatever the guess is, the loops go down and up from it to the root.
pub fn whole_root(x: u64) -> u64
    ensures value { result ≡ root x }
    ensures small { result < 2 ^ 32 }
{
    let mut r = guess::root_guess(x);
    while x < r * r {
        r -= 1;
    }
    while 2 * r < x - r * r {
        r += 1;
    }
    r
}
