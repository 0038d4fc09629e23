// The calls for C of bench/: each is the function of `element_probe` under the same name, with its promise.
#![tactic(auto)]

ghost use Rattle.std.specs.Prelude.{◌≡◌, ◌*◌, ◌^◌};
ghost use Rattle.element_probe.specs.Sums.{sum_over, roots_from};

// The sum over `count` positions on the element of a record; 0 where the bytes are no accepted record.
#[unsafe(no_mangle)]
pub extern "C" fn element_positions(rec: &[u8], count: u32) -> i64
    ensures { result ≡ sum_over rec.now count }
{
    element_probe::element_positions(rec, count)
}

// The sum of `count` whole square roots, from that of high * 2^32 on.
#[unsafe(no_mangle)]
pub extern "C" fn root_sum(high: u32, count: u32) -> u64
    ensures { result ≡ roots_from count («high» * 2 ^ 32) }
{
    element_probe::root_sum(high, count)
}
