//! A Berger check as a number.
ghost use Rattle.std.specs.Prelude.{◌≡◌, ◌<◌, ◌≤◌, not};
ghost use Rattle.tsc_bits.specs.Bits.{weight_of, bit_worth, bits_of};
ghost use Rattle.fault_secure.specs.CodePlan.{IsBergerWidth};
ghost use Rattle.tsc_bits.specs.Counting.{zeros};

use tsc_cover::bit_at;

/// The number of bits of the check of `k` outputs, which are 1 to 64: the least w with `2^w > k`.
pub fn berger_width(k: usize) -> usize
    requires some { 0 < k }
    requires most { k ≤ 64 }
    ensures least { IsBergerWidth k result }
{
    k.ilog2() as usize + 1
}

/// 1 where the bit of `outputs` that is worth `2^place` is 0, and else 0.
fn zero_at(outputs: u64, place: usize) -> u64
    requires below { place < 64 }
    ensures zero { result ≡ weight_of (not (bit_worth place outputs)) }
{
    if bit_at(outputs, place) { 0 } else { 1 }
}

/// The number of zeros among the last `k` bits of `outputs`, which are 1 to 64.
pub fn check_of(k: usize, outputs: u64) -> u64
    requires some { 0 < k }
    requires most { k ≤ 64 }
    ensures check { result ≡ zeros (bits_of k outputs) }
{
    let mut count = 0;
    for place in 0..k {
        count += zero_at(outputs, place);
    }
    count
}
