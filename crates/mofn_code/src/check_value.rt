//! A thermometer check as a number.
ghost use Rattle.std.specs.Prelude.{◌≡◌, ◌<◌, ◌≤◌, ◌^◌};
ghost use Rattle.tsc_bits.specs.Bits.{bits_of};
ghost use Rattle.tsc_bits.specs.Counting.{zeros};
ghost use Rattle.tsc_bits.specs.Thermometer.{thermo};

use berger_code::check_of;

/// The check of the last `k` bits of `outputs`, which are 1 to 64: its last `k` bits. The j-th of them, from 1 and
/// the most significant first, is 1 exactly where at least j of those of `outputs` are 0.
pub fn thermo_of(k: usize, outputs: u64) -> u64
    requires some { 0 < k }
    requires most { k ≤ 64 }
    ensures thermo { bits_of k result ≡ thermo k (zeros (bits_of k outputs)) }
    ensures fits { result < 2 ^ k }
{
    let zeros = check_of(k, outputs) as usize;
    first_ones(k, zeros)
}

/// The number of `k` bits, at most 64, of which the first `count` are 1.
fn first_ones(k: usize, count: usize) -> u64
    requires most { k ≤ 64 }
    requires within { count ≤ k }
    ensures thermo { bits_of k result ≡ thermo k count }
    ensures fits { result < 2 ^ k }
{
    let all: u128 = 1 << k;
    let rest: u128 = 1 << (k - count);
    (all - rest) as u64
}
