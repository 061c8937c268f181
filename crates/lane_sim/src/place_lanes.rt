//! Places of points as lanes: which of 64 places, one after another, have a bit, or are those of a state.
ghost use Rattle.std.specs.Prelude.{◌≡◌, ◌+◌, ◌/◌, ◌%◌, ◌<◌, ◌≤◌, ◌^◌, ◌==◌, nat_lt};
ghost use Rattle.tsc_bits.specs.Bits.{bit_worth};
ghost use Rattle.lane_sim.specs.Lanes.{HasBits};

use crate::lanes::word_of;
use tsc_cover::bit_at;

/// How many lists of so many bits there are.
pub fn width_of(bits: usize) -> usize
    requires few { bits ≤ 20 }
    ensures width { result ≡ 2 ^ bits }
    ensures small { result ≤ 1048576 }
{
    1 << bits
}

/// The places, of the 64 from `base` on, that have the bit that is worth `2^digit`.
pub fn places_with(digit: usize, base: usize) -> u64
    requires digit { digit < 64 }
    requires whole { base % 64 ≡ 0 }
    ensures bits { HasBits result (λ k. bit_worth digit (base + k)) }
{
    match digit {
        0 => 0xAAAA_AAAA_AAAA_AAAA,
        1 => 0xCCCC_CCCC_CCCC_CCCC,
        2 => 0xF0F0_F0F0_F0F0_F0F0,
        3 => 0xFF00_FF00_FF00_FF00,
        4 => 0xFFFF_0000_FFFF_0000,
        5 => 0xFFFF_FFFF_0000_0000,
        _ => word_of(bit_at(base as u64, digit)),
    }
}

/// The places, of the 64 from `base` on, of the points of a state: each state has `2^inputs`.
pub fn places_of(state: u32, inputs: usize, base: usize) -> u64
    requires few { inputs ≤ 20 }
    ensures bits { HasBits result (λ k. state == (base + k) / 2 ^ inputs) }
{
    let width = width_of(inputs);
    let first = state as usize * width;
    places_below(first + width, base) & !places_below(first, base)
}

/// The places, of the 64 from `base` on, that are below a limit.
fn places_below(limit: usize, base: usize) -> u64
    ensures bits { HasBits result (λ k. nat_lt (base + k) limit) }
{
    if limit <= base {
        0
    } else if limit - base >= 64 {
        u64::MAX
    } else {
        (1 << (limit - base)) - 1
    }
}
