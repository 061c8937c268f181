//! The points at which lanes have a 1.
ghost use Rattle.std.specs.Prelude.{◌≡◌, ◌≤◌, true};
ghost use Rattle.lane_sim.specs.Lanes.{lane_bit};
ghost use Rattle.lane_sim.specs.First.{IsFirstIn};

use crate::changing::is_somewhere;
use crate::first_bit::first_bit;
use std::simd::Simd;

/// The first of the first `many` points at which the lanes have a 1.
pub fn first_point(lanes: Simd<u64, 16>, many: usize) -> Option<usize>
    requires many { many ≤ 1024 }
    ensures first { IsFirstIn (λ p. lane_bit lanes p ≡ true) 0 many result }
{
    if !is_somewhere(lanes) {
        return None;
    }
    first_bit(&lanes.to_array(), 0, many)
}
