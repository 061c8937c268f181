//! Lanes of the latches at 64 places, one after another: the bits of the words of the places' states.
ghost use Rattle.std.specs.Prelude.{◌≡◌, ℕ, ◌+◌, ◌-◌, ◌*◌, ◌/◌, ◌<◌, ◌≤◌, ◌^◌, ◌&&◌, ◌||◌, List, Bool, Some, IsSome, slice_index};
ghost use Rattle.tsc_bits.specs.Bits.{bit_worth, bits_of};
ghost use Rattle.fault_secure.specs.Circuit.{bit};
ghost use Rattle.fault_secure.specs.Exposing.{word_of_state};

use crate::lanes::word_of;
use crate::place_lanes::{places_of, width_of};
use tsc_cover::bit_at;
use tsc_net::Plan;

/// The word of a listed state, in its last bits: as many as there are latches.
pub fn state_word(plan: &Plan, state: usize) -> u64
    requires state { IsSome (word_of_state plan.now state) }
    ensures word { word_of_state plan.now state ≡ Some (bits_of plan.now.latches result) }
{
    if plan.states.width() == 0 {
        0
    } else {
        *plan.states.get(state)
    }
}

/// The lanes of the latches, the first first, at those of the 64 places from `base` on that are below `past`: each state has
/// `2^inputs` places.
pub(crate) fn state_lanes(plan: &Plan, inputs: usize, base: usize, past: usize) -> [u64; 64]
    requires few { inputs ≤ 20 }
    requires some { base < past }
    requires places { past ≤ 1048576 }
    requires states { (q : ℕ) → q * 2 ^ inputs < past → IsSome (word_of_state plan.now q) }
    ensures lanes { (k : ℕ) → k < 64 → base + k < past → (l : ℕ) → l < plan.now.latches → (word : List Bool)
        → word_of_state plan.now ((base + k) / 2 ^ inputs) ≡ Some word → bit_worth k (slice_index result l) ≡ bit word l }
{
    let width = width_of(inputs);
    let last = past.min(base + 64) - 1;
    let mut lanes = [0; 64];
    for state in base / width..last / width + 1 {
        add_state(
            &mut lanes,
            plan.states.width(),
            state_word(plan, state),
            places_of(state as u32, inputs, base),
        );
    }
    lanes
}

/// Adds to the lanes of so many latches the ones of a word at these points.
fn add_state(lanes: &mut [u64; 64], latches: usize, word: u64, points: u64)
    requires few { latches ≤ 64 }
    ensures added { (l : ℕ) → l < latches → (k : ℕ) → k < 64
        → bit_worth k (slice_index lanes.new l) ≡ (bit_worth k (slice_index lanes.old l) || (bit_worth k points && bit_worth (latches - 1 - l) word)) }
{
    for latch in 0..latches {
        lanes[latch] |= points & word_of(bit_at(word, latches - 1 - latch));
    }
}
