//! Trying the values of a cover's pins, 64 at once.
ghost use Rattle.std.specs.Prelude.{◌≡◌, ◌≢◌, ℕ, ◌+◌, ◌%◌, ◌<◌, ◌≤◌, ◌^◌, true, length, All, MatchOption};
ghost use Rattle.tsc_bits.specs.Bits.{bit_worth};
ghost use Rattle.tsc_net.specs.PlanView.{net_numbers};
ghost use Rattle.code_lanes.specs.Lanes.{HasZerosWhere};
ghost use Rattle.lane_sim.specs.First.{IsFirstIn};
ghost use Rattle.mapping_reading.specs.ReadMapping.{block_pins};
ghost use Rattle.mapping_reading.specs.Pins.{at_of};
ghost use Rattle.mapping_reading.specs.MovedNets.{HaveMoved};
ghost use Rattle.mapping_audit.specs.Values.{moved_pins, AreZeros, IsGiven, AreGiven, IsFirstMissed};

use crate::lanes::{clear, clear_gates, put_values};
use lane_sim::width_of;
use node_lanes::{cover_word, settle_words};
use tsc_net::{NetId, Netlist};

/// The first value of the pins of a node's cover, the first pin most significant, on which some gates don't give the cover's bit at the
/// node's net, if there is one. `reads` has where the nets at the cover's pins went, `words` one 0 per net, before and after.
pub fn first_missed(
    plain: &Netlist,
    mapped: &Netlist,
    moved: &[usize],
    node: usize,
    pins: &[usize],
    reads: &[NetId],
    gates: &[usize],
    words: &mut [u64],
) -> Option<u64>
    requires moved { HaveMoved plain.now.circuit mapped.now.circuit moved.now }
    requires node { node < length plain.now.circuit.nodes }
    requires pins { pins.now ≡ block_pins plain.now.circuit (at_of mapped.now.circuit moved.now) node }
    requires few { length pins.now ≤ 20 }
    requires reads { net_numbers reads.now ≡ moved_pins plain.now.circuit (at_of mapped.now.circuit moved.now) node }
    requires gates { All (λ gate. gate < length mapped.now.circuit.nodes) gates.now }
    requires zeros { AreZeros mapped.now.circuit words.old }
    ensures zeros { AreZeros mapped.now.circuit words.new }
    ensures first { MatchOption result (AreGiven plain.now.circuit mapped.now.circuit (at_of mapped.now.circuit moved.now) gates.now node) (IsFirstMissed plain.now.circuit mapped.now.circuit (at_of mapped.now.circuit moved.now) gates.now node) }
{
    let most = width_of(pins.len());
    for block in 0..(most + 63) / 64 {
        let base = 64 * block;
        let missed = missed_from(plain, mapped, moved, node, pins, reads, gates, base, words);
        if let Some(at) = first_one(missed) {
            return Some((base + at) as u64);
        }
    }
    None
}

/// The points, of the 64 values from `base` on, at which some gates don't give a cover's bit. `words` has one 0 per net, before and after.
fn missed_from(
    plain: &Netlist,
    mapped: &Netlist,
    moved: &[usize],
    node: usize,
    pins: &[usize],
    reads: &[NetId],
    gates: &[usize],
    base: usize,
    words: &mut [u64],
) -> u64
    requires moved { HaveMoved plain.now.circuit mapped.now.circuit moved.now }
    requires node { node < length plain.now.circuit.nodes }
    requires pins { pins.now ≡ block_pins plain.now.circuit (at_of mapped.now.circuit moved.now) node }
    requires few { length pins.now ≤ 20 }
    requires reads { net_numbers reads.now ≡ moved_pins plain.now.circuit (at_of mapped.now.circuit moved.now) node }
    requires gates { All (λ gate. gate < length mapped.now.circuit.nodes) gates.now }
    requires whole { base % 64 ≡ 0 }
    requires zeros { AreZeros mapped.now.circuit words.old }
    ensures zeros { AreZeros mapped.now.circuit words.new }
    ensures given { HasZerosWhere result (λ p. IsGiven plain.now.circuit mapped.now.circuit (at_of mapped.now.circuit moved.now) gates.now node (base + p)) }
{
    // What the netlists keep is known from here on.
    let _nets = plain.nets();
    let _mapped = mapped.nets();
    put_values(words, pins, base);
    let asked = cover_word(plain.node_cover(node), reads, words);
    settle_words(mapped, gates, words);
    let given = words[moved[plain.node_net(node).number as usize]];
    clear(words, pins);
    clear_gates(mapped, gates, words);
    given ^ asked
}

/// The first point at which a word has a 1, if there is one.
fn first_one(word: u64) -> Option<usize>
    ensures first { IsFirstIn (λ p. bit_worth p word ≡ true) 0 64 result }
{
    if word == 0 {
        None
    } else {
        Some(word.trailing_zeros() as usize)
    }
}
