//! Nodes settled at 64 points at once.
ghost use Rattle.std.specs.Prelude.{◌≡◌, ℕ, ◌+◌, ◌%◌, ◌<◌, ◌≤◌, ◌^◌, length, All, slice_set};
ghost use Rattle.tsc_bits.specs.Bits.{bits_of, bit_worth};
ghost use Rattle.fault_secure.specs.Circuit.{nets, node_net};
ghost use Rattle.fault_secure.specs.StuckAt.{NoFault};
ghost use Rattle.fault_secure.specs.Settle.{node_value};
ghost use Rattle.tsc_net.specs.PlanView.{net_numbers};
ghost use Rattle.code_lanes.specs.Lanes.{column};
ghost use Rattle.node_lanes.specs.Settling.{with_bits, settled};

use crate::covers::cover_word;
use lane_sim::places_with;
use tsc_net::{NetId, Netlist};

/// Puts the bits of 64 values at some nets, the first net most significant.
pub fn put_words(words: &mut [u64], nets: &[NetId], base: u64)
    requires few { length nets.now ≤ 64 }
    requires low { base < 2 ^ 63 }
    requires whole { base % 64 ≡ 0 }
    requires within { All (λ net. net.number < length words.old) nets.now }
    ensures put { (p : ℕ) → p < 64 → column p words.new ≡ with_bits (column p words.old) (net_numbers nets.now) (bits_of (length nets.now) (base + p)) }
{
    let count = nets.len();
    for (place, net) in nets.iter().enumerate() {
        words[net.number as usize] = places_with(count - 1 - place, base as usize);
    }
}

/// Sets the nets of some nodes, one after another.
pub fn settle_words(net: &Netlist, places: &[usize], words: &mut [u64])
    requires sized { length words.old ≡ nets net.now.circuit }
    requires places { All (λ place. place < length net.now.circuit.nodes) places.now }
    ensures settled { (p : ℕ) → p < 64 → column p words.new ≡ settled net.now.circuit places.now (column p words.old) }
{
    for place in places {
        settle_node_words(net, *place, words);
    }
}

/// Sets the net of a node.
fn settle_node_words(net: &Netlist, place: usize, words: &mut [u64])
    requires sized { length words.old ≡ nets net.now.circuit }
    requires place { place < length net.now.circuit.nodes }
    ensures set { (p : ℕ) → p < 64 → column p words.new ≡ slice_set (column p words.old) (node_net net.now.circuit place) (node_value net.now.circuit NoFault (column p words.old) place) }
{
    let word = node_word(net, place, words);
    words[net.node_net(place).number as usize] = word;
}

/// The word of a node on the words of nets.
fn node_word(net: &Netlist, place: usize, words: &[u64]) -> u64
    requires sized { length words.now ≡ nets net.now.circuit }
    requires place { place < length net.now.circuit.nodes }
    ensures bits { (p : ℕ) → p < 64 → bit_worth p result ≡ node_value net.now.circuit NoFault (column p words.now) place }
{
    // What the netlist keeps is known from here on.
    let _nets = net.nets();
    cover_word(net.node_cover(place), net.node_reads(place), words)
}
