//! The nets of a netlist, settled in 1,024 lanes at once.
ghost use Rattle.std.specs.Prelude.{◌≡◌, ◌≢◌, ℕ, ◌+◌, ◌*◌, ◌<◌, ◌≤◌, Bool, List, length, slice_index, All};
ghost use Rattle.tsc_cover.specs.Cover.{truth};
ghost use Rattle.fault_secure.specs.Circuit.{nets, node, node_net, latch_net, bit};
ghost use Rattle.fault_secure.specs.StuckAt.{on_stem};
ghost use Rattle.fault_secure.specs.Settle.{Acyclic, Settles};
ghost use Rattle.tsc_net.specs.PlanView.{net_numbers};
ghost use Rattle.lane_rows.specs.Alive.{source_count};
ghost use Rattle.lane_sim.specs.Lanes.{HasLanes, lane_bit};
ghost use Rattle.lane_sim.specs.Points.{source_bit};
ghost use Rattle.fault_lanes.specs.Batch.{lane_fault};
ghost use Rattle.fault_lanes.specs.Bench.{bits_in};
ghost use Rattle.fault_lanes.specs.Chains.{AreChains};
ghost use Rattle.fault_lanes.specs.Ready.{IsReady};
ghost use Rattle.fault_lanes.specs.Settling.{bits_at, made_bit, HasSources, NodesSettle};

use crate::chains::Chains;
use crate::covers::cover_lanes;
use crate::pairs::{row_or, settle_pair};
use crate::ready::Ready;
use lane_sim::{constant, load, store};
use std::simd::Simd;
use tsc_net::{NetId, Netlist};

/// Settles all nets, with these bits of the inputs in each lane and the latches' bits of each lane.
pub(crate) fn settle_nets(
    net: &Netlist,
    ready: &Ready,
    chains: &Chains,
    input: &[bool],
    states: &[u64],
    pins: &mut [u64],
    words: &mut [u64],
)
    requires ready { IsReady net.now.circuit ready.now }
    requires chains { AreChains (nets net.now.circuit) chains.now }
    requires input { length input.now ≡ net.now.circuit.inputs }
    requires states { length states.now ≡ length net.now.circuit.latches * 16 }
    requires pins { length pins.old ≡ 1024 }
    requires words { length words.old ≡ nets net.now.circuit * 16 }
    ensures settles { (lane : ℕ) → lane < 1024
        → Settles net.now.circuit (lane_fault chains.now.faults.items lane) (bit input.now) (bit (bits_in states.now (length net.now.circuit.latches) lane)) (bits_in words.new (nets net.now.circuit) lane) }
    ensures acyclic { Acyclic net.now.circuit }
{
    // That there is no ring is known from here on.
    let _order = net.order();
    settle_inputs(chains, input, words);
    settle_latches(chains, input.len(), net.latches(), states, words);
    settle_nodes(net, ready, chains, pins, words);
}

/// Settles the inputs.
fn settle_inputs(chains: &Chains, input: &[bool], words: &mut [u64])
    requires chains { AreChains (length chains.now.newest.items) chains.now }
    requires nets { length input.now ≤ length chains.now.newest.items }
    requires words { length words.old ≡ length chains.now.newest.items * 16 }
    ensures inputs { (i lane : ℕ) → i < length input.now → lane < 1024 → source_bit words.new i lane ≡ on_stem (lane_fault chains.now.faults.items lane) i (bit input.now i) }
{
    for (index, value) in input.iter().enumerate() {
        settle_net(chains, words, index, constant(*value));
    }
}

/// Settles the latch outputs, whose nets stand from the net `first` on.
fn settle_latches(chains: &Chains, first: usize, latches: usize, states: &[u64], words: &mut [u64])
    requires chains { AreChains (length chains.now.newest.items) chains.now }
    requires nets { first + latches ≤ length chains.now.newest.items }
    requires words { length words.old ≡ length chains.now.newest.items * 16 }
    requires states { length states.now ≡ latches * 16 }
    ensures latches { (l lane : ℕ) → l < latches → lane < 1024 → source_bit words.new (first + l) lane ≡ on_stem (lane_fault chains.now.faults.items lane) (first + l) (source_bit states.now l lane) }
    ensures inputs { (i lane : ℕ) → i < first → lane < 1024 → source_bit words.new i lane ≡ source_bit words.old i lane }
{
    for latch in 0..latches {
        settle_net(chains, words, first + latch, load(states, latch));
    }
}

/// Settles the nets of the nodes, one after another along the evaluation order.
fn settle_nodes(net: &Netlist, ready: &Ready, chains: &Chains, pins: &mut [u64], words: &mut [u64])
    requires ready { IsReady net.now.circuit ready.now }
    requires chains { AreChains (nets net.now.circuit) chains.now }
    requires pins { length pins.old ≡ 1024 }
    requires words { length words.old ≡ nets net.now.circuit * 16 }
    ensures sources { (other lane : ℕ) → other < source_count net.now.circuit → lane < 1024 → source_bit words.new other lane ≡ source_bit words.old other lane }
    ensures nodes { (lane : ℕ) (v : List Bool) → lane < 1024 → HasSources net.now.circuit words.old lane v → NodesSettle net.now.circuit (lane_fault chains.now.faults.items lane) v
        → (j : ℕ) → j < length net.now.circuit.nodes → source_bit words.new (node_net net.now.circuit j) lane ≡ bit v (node_net net.now.circuit j) }
{
    // That a netlist is closed is known from here on.
    let _nets = net.nets();
    for place in net.order() {
        settle_node(net, *place, ready, chains, pins, words);
    }
}

/// Settles the net of a node.
fn settle_node(
    net: &Netlist,
    place: usize,
    ready: &Ready,
    chains: &Chains,
    pins: &mut [u64],
    words: &mut [u64],
)
    requires place { place < length net.now.circuit.nodes }
    requires ready { IsReady net.now.circuit ready.now }
    requires chains { AreChains (nets net.now.circuit) chains.now }
    requires pins { length pins.old ≡ 1024 }
    requires words { length words.old ≡ nets net.now.circuit * 16 }
    ensures here { (lane : ℕ) → lane < 1024 → source_bit words.new (node_net net.now.circuit place) lane
        ≡ on_stem (lane_fault chains.now.faults.items lane) (node_net net.now.circuit place) (made_bit net.now.circuit (lane_fault chains.now.faults.items lane) (λ other. source_bit words.old other lane) place) }
    ensures others { (other lane : ℕ) → lane < 1024 → other ≢ node_net net.now.circuit place → source_bit words.new other lane ≡ source_bit words.old other lane }
{
    let driver = net.node_net(place).number as usize;
    if chains.is_free(driver) {
        settle_free(net, place, ready, words);
    } else {
        let lanes = node_lanes(net, place, ready, chains, pins, words);
        settle_net(chains, words, driver, lanes);
    }
}

/// Settles the net of a node at which no lane has a fault: its pins are read where their nets are.
fn settle_free(net: &Netlist, place: usize, ready: &Ready, words: &mut [u64])
    requires place { place < length net.now.circuit.nodes }
    requires ready { IsReady net.now.circuit ready.now }
    requires words { length words.old ≡ nets net.now.circuit * 16 }
    ensures here { (lane : ℕ) → lane < 1024 → source_bit words.new (node_net net.now.circuit place) lane ≡ truth (node net.now.circuit place).cover (bits_at words.old (node net.now.circuit place).reads lane) }
    ensures others { (other lane : ℕ) → lane < 1024 → other ≢ node_net net.now.circuit place → source_bit words.new other lane ≡ source_bit words.old other lane }
{
    // What the netlist keeps is known from here on.
    let _nets = net.nets();
    let to = net.node_net(place).number as usize;
    let reads = net.node_reads(place);
    if reads.len() <= 2 {
        let first = row_or(reads, 0, to);
        let second = row_or(reads, 1, to);
        settle_pair(ready.tables[place], first, second, to, words);
    } else {
        let lanes = cover_lanes(net.node_cover(place), reads, words);
        store(words, to, lanes);
    }
}

/// What the cover of a node makes of the lanes of the nets that it reads, where its pins are held by the faults there.
fn node_lanes(
    net: &Netlist,
    place: usize,
    ready: &Ready,
    chains: &Chains,
    pins: &mut [u64],
    words: &[u64],
) -> Simd<u64, 16>
    requires place { place < length net.now.circuit.nodes }
    requires ready { IsReady net.now.circuit ready.now }
    requires chains { AreChains (nets net.now.circuit) chains.now }
    requires pins { length pins.old ≡ 1024 }
    requires words { length words.now ≡ nets net.now.circuit * 16 }
    ensures lanes { HasLanes 16 result (λ lane. made_bit net.now.circuit (lane_fault chains.now.faults.items lane) (λ other. source_bit words.now other lane) place) }
{
    // What the netlist and the cover keep is known from here on.
    let _nets = net.nets();
    let cover = net.node_cover(place);
    let width = cover.width();
    load_pins(net.node_reads(place), words, pins);
    chains.hold_pins(pins, 0, width, net.node_net(place).number as usize);
    cover_lanes(cover, &ready.places[..width], pins)
}

/// Copies the lanes of the nets that a node reads to the rows of its pins.
fn load_pins(reads: &[NetId], words: &[u64], pins: &mut [u64])
    requires few { length reads.now ≤ 64 }
    requires within { All (λ net. net.number * 16 + 16 ≤ length words.now) reads.now }
    requires pins { length pins.old ≡ 1024 }
    ensures loaded { (pin lane : ℕ) → pin < length reads.now → lane < 1024 → source_bit pins.new pin lane ≡ source_bit words.now (slice_index (net_numbers reads.now) pin) lane }
{
    for (pin, net) in reads.iter().enumerate() {
        store::<16>(pins, pin, load(words, net.number as usize));
    }
}

/// Gives a net these lanes, and holds it in those whose fault is its stem.
fn settle_net(chains: &Chains, words: &mut [u64], net: usize, lanes: Simd<u64, 16>)
    requires chains { AreChains (length chains.now.newest.items) chains.now }
    requires net { net < length chains.now.newest.items }
    requires words { length words.old ≡ length chains.now.newest.items * 16 }
    ensures here { (lane : ℕ) → lane < 1024 → source_bit words.new net lane ≡ on_stem (lane_fault chains.now.faults.items lane) net (lane_bit lanes lane) }
    ensures others { (other lane : ℕ) → lane < 1024 → other ≢ net → source_bit words.new other lane ≡ source_bit words.old other lane }
{
    store(words, net, lanes);
    chains.hold_stems(words, net);
}
