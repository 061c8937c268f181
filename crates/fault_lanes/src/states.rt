//! The bits of the latches, in 1,024 lanes at once.
ghost use Rattle.std.specs.Prelude.{◌≡◌, ◌≢◌, ℕ, ◌*◌, ◌<◌, length};
ghost use Rattle.fault_secure.specs.Circuit.{latch, latch_net, nets};
ghost use Rattle.fault_secure.specs.StuckAt.{on_pin};
ghost use Rattle.fault_secure.specs.Run.{init_state, next_state};
ghost use Rattle.lane_sim.specs.Points.{source_bit};
ghost use Rattle.fault_lanes.specs.Batch.{lane_fault};
ghost use Rattle.fault_lanes.specs.Bench.{bits_in};
ghost use Rattle.fault_lanes.specs.Chains.{AreChains};

use crate::chains::Chains;
use lane_sim::{constant, load, store};
use tsc_net::Netlist;

/// Gives each latch its first bit, in each lane.
pub(crate) fn start_states(net: &Netlist, states: &mut [u64])
    requires states { length states.old ≡ length net.now.circuit.latches * 16 }
    ensures first { (lane : ℕ) → lane < 1024 → bits_in states.new (length net.now.circuit.latches) lane ≡ init_state net.now.circuit }
{
    for latch in 0..net.latches() {
        store::<16>(states, latch, constant(net.latch(latch).init));
    }
}

/// Gives each latch a bit, the same in each lane, the first latch first.
pub(crate) fn put_states(state: &[bool], states: &mut [u64])
    requires states { length states.old ≡ length state.now * 16 }
    ensures state { (lane : ℕ) → lane < 1024 → bits_in states.new (length state.now) lane ≡ state.now }
{
    for (latch, value) in state.iter().enumerate() {
        store::<16>(states, latch, constant(*value));
    }
}

/// Gives each latch the bit that its pin reads, in each lane.
pub(crate) fn take_states(net: &Netlist, chains: &Chains, words: &[u64], states: &mut [u64])
    requires chains { AreChains (nets net.now.circuit) chains.now }
    requires words { length words.now ≡ nets net.now.circuit * 16 }
    requires states { length states.old ≡ length net.now.circuit.latches * 16 }
    ensures next { (lane : ℕ) → lane < 1024
        → bits_in states.new (length net.now.circuit.latches) lane ≡ next_state net.now.circuit (lane_fault chains.now.faults.items lane) (bits_in words.now (nets net.now.circuit) lane) }
{
    // That latches read nets is known from here on.
    let _nets = net.nets();
    for latch in 0..net.latches() {
        take_state(net, latch, chains, words, states);
    }
}

/// Gives a latch the bit that its pin reads, in each lane.
fn take_state(net: &Netlist, place: usize, chains: &Chains, words: &[u64], states: &mut [u64])
    requires place { place < length net.now.circuit.latches }
    requires chains { AreChains (nets net.now.circuit) chains.now }
    requires words { length words.now ≡ nets net.now.circuit * 16 }
    requires states { length states.old ≡ length net.now.circuit.latches * 16 }
    ensures here { (lane : ℕ) → lane < 1024 → source_bit states.new place lane
        ≡ on_pin (lane_fault chains.now.faults.items lane) (latch_net net.now.circuit place) 0 (source_bit words.now (latch net.now.circuit place).reads lane) }
    ensures others { (other lane : ℕ) → lane < 1024 → other ≢ place → source_bit states.new other lane ≡ source_bit states.old other lane }
{
    // That latches read nets is known from here on.
    let _nets = net.nets();
    let view = net.latch(place);
    store::<16>(states, place, load(words, view.reads.number as usize));
    chains.hold_pins(states, place, 1, view.out.number as usize);
}
