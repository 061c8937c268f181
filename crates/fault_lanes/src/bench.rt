//! The bench with one fault per lane.
ghost use Rattle.std.specs.Prelude.{◌≡◌, ℕ, ◌<◌, ◌≤◌, length, All, IfOk};
ghost use Rattle.fault_secure.specs.Circuit.{nets, bit};
ghost use Rattle.fault_secure.specs.StuckAt.{NoFault, fault_cell};
ghost use Rattle.fault_secure.specs.Settle.{Acyclic};
ghost use Rattle.tsc_net.specs.Fault.{stuck_at};
ghost use Rattle.tsc_net.specs.Limits.{most_nets};
ghost use Rattle.lane_sim.specs.Lanes.{HasLanes};
ghost use Rattle.fault_lanes.specs.Batch.{batch_fault};
ghost use Rattle.fault_lanes.specs.Bench.{fault_of, state_of, valuation_of, IsSameBatch, IsStep, SettlesEach, StartsEach};

use crate::chains::Chains;
use crate::ready::Ready;
use crate::settling::settle_nets;
use crate::states::{put_states, start_states, take_states};
use std::alloc::{AllocError, Global};
use std::marker::Model;
use tsc_net::{Bits, Fault, NetId, Netlist};

/// A netlist, which it borrows, in 1,024 lanes at once: lane 0 is without a fault, and each other lane has a fault of a batch or
/// none. Contracts see the netlist without its names, the fault of each lane, and the words of the latches and of the nets.
#[derive(Drop)]
pub struct FaultLanes<'a> {
    net: &'a Netlist,
    ready: Ready,
    chains: Chains,
    states: Vec<u64>,
    pins: Vec<u64>,
    words: Vec<u64>,
}

impl<'a> Model for FaultLanes<'a> {
    ghost use Rattle.fault_lanes.specs.Bench.{LanesState};

    ghost Value = { LanesState };

    ghost use Rattle.fault_lanes.specs.BenchView.{lanes_as, KeepsLanes};

    ghost view = { lanes_as };

    ghost invariant = { KeepsLanes };
}

impl<'a> FaultLanes<'a> {
    /// A bench of the netlist, without a fault in any lane, at the first bits of its latches. It takes all the memory that it will
    /// ever have: 128 bytes per net and latch, 8 per net, and one per node.
    ///
    /// # Errors
    ///
    /// Want of memory.
    pub fn open(alloc: Global, net: &'a Netlist) -> Result<FaultLanes<'a>, AllocError>
        requires nets { nets net.now.circuit ≤ most_nets }
        ensures circuit { IfOk result (λ bench. bench.circuit ≡ net.now.circuit) }
        ensures faults { IfOk result (λ bench. (lane : ℕ) → fault_of bench lane ≡ NoFault) }
        ensures first { IfOk result StartsEach }
    {
        let ready = Ready::of(alloc, net)?;
        let chains = Chains::with_room(alloc, net.nets())?;
        let mut states = vec![in alloc; 0; net.latches() * 16]?;
        start_states(net, &mut states);
        let pins = vec![in alloc; 0; 1024]?;
        let words = vec![in alloc; 0; net.nets() * 16]?;
        Ok(FaultLanes {
            net,
            ready,
            chains,
            states,
            pins,
            words,
        })
    }

    /// Gives each lane its fault of a batch, in place of those of the batch before, and each latch its first bit.
    pub fn load(&mut self, faults: &[Fault])
        requires few { length faults.now < 1024 }
        requires within { All (λ fault. fault_cell (stuck_at fault) < nets self.old.circuit) faults.now }
        ensures faults { (lane : ℕ) → lane < 1024 → fault_of self.new lane ≡ batch_fault faults.now lane }
        ensures first { StartsEach self.new }
        ensures circuit { self.new.circuit ≡ self.old.circuit }
    {
        self.chains.load(faults);
        start_states(self.net, &mut self.states);
    }

    /// Gives each latch a bit, the same in each lane, the first latch first.
    pub fn put_state(&mut self, state: &[bool])
        requires state { length state.now ≡ length self.old.circuit.latches }
        ensures state { (lane : ℕ) → lane < 1024 → state_of self.new lane ≡ state.now }
        ensures nets { self.new.nets ≡ self.old.nets }
        ensures same { IsSameBatch self.old self.new }
    {
        put_states(state, &mut self.states);
    }

    /// Settles with these bits of the inputs in each lane, from the lane's state bits and under its fault. A fault at the pin of a
    /// latch changes nothing here: it acts on the next state. There is no ring, so what settles is the one valuation that does.
    pub fn settle(&mut self, input: &Bits)
        requires input { length input.now ≡ self.old.circuit.inputs }
        ensures settles { SettlesEach self.old input.now self.new }
        ensures acyclic { Acyclic self.old.circuit }
        ensures states { self.new.states ≡ self.old.states }
        ensures same { IsSameBatch self.old self.new }
    {
        settle_nets(
            self.net,
            &self.ready,
            &self.chains,
            input.as_slice(),
            &self.states,
            &mut self.pins,
            &mut self.words,
        );
    }

    /// Settles, and gives each latch the bit that its pin reads, in each lane.
    pub fn step(&mut self, input: &Bits)
        requires input { length input.now ≡ self.old.circuit.inputs }
        ensures step { IsStep self.old input.now self.new }
        ensures acyclic { Acyclic self.old.circuit }
    {
        self.settle(input);
        take_states(self.net, &self.chains, &self.words, &mut self.states);
    }

    /// What a net has: sixteen words, lane p being bit p mod 64 of word p / 64.
    pub fn lanes(&self, net: NetId) -> &[u64]
        requires net { net.number < nets self.now.circuit }
        ensures lanes { HasLanes 16 result.now (λ lane. bit (valuation_of self.now lane) net.number) }
    {
        &self.words[net.number as usize * 16..][..16]
    }
}
