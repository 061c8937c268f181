//! A network of gates, each of which stands in it once.
ghost use Rattle.std.specs.Prelude.{◌≡◌, ◌==◌, ◌+◌, ◌^◌, ◌<◌, ◌≤◌, [], length, Some, IfOk, OnOk, OnErr, slice_get};
ghost use Rattle.gate_net.specs.Gates.{IsLine, IsHashed, ReadsWithin, gate_at, gate_signal, with_gate};
ghost use Rattle.gate_net.specs.Growth.{Grows, IsAdded};

use crate::gate::Gate;
use crate::gate_set::GateSet;
use crate::line::Line;
use std::alloc::{AllocError, Global};
use std::marker::Model;

/// Gates over some inputs and state bits. Each gate gives a line, and reads earlier lines.
#[derive(Drop)]
pub struct Gates {
    inputs: usize,
    states: usize,
    gates: GateSet,
}

impl Model for Gates {
    ghost use Rattle.gate_net.specs.Gates.{GateNetwork, IsHashed};

    ghost Value = { GateNetwork };

    ghost view = { λ network. record { inputs = network.inputs; states = network.states; gates = network.gates } };

    ghost invariant = { λ network. IsHashed (record { inputs = network.inputs; states = network.states; gates = network.gates }) };
}

impl Gates {
    /// No gates, over so many inputs and state bits. It takes no memory.
    pub fn new(alloc: Global, inputs: usize, states: usize) -> Gates
        ensures empty { result ≡ record { inputs = inputs; states = states; gates = [] } }
        ensures sound { IsHashed result }
    {
        Gates {
            inputs,
            states,
            gates: GateSet::new(alloc),
        }
    }

    /// Adds a gate and answers its line. Where an equal gate is there its line is answered, and nothing changes.
    /// A line's number fits 32 bits, so there have to be fewer lines. Where memory is missing the network is unchanged.
    ///
    /// # Errors
    ///
    /// Want of memory.
    pub fn add(&mut self, gate: Gate) -> Result<Line, AllocError>
        requires reads { ReadsWithin self.old gate }
        requires room { length self.old.gates + 1 < 2 ^ 32 }
        ensures added { IfOk result (λ line. IsAdded self.old self.new (gate_signal self.old gate) line) }
        ensures once { OnOk result (self.new ≡ with_gate self.old gate) }
        ensures stored { IfOk result (λ line. slice_get self.new.gates line.number ≡ Some gate) }
        ensures grows { Grows self.old self.new }
        ensures few { length self.new.gates ≤ length self.old.gates + 1 }
        ensures refused { OnErr result (self.new ≡ self.old) }
        ensures sound { IsHashed self.new }
    {
        let place = self.gates.insert(gate)?;
        Ok(Line {
            number: place as u32,
        })
    }

    /// The number of lines.
    pub fn len(&self) -> usize
        ensures count { result ≡ length self.now.gates }
        ensures sound { IsHashed self.now }
    {
        self.gates.len()
    }

    /// Whether there is no line.
    pub fn is_empty(&self) -> bool
        ensures empty { result ≡ (length self.now.gates == 0) }
    {
        self.gates.len() == 0
    }

    /// The gate of a line.
    pub fn gate(&self, line: Line) -> Gate
        requires line { IsLine self.now line }
        ensures gate { result ≡ gate_at self.now.gates line.number }
        ensures sound { IsHashed self.now }
    {
        self.gates.as_slice()[line.number as usize]
    }

    /// The number of inputs.
    pub fn inputs(&self) -> usize
        ensures inputs { result ≡ self.now.inputs }
    {
        self.inputs
    }

    /// The number of state bits.
    pub fn states(&self) -> usize
        ensures states { result ≡ self.now.states }
    {
        self.states
    }
}
