//! Gates in the order in which they came, each of them once.
ghost use Rattle.std.specs.Prelude.{◌≡◌, ◌+◌, ◌^◌, ◌<◌, [], length, Some, IfOk, OnOk, OnErr, slice_get};
ghost use Rattle.gate_net.specs.Gates.{gates_with};

use crate::gate::Gate;
use std::alloc::{AllocError, Global};
use std::collections::HashMap;
use std::marker::Model;

/// Gates, no two of them equal.
#[derive(Drop)]
pub struct GateSet {
    gates: Vec<Gate>,
    places: HashMap<Gate, u32>,
}

impl Model for GateSet {
    ghost use Rattle.std.specs.Prelude.{List};
    ghost use Rattle.gate_net.specs.declared.gate.Gate.{Gate};
    ghost use Rattle.gate_net.specs.Places.{ArePlaces};

    ghost Value = { List Gate };

    ghost view = { λ set. set.gates.items };

    ghost invariant = { λ set. ArePlaces set.gates.items set.places };
}

impl GateSet {
    /// No gates. It takes no memory.
    pub fn new(alloc: Global) -> GateSet
        ensures empty { result ≡ [] }
    {
        GateSet {
            gates: Vec::new(alloc),
            places: HashMap::new(alloc),
        }
    }

    /// Puts a gate at the end, where no equal one is there, and answers its place.
    pub fn insert(&mut self, gate: Gate) -> Result<usize, AllocError>
        requires room { length self.old + 1 < 2 ^ 32 }
        ensures once { OnOk result (self.new ≡ gates_with self.old gate) }
        ensures stored { IfOk result (λ place. slice_get self.new place ≡ Some gate) }
        ensures refused { OnErr result (self.new ≡ self.old) }
    {
        if let Some(place) = self.places.get(&gate) {
            return Ok(*place as usize);
        }
        let place = self.gates.len();
        self.gates.push(gate)?;
        if let Err(error) = self.places.insert(gate, place as u32) {
            self.gates.pop();
            return Err(error.into());
        }
        Ok(place)
    }

    /// The number of gates.
    pub fn len(&self) -> usize
        ensures count { result ≡ length self.now }
    {
        self.gates.len()
    }

    /// The gates, in order.
    pub fn as_slice(&self) -> &[Gate]
        ensures whole { result.now ≡ self.now }
    {
        &self.gates
    }
}
