//! The gates of a checker.
ghost use Rattle.std.specs.Prelude.{◌≡◌, ◌<◌, ◌==◌, length, slice_index_or};

use crate::gate::CheckGate;
use std::marker::Model;

/// The gates of a checker, each of which reads earlier places of the list, and the places of its two rails.
#[derive(Debug, Drop)]
pub struct CheckGates {
    gates: Vec<CheckGate>,
    rail1: usize,
    rail2: usize,
}

impl Model for CheckGates {
    ghost use Rattle.code_checkers.specs.GateList.{GateList};

    ghost Value = { GateList };

    ghost view = { λ made. record { gates = made.gates.items; rail1 = made.rail1; rail2 = made.rail2 } };
}

impl CheckGates {
    /// The gates and the places of the rails.
    pub(crate) fn new(gates: Vec<CheckGate>, rail1: usize, rail2: usize) -> CheckGates
        ensures parts { result ≡ record { gates = gates.items; rail1 = rail1; rail2 = rail2 } }
    {
        CheckGates {
            gates,
            rail1,
            rail2,
        }
    }

    /// The number of gates.
    pub fn len(&self) -> usize
        ensures count { result ≡ length self.now.gates }
    {
        self.gates.len()
    }

    /// Whether there is no gate. A checker has some.
    pub fn is_empty(&self) -> bool
        ensures empty { result ≡ (length self.now.gates == 0) }
    {
        self.gates.is_empty()
    }

    /// The gate at `place`, counted from 0.
    pub fn get(&self, place: usize) -> CheckGate
        requires { place < length self.now.gates }
        ensures gate { result ≡ slice_index_or self.now.gates place result }
    {
        self.gates[place]
    }

    /// The place of the first rail.
    pub fn rail1(&self) -> usize
        ensures rail { result ≡ self.now.rail1 }
    {
        self.rail1
    }

    /// The place of the second rail.
    pub fn rail2(&self) -> usize
        ensures rail { result ≡ self.now.rail2 }
    {
        self.rail2
    }
}
