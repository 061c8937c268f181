//! A draft of a checker: gates in any order, the same one as often as it is convenient.
ghost use Rattle.std.specs.Prelude.{◌≡◌, [], length, IfOk};
ghost use Rattle.code_checkers.specs.Gates.{ReadsBelow, signal_of, signals_of};
ghost use Rattle.code_checkers.specs.Draft.{IsAdded};

use crate::gate::CheckGate;
use std::alloc::{AllocError, Global};
use std::marker::Model;

/// Gates, each of which reads earlier ones.
#[derive(Drop)]
pub struct Draft {
    gates: Vec<CheckGate>,
}

impl Model for Draft {
    ghost use Rattle.std.specs.Prelude.{List};
    ghost use Rattle.code_checkers.specs.declared.gate.CheckGate.{CheckGate};
    ghost use Rattle.code_checkers.specs.Gates.{AreOrdered};

    ghost Value = { List CheckGate };

    ghost view = { λ draft. draft.gates.items };

    ghost invariant = { λ draft. AreOrdered draft.gates.items };
}

impl Draft {
    /// The empty draft. It takes no memory.
    pub fn new(alloc: Global) -> Draft
        ensures empty { result ≡ [] }
    {
        Draft {
            gates: Vec::new(alloc),
        }
    }

    /// Adds a gate and answers its place.
    pub fn add(&mut self, gate: CheckGate) -> Result<usize, AllocError>
        requires reads { ReadsBelow (length self.old) gate }
        ensures added { IfOk result (λ place. IsAdded self.old self.new (signal_of (signals_of self.old) gate) place) }
    {
        let place = self.gates.len();
        self.gates.push(gate)?;
        Ok(place)
    }

    /// The gates, in order.
    pub fn gates(&self) -> &[CheckGate]
        ensures whole { result.now ≡ self.now }
    {
        self.gates.as_slice()
    }
}
