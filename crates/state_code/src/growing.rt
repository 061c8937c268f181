//! Gates that are added, of which it is known what they aren't.
ghost use Rattle.std.specs.Prelude.{◌≡◌, ◌+◌, ◌^◌, ◌<◌, ◌≤◌, Bool, false, ◌&&◌, ◌||◌, true, length, IfOk};
ghost use Rattle.std.specs.List.{list_any};
ghost use Rattle.gate_net.specs.declared.line.Line.{Line};
ghost use Rattle.gate_net.specs.declared.gate.Gate.{Gate};
ghost use Rattle.gate_net.specs.declared.gate.Gate.TheVariants as kind;
ghost use Rattle.gate_net.specs.Gates.{IsLine, ReadsWithin, gate_at, same_gate, gate_signal, line_value};
ghost use Rattle.gate_net.specs.Growth.{Computes, IsAdded};
ghost use Rattle.gate_net.specs.Joined.{value_or, IsLineOrNone};
ghost use Rattle.gate_net.specs.Negations.{is_state, negates_inputs};
ghost use Rattle.state_code.specs.Lines.{GrowsWithout, GrowsOverInputs};

use gate_net::{Gate, Gates, Line};
use std::alloc::AllocError;

/// Adds a gate.
#[tactic(auto, using(crate::proofs::Without::without_none, crate::proofs::Without::without_added))]
pub fn add(gates: &mut Gates, gate: Gate) -> Result<Line, AllocError>
    requires reads { ReadsWithin gates.old gate }
    requires room { length gates.old.gates + 1 < 2 ^ 32 }
    ensures added { IfOk result (IsAdded gates.old gates.new (gate_signal gates.old gate)) }
    ensures grown { (test : Gate → Bool) → test gate ≡ false → GrowsWithout test gates.old gates.new }
    ensures over_inputs { is_state gate ≡ false → negates_inputs gates.old.gates gate ≡ true → GrowsOverInputs gates.old gates.new }
    ensures stored { IfOk result (λ line. gate_at gates.new.gates line.number ≡ gate) }
    ensures there { list_any (same_gate gate) gates.old.gates ≡ true → gates.new ≡ gates.old }
    ensures few { length gates.new.gates ≤ length gates.old.gates + 1 }
{
    gates.add(gate)
}

/// The line that is 1 where a line is, and another one, if there is another one.
#[tactic(auto, using(crate::proofs::Without::without_none))]
pub fn both(gates: &mut Gates, other: Option<Line>, line: Line) -> Result<Line, AllocError>
    requires other { IsLineOrNone gates.old other }
    requires line { IsLine gates.old line }
    requires room { length gates.old.gates + 1 < 2 ^ 32 }
    ensures computes { IfOk result (Computes gates.old gates.new (λ x s. value_or true gates.old x s other && line_value gates.old x s line)) }
    ensures grown { (test : Gate → Bool) → ((a b : Line) → test (kind.And a b) ≡ false) → GrowsWithout test gates.old gates.new }
    ensures over_inputs { GrowsOverInputs gates.old gates.new }
    ensures few { length gates.new.gates ≤ length gates.old.gates + 1 }
{
    match other {
        None => Ok(line),
        Some(a) => add(gates, Gate::And { a, b: line }),
    }
}

/// The line that is 1 where a line is, or another one, if there is another one.
#[tactic(auto, using(crate::proofs::Without::without_none))]
pub fn either(gates: &mut Gates, other: Option<Line>, line: Line) -> Result<Line, AllocError>
    requires other { IsLineOrNone gates.old other }
    requires line { IsLine gates.old line }
    requires room { length gates.old.gates + 1 < 2 ^ 32 }
    ensures computes { IfOk result (Computes gates.old gates.new (λ x s. value_or false gates.old x s other || line_value gates.old x s line)) }
    ensures grown { (test : Gate → Bool) → ((a b : Line) → test (kind.Or a b) ≡ false) → GrowsWithout test gates.old gates.new }
    ensures over_inputs { GrowsOverInputs gates.old gates.new }
    ensures few { length gates.new.gates ≤ length gates.old.gates + 1 }
{
    match other {
        None => Ok(line),
        Some(a) => add(gates, Gate::Or { a, b: line }),
    }
}
