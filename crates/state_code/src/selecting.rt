//! The choice among lines by decoded states.
ghost use Rattle.std.specs.Prelude.{◌≡◌, ℕ, ◌+◌, ◌*◌, ◌^◌, ◌<◌, ◌≤◌, ◌&&◌, ◌||◌, Bool, false, length, count_by, IfOk, None};
ghost use Rattle.tsc_bits.specs.Bits.{weight_of};
ghost use Rattle.gate_net.specs.Gates.{IsLine, AreLines, line_value, line_values};
ghost use Rattle.gate_net.specs.Growth.{Grows, added_gates, Computes};
ghost use Rattle.gate_net.specs.Joined.{value_or, IsLineOrNone, ComputesOr};
ghost use Rattle.gate_net.specs.Negations.{is_negation, HasNo};
ghost use Rattle.state_code.specs.Lines.{GrowsWithout, foreign_to_select, isnt_zero, select_gates};
ghost use Rattle.tsc_bits.specs.Counting.{some_both};

use crate::growing::{add, both, either};
use gate_net::{Gate, Gates, Line, LineList};
use std::alloc::{AllocError, Global};

/// Whether the line's gate isn't the constant 0. The line of that constant is 0.
#[tactic(auto, using(crate::proofs::Selected::zero_value))]
fn isnt_zero(gates: &Gates, line: Line) -> bool
    requires line { IsLine gates.now line }
    ensures test { result ≡ isnt_zero gates.now line }
    ensures value { result ≡ false → (x s : ℕ → Bool) → line_value gates.now x s line ≡ false }
{
    !matches!(gates.gate(line), Gate::Zero)
}

/// The line that is 1 where another one is, if there is another one, or both a decoded line and a state's are; where the
/// state's line is the constant 0 nothing is added.
#[tactic(auto, using(crate::proofs::Without::without_none))]
fn with_place(
    gates: &mut Gates,
    made: Option<Line>,
    decoded: Line,
    value: Line,
) -> Result<Option<Line>, AllocError>
    requires made { IsLineOrNone gates.old made }
    requires decoded { IsLine gates.old decoded }
    requires value { IsLine gates.old value }
    requires room { length gates.old.gates + 2 * weight_of (isnt_zero gates.old value) < 2 ^ 32 }
    ensures computes { IfOk result (ComputesOr false gates.old gates.new (λ x s. value_or false gates.old x s made || (line_value gates.old x s decoded && line_value gates.old x s value))) }
    ensures none { IfOk result (λ next. next ≡ None → (made ≡ None) × (isnt_zero gates.old value ≡ false)) }
    ensures grown { GrowsWithout foreign_to_select gates.old gates.new }
    ensures few { length gates.new.gates ≤ length gates.old.gates + 2 * weight_of (isnt_zero gates.old value) }
{
    if !isnt_zero(gates, value) {
        return Ok(made);
    }
    let chosen = both(gates, Some(decoded), value)?;
    let line = either(gates, made, chosen)?;
    Ok(Some(line))
}

/// Adds the line that is 1 exactly where at some place the lines of both lists are 1. At most two gates come for each place
/// whose line of `per_state` isn't the constant 0, and none for the others; over no place the line is that constant. Only
/// `And`, `Or` and `Zero` come; all earlier gates stay, also where memory is missing.
///
/// # Errors
///
/// Want of memory.
#[tactic(auto, using(crate::proofs::Without::without_none))]
pub fn select(
    _alloc: Global,
    gates: &mut Gates,
    decoded: &LineList,
    per_state: &LineList,
) -> Result<Line, AllocError>
    requires decoded { AreLines gates.old decoded.now }
    requires per_state { AreLines gates.old per_state.now }
    requires sized { length decoded.now ≡ length per_state.now }
    requires room { length gates.old.gates + (2 * count_by (isnt_zero gates.old) per_state.now + 1) < 2 ^ 32 }
    ensures selected { IfOk result (Computes gates.old gates.new (λ x s. some_both (line_values gates.old x s decoded.now) (line_values gates.old x s per_state.now))) }
    ensures grown { Grows gates.old gates.new }
    ensures only { HasNo foreign_to_select (added_gates gates.old gates.new) }
    ensures positive { HasNo is_negation (added_gates gates.old gates.new) }
    ensures few { length gates.new.gates ≤ length gates.old.gates + select_gates gates.old per_state.now }
{
    let mut made = None;
    for place in 0..per_state.len() {
        made = with_place(gates, made, *decoded.get(place), *per_state.get(place))?;
    }
    match made {
        Some(line) => Ok(line),
        None => add(gates, Gate::Zero),
    }
}
