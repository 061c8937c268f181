//! Which rows of a state match the input bits.
ghost use Rattle.std.specs.Prelude.{◌≡◌, ◌↔◌, ℕ, ◌+◌, ◌*◌, ◌^◌, ◌<◌, ◌≤◌, ◌&&◌, ◌||◌, not, Bool, true, false, cond, List, [], ◌∷◌, ◌++◌, map, length, count_by, IfOk, OnOk};
ghost use Rattle.tsc_bits.specs.Bits.{bit_worth, same, weight_of};
ghost use Rattle.tsc_cover.specs.Cover.{accepts};
ghost use Rattle.tsc_cover.specs.Row.{literal, literals_of};
ghost use Rattle.fault_secure.specs.Circuit.{bit};
ghost use Rattle.fault_secure.specs.Logic.{starts_at, applies, answering};
ghost use Rattle.gate_net.specs.Gates.{AreLines, line_value, line_values};
ghost use Rattle.gate_net.specs.Growth.{Grows, added_gates, Computes, ComputesAll};
ghost use Rattle.gate_net.specs.Joined.{value_or, IsLineOrNone, ComputesOr};
ghost use Rattle.gate_net.specs.Negations.{is_state, HasNo, NegatesOnlyInputs};
ghost use Rattle.state_code.specs.Lines.{GrowsOverInputs, passes, rows_at, matches, matching, may_answer, none_of};

use crate::growing::{add, both, either};
use gate_net::{Gate, Gates, Line, LineList};
use std::alloc::{AllocError, Global};
use tsc_cover::{Row01, bit_at};
use tsc_net::{Machine, MachineRow};

/// The lines of the rows of one state.
#[derive(Debug, Drop)]
pub struct RowLines {
    /// The line of each row that may answer there, in text order.
    pub rows: LineList,
    /// The line that is 1 where none of them matches.
    pub other: Line,
}

/// Adds the line that is 1 where an input has the wanted bit.
fn input_line(gates: &mut Gates, input: usize, wanted: bool) -> Result<Line, AllocError>
    requires input { input < gates.old.inputs }
    requires room { length gates.old.gates + 2 < 2 ^ 32 }
    ensures computes { IfOk result (Computes gates.old gates.new (λ x s. same wanted (x input))) }
    ensures grown { GrowsOverInputs gates.old gates.new }
    ensures few { length gates.new.gates ≤ length gates.old.gates + 2 }
{
    let line = add(gates, Gate::Input { i: input })?;
    if wanted {
        Ok(line)
    } else {
        add(gates, Gate::Not { a: line })
    }
}

/// The line that is 1 where another one is, if there is another one, and what a row asks of an input is met; none where
/// nothing is asked yet. The input is that whose bits in the row are worth `2^place`.
#[tactic(auto, using(crate::proofs::OverInputs::over_none))]
fn with_literal(
    gates: &mut Gates,
    made: Option<Line>,
    row: Row01,
    place: usize,
    input: usize,
) -> Result<Option<Line>, AllocError>
    requires made { IsLineOrNone gates.old made }
    requires input { input < gates.old.inputs }
    requires below { place < 64 }
    requires room { length gates.old.gates + 3 < 2 ^ 32 }
    ensures computes { IfOk result (ComputesOr true gates.old gates.new (λ x s. value_or true gates.old x s made && accepts (literal (bit_worth place row.care) (bit_worth place row.value)) (x input))) }
    ensures grown { GrowsOverInputs gates.old gates.new }
    ensures few { length gates.new.gates ≤ length gates.old.gates + 3 }
{
    if !bit_at(row.care, place) {
        return Ok(made);
    }
    let wanted = input_line(gates, input, bit_at(row.value, place))?;
    let line = both(gates, made, wanted)?;
    Ok(Some(line))
}

/// Adds the line that is 1 where a row matches the input bits.
#[tactic(auto, using(crate::proofs::OverInputs::over_none, crate::proofs::Matched::literals_done))]
fn row_line(gates: &mut Gates, row: Row01, inputs: usize) -> Result<Line, AllocError>
    requires inputs { gates.old.inputs ≡ inputs }
    requires wide { inputs ≤ 64 }
    requires room { length gates.old.gates + (3 * inputs + 1) < 2 ^ 32 }
    ensures computes { IfOk result (Computes gates.old gates.new (λ x s. passes 0 (literals_of inputs row) x)) }
    ensures grown { GrowsOverInputs gates.old gates.new }
    ensures few { length gates.new.gates ≤ length gates.old.gates + (3 * inputs + 1) }
{
    let mut made = None;
    for input in 0..inputs {
        made = with_literal(gates, made, row, inputs - 1 - input, input)?;
    }
    match made {
        Some(line) => Ok(line),
        None => add(gates, Gate::One),
    }
}

/// Adds the line of a row at the end, if the row may answer at a state.
#[tactic(auto, using(crate::proofs::OverInputs::over_none))]
fn add_row(
    gates: &mut Gates,
    lines: &mut LineList,
    row: &MachineRow,
    inputs: usize,
    state: u32,
) -> Result<(), AllocError>
    requires lines { AreLines gates.old lines.old }
    requires inputs { gates.old.inputs ≡ inputs }
    requires wide { inputs ≤ 64 }
    requires room { length gates.old.gates + weight_of (starts_at row.now.from state) * (3 * inputs + 1) < 2 ^ 32 }
    ensures lines { OnOk result (ComputesAll gates.old gates.new (λ x s. line_values gates.old x s lines.old ++ cond (starts_at row.now.from state) (passes 0 (literals_of inputs row.now.input) x ∷ []) []) lines.new) }
    ensures count { OnOk result (length lines.new ≡ length lines.old + weight_of (starts_at row.now.from state)) }
    ensures grown { GrowsOverInputs gates.old gates.new }
    ensures few { length gates.new.gates ≤ length gates.old.gates + weight_of (starts_at row.now.from state) * (3 * inputs + 1) }
{
    if !row.starts_at(state) {
        return Ok(());
    }
    let line = row_line(gates, row.input, inputs)?;
    lines.push(line)?;
    Ok(())
}

/// Adds the line of each row that may answer at a state.
#[tactic(auto, using(crate::proofs::OverInputs::over_none))]
fn matching_lines(
    alloc: Global,
    gates: &mut Gates,
    rows: &[MachineRow],
    inputs: usize,
    state: u32,
) -> Result<LineList, AllocError>
    requires inputs { gates.old.inputs ≡ inputs }
    requires wide { inputs ≤ 64 }
    requires room { length gates.old.gates + count_by (may_answer state) rows.now * (3 * inputs + 1) < 2 ^ 32 }
    ensures lines { IfOk result (λ lines. ComputesAll gates.old gates.new (λ x s. matching inputs state rows.now x) lines) }
    ensures count { IfOk result (λ lines. length lines ≡ count_by (may_answer state) rows.now) }
    ensures grown { GrowsOverInputs gates.old gates.new }
    ensures few { length gates.new.gates ≤ length gates.old.gates + count_by (may_answer state) rows.now * (3 * inputs + 1) }
{
    let mut lines = LineList::new(alloc);
    for row in rows {
        add_row(gates, &mut lines, row, inputs, state)?;
    }
    Ok(lines)
}

/// The line that is 1 where another one is, if there is another one, or what a row asks of an input isn't met; none where
/// nothing is asked yet. The input is that whose bits in the row are worth `2^place`.
#[tactic(auto, using(crate::proofs::OverInputs::over_none))]
fn with_failing(
    gates: &mut Gates,
    made: Option<Line>,
    row: Row01,
    place: usize,
    input: usize,
) -> Result<Option<Line>, AllocError>
    requires made { IsLineOrNone gates.old made }
    requires input { input < gates.old.inputs }
    requires below { place < 64 }
    requires room { length gates.old.gates + 3 < 2 ^ 32 }
    ensures computes { IfOk result (ComputesOr false gates.old gates.new (λ x s. value_or false gates.old x s made || not (accepts (literal (bit_worth place row.care) (bit_worth place row.value)) (x input)))) }
    ensures grown { GrowsOverInputs gates.old gates.new }
    ensures few { length gates.new.gates ≤ length gates.old.gates + 3 }
{
    if !bit_at(row.care, place) {
        return Ok(made);
    }
    let missed = input_line(gates, input, !bit_at(row.value, place))?;
    let line = either(gates, made, missed)?;
    Ok(Some(line))
}

/// Adds the line that is 1 where a row doesn't match the input bits. It negates only inputs.
#[tactic(auto, using(crate::proofs::OverInputs::over_none))]
fn failing_line(gates: &mut Gates, row: Row01, inputs: usize) -> Result<Line, AllocError>
    requires inputs { gates.old.inputs ≡ inputs }
    requires wide { inputs ≤ 64 }
    requires room { length gates.old.gates + (3 * inputs + 1) < 2 ^ 32 }
    ensures computes { IfOk result (Computes gates.old gates.new (λ x s. not (passes 0 (literals_of inputs row) x))) }
    ensures grown { GrowsOverInputs gates.old gates.new }
    ensures few { length gates.new.gates ≤ length gates.old.gates + (3 * inputs + 1) }
{
    let mut made = None;
    for input in 0..inputs {
        made = with_failing(gates, made, row, inputs - 1 - input, input)?;
    }
    match made {
        Some(line) => Ok(line),
        None => add(gates, Gate::Zero),
    }
}

/// The line that is 1 where another one is, if there is another one, and a row that may answer at a state doesn't match the
/// input bits; the other one, if the row can't answer there.
#[tactic(auto, using(crate::proofs::OverInputs::over_none))]
fn with_row(
    gates: &mut Gates,
    made: Option<Line>,
    row: &MachineRow,
    inputs: usize,
    state: u32,
) -> Result<Option<Line>, AllocError>
    requires made { IsLineOrNone gates.old made }
    requires inputs { gates.old.inputs ≡ inputs }
    requires wide { inputs ≤ 64 }
    requires room { length gates.old.gates + weight_of (starts_at row.now.from state) * (3 * inputs + 2) < 2 ^ 32 }
    ensures computes { IfOk result (ComputesOr true gates.old gates.new (λ x s. value_or true gates.old x s made && not (starts_at row.now.from state && passes 0 (literals_of inputs row.now.input) x))) }
    ensures grown { GrowsOverInputs gates.old gates.new }
    ensures few { length gates.new.gates ≤ length gates.old.gates + weight_of (starts_at row.now.from state) * (3 * inputs + 2) }
{
    if !row.starts_at(state) {
        return Ok(made);
    }
    let missed = failing_line(gates, row.input, inputs)?;
    let line = both(gates, made, missed)?;
    Ok(Some(line))
}

/// Adds the line that is 1 where none of the rows that may answer at a state matches the input bits. It negates only inputs.
#[tactic(auto, using(crate::proofs::OverInputs::over_none))]
fn other_line(
    gates: &mut Gates,
    rows: &[MachineRow],
    inputs: usize,
    state: u32,
) -> Result<Line, AllocError>
    requires inputs { gates.old.inputs ≡ inputs }
    requires wide { inputs ≤ 64 }
    requires room { length gates.old.gates + (count_by (may_answer state) rows.now * (3 * inputs + 2) + 1) < 2 ^ 32 }
    ensures computes { IfOk result (Computes gates.old gates.new (λ x s. none_of (matching inputs state rows.now x))) }
    ensures grown { GrowsOverInputs gates.old gates.new }
    ensures few { length gates.new.gates ≤ length gates.old.gates + (count_by (may_answer state) rows.now * (3 * inputs + 2) + 1) }
{
    let mut made = None;
    for row in rows {
        made = with_row(gates, made, row, inputs, state)?;
    }
    match made {
        Some(line) => Ok(line),
        None => add(gates, Gate::One),
    }
}

/// Adds a line for each row that may answer at a state, in text order, which is 1 exactly where the row matches the input bits,
/// and one that is 1 exactly where none does. They read no state bit and negate only inputs. At most `6 * I + 3` gates come
/// for each of these rows, where there are I inputs, and one more, none of them a `State`; all earlier gates stay, also where
/// memory is missing.
///
/// # Errors
///
/// Want of memory.
pub fn row_lines(
    alloc: Global,
    machine: &Machine,
    state: u32,
    gates: &mut Gates,
) -> Result<RowLines, AllocError>
    requires state { state < machine.now.table.states }
    requires inputs { gates.old.inputs ≡ machine.now.table.inputs }
    requires room { length gates.old.gates + (length (rows_at machine.now.table state) * (6 * machine.now.table.inputs + 3) + 1) < 2 ^ 32 }
    ensures rows { IfOk result (λ lines. ComputesAll gates.old gates.new (λ x s. matches machine.now.table state x) lines.rows) }
    ensures other { IfOk result (λ lines. Computes gates.old gates.new (λ x s. none_of (matches machine.now.table state x)) lines.other) }
    ensures count { IfOk result (λ lines. length lines.rows ≡ length (rows_at machine.now.table state)) }
    ensures applies { IfOk result (λ lines. (xs : List Bool) (s : ℕ → Bool) → line_values gates.new (bit xs) s lines.rows ≡ map (applies state xs) (rows_at machine.now.table state)) }
    ensures nothing { IfOk result (λ lines. (xs : List Bool) (s : ℕ → Bool) → (line_value gates.new (bit xs) s lines.other ≡ true) ↔ (answering machine.now.table state xs ≡ [])) }
    ensures grown { Grows gates.old gates.new }
    ensures stateless { HasNo is_state (added_gates gates.old gates.new) }
    ensures signs { NegatesOnlyInputs gates.old → NegatesOnlyInputs gates.new }
    ensures few { length gates.new.gates ≤ length gates.old.gates + (length (rows_at machine.now.table state) * (6 * machine.now.table.inputs + 3) + 1) }
{
    let rows = machine.rows();
    let inputs = machine.inputs();
    let lines = matching_lines(alloc, gates, rows, inputs, state)?;
    let other = other_line(gates, rows, inputs, state)?;
    Ok(RowLines { rows: lines, other })
}
