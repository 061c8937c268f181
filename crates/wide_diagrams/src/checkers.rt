//! The row of where the rails of a plan's checker differ.
ghost use Rattle.std.specs.Prelude.{◌≡◌, ℕ, ◌+◌, ◌<◌, List, length, slice_index, All, IfOk, OnOk, IsErrOf};
ghost use Rattle.fault_secure.specs.CodePlan.{CodePlan};
ghost use Rattle.code_checkers.specs.Checker.{rail1, rail2};
ghost use Rattle.code_checkers.specs.Gates.{AreOrdered};
ghost use Rattle.code_checkers.specs.GateList.{IsCheckerOf};
ghost use Rattle.diagrams.specs.Cofactors.{Function, IsCofactorOfOne};
ghost use Rattle.diagrams.specs.Building.{AreMade, StandsFor, AreShort};
ghost use Rattle.cover_diagrams.specs.Covering.{Grows, StandForPins};
ghost use Rattle.wide_diagrams.specs.Stated.{signal_function, difference, checker_functions};
ghost use Rattle.circuit_diagrams.specs.Steps.{AreBuilt, AreAdded, AreShortOf};
ghost use Rattle.wide_diagrams.specs.GateRows.{ReadPlacesBelow};

use crate::gates::filled_gate_rows;
use crate::operations::operation_row;
use code_checkers::{CheckGates, checker};
use diagrams::{BuildError, Diagrams, Operation};
use std::alloc::Global;
use tsc_net::Plan;

/// The row of where the rails of a plan's checker differ, over the rows of the places of its word: all gates are built.
///
/// # Errors
///
/// All rows are used, and none of them stands for some cofactor of a gate's function or of where the rails differ; want of memory.
pub fn checker_row(
    alloc: Global,
    diagrams: &mut Diagrams,
    plan: &Plan,
    word: &[u32],
) -> Result<u32, BuildError>
    requires sized { length word.now ≡ plan.now.outputs + length plan.now.checks + plan.now.latches }
    requires word { All (λ row. row < length diagrams.old.rows) word.now }
    ensures grown { Grows diagrams.old diagrams.new }
    ensures inside { IfOk result (λ row. row < length diagrams.new.rows) }
    ensures added { (ws : List Function) → StandForPins diagrams.old ws word.now → AreAdded diagrams.old diagrams.new (checker_functions plan.now ws) }
    ensures built { (ws : List Function) → StandForPins diagrams.old ws word.now → OnOk result (AreBuilt diagrams.new (checker_functions plan.now ws)) }
    ensures stands { (ws : List Function) → StandForPins diagrams.old ws word.now → IfOk result (StandsFor diagrams.new (difference (signal_function ws (rail1 plan.now)) (signal_function ws (rail2 plan.now)))) }
    ensures short { IsErrOf result BuildError.Spent → (ws : List Function) → StandForPins diagrams.old ws word.now → AreShortOf diagrams.old diagrams.new (checker_functions plan.now ws) }
{
    let _rows = diagrams.len();
    match checker(alloc, plan) {
        Ok(gates) => rails_row(alloc, diagrams, &gates, word),
        Err(e) => Err(BuildError::Memory(e)),
    }
}

/// The row of where the rails of a checker's gates differ.
fn rails_row(
    alloc: Global,
    diagrams: &mut Diagrams,
    gates: &CheckGates,
    word: &[u32],
) -> Result<u32, BuildError>
    requires ordered { AreOrdered gates.now.gates }
    requires first { gates.now.rail1 < length gates.now.gates }
    requires second { gates.now.rail2 < length gates.now.gates }
    requires places { ReadPlacesBelow (length word.now) gates.now.gates }
    requires word { All (λ row. row < length diagrams.old.rows) word.now }
    ensures grown { Grows diagrams.old diagrams.new }
    ensures inside { IfOk result (λ row. row < length diagrams.new.rows) }
    ensures added { (P : CodePlan) (ws : List Function) → IsCheckerOf P gates.now → StandForPins diagrams.old ws word.now → AreAdded diagrams.old diagrams.new (checker_functions P ws) }
    ensures built { (P : CodePlan) (ws : List Function) → IsCheckerOf P gates.now → StandForPins diagrams.old ws word.now → OnOk result (AreBuilt diagrams.new (checker_functions P ws)) }
    ensures stands { (P : CodePlan) (ws : List Function) → IsCheckerOf P gates.now → StandForPins diagrams.old ws word.now → IfOk result (StandsFor diagrams.new (difference (signal_function ws (rail1 P)) (signal_function ws (rail2 P)))) }
    ensures short { IsErrOf result BuildError.Spent → (P : CodePlan) (ws : List Function) → IsCheckerOf P gates.now → StandForPins diagrams.old ws word.now → AreShortOf diagrams.old diagrams.new (checker_functions P ws) }
{
    let first = gates.rail1();
    let second = gates.rail2();
    match filled_gate_rows(alloc, diagrams, gates, word) {
        Ok(rows) => match row_of_two(diagrams, &rows, first, second) {
            Ok(row) => Ok(row),
            Err(e) => Err(e),
        },
        Err(e) => Err(e),
    }
}

/// The row of where the functions of two places of some rows differ.
fn row_of_two(
    diagrams: &mut Diagrams,
    rows: &[u32],
    first: usize,
    second: usize,
) -> Result<u32, BuildError>
    requires inside { All (λ row. row < length diagrams.old.rows) rows.now }
    requires first { first < length rows.now }
    requires second { second < length rows.now }
    ensures grown { Grows diagrams.old diagrams.new }
    ensures inside { IfOk result (λ row. row < length diagrams.new.rows) }
    ensures made { (f g : Function) (kept : List Function) → StandsFor diagrams.old f (slice_index rows.now first) → StandsFor diagrams.old g (slice_index rows.now second) → IsCofactorOfOne diagrams.old.inputs kept (difference f g) → AreMade diagrams.old diagrams.new kept }
    ensures stands { (f g : Function) → StandsFor diagrams.old f (slice_index rows.now first) → StandsFor diagrams.old g (slice_index rows.now second) → IfOk result (StandsFor diagrams.new (difference f g)) }
    ensures short { IsErrOf result BuildError.Spent → (f g : Function) (kept : List Function) → StandsFor diagrams.old f (slice_index rows.now first) → StandsFor diagrams.old g (slice_index rows.now second) → IsCofactorOfOne diagrams.old.inputs kept (difference f g) → AreShort diagrams.new kept }
{
    operation_row(diagrams, Operation::Xor, rows[first], rows[second])
}
