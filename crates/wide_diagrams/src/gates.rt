//! The rows of a checker's gates.
ghost use Rattle.std.specs.Prelude.{◌≡◌, ℕ, ◌<◌, ◌≤◌, List, length, All, IfOk, OnOk, IsErrOf};
ghost use Rattle.code_checkers.specs.Signal.{Signal};
ghost use Rattle.code_checkers.specs.Gates.{signal_of, signals_of, meaning, ReadsBelow, AreOrdered};
ghost use Rattle.diagrams.specs.Cofactors.{Function, IsCofactorOfOne};
ghost use Rattle.diagrams.specs.Building.{AreMade, StandsFor, AreShort};
ghost use Rattle.cover_diagrams.specs.Covering.{Grows, StandForPins};
ghost use Rattle.wide_diagrams.specs.Stated.{signal_function};
ghost use Rattle.wide_diagrams.specs.GateRows.{SignalsStand, IsPlaceBelow, ReadPlacesBelow};

use crate::operations::operation_row;
use code_checkers::{CheckGate, CheckGates};
use cover_diagrams::literal_row;
use diagrams::{BuildError, Diagrams, Operation};
use std::alloc::Global;

/// The row of a gate over the rows of the word and those of so many gates before it.
fn gate_row(
    diagrams: &mut Diagrams,
    gate: CheckGate,
    before: usize,
    word: &[u32],
    rows: &[u32],
) -> Result<u32, BuildError>
    requires below { ReadsBelow before gate }
    requires there { before ≤ length rows.now }
    requires place { IsPlaceBelow (length word.now) gate }
    requires word { All (λ row. row < length diagrams.old.rows) word.now }
    requires rows { All (λ row. row < length diagrams.old.rows) rows.now }
    ensures grown { Grows diagrams.old diagrams.new }
    ensures inside { IfOk result (λ row. row < length diagrams.new.rows) }
    ensures made { (ws kept : List Function) (signals : List Signal) → StandForPins diagrams.old ws word.now → SignalsStand diagrams.old ws signals before rows.now → IsCofactorOfOne diagrams.old.inputs kept (signal_function ws (signal_of signals gate)) → AreMade diagrams.old diagrams.new kept }
    ensures stands { (ws : List Function) (signals : List Signal) → StandForPins diagrams.old ws word.now → SignalsStand diagrams.old ws signals before rows.now → IfOk result (StandsFor diagrams.new (signal_function ws (signal_of signals gate))) }
    ensures short { IsErrOf result BuildError.Spent → (ws kept : List Function) (signals : List Signal) → StandForPins diagrams.old ws word.now → SignalsStand diagrams.old ws signals before rows.now → IsCofactorOfOne diagrams.old.inputs kept (signal_function ws (signal_of signals gate)) → AreShort diagrams.new kept }
{
    let _rows = diagrams.len();
    match gate {
        CheckGate::Word { place } => Ok(word[place]),
        CheckGate::Buf { a } => Ok(rows[a]),
        CheckGate::Not { a } => literal_row(diagrams, rows[a], false),
        CheckGate::And { a, b } => operation_row(diagrams, Operation::And, rows[a], rows[b]),
        CheckGate::Or { a, b } => operation_row(diagrams, Operation::Or, rows[a], rows[b]),
        CheckGate::Xor { a, b } => operation_row(diagrams, Operation::Xor, rows[a], rows[b]),
    }
}

/// Puts the row of each gate at its place.
fn gate_rows(
    diagrams: &mut Diagrams,
    gates: &CheckGates,
    word: &[u32],
    rows: &mut [u32],
) -> Result<(), BuildError>
    requires ordered { AreOrdered gates.now.gates }
    requires places { ReadPlacesBelow (length word.now) gates.now.gates }
    requires sized { length rows.old ≡ length gates.now.gates }
    requires word { All (λ row. row < length diagrams.old.rows) word.now }
    requires rows { All (λ row. row < length diagrams.old.rows) rows.old }
    ensures sized { length rows.new ≡ length rows.old }
    ensures inside { All (λ row. row < length diagrams.new.rows) rows.new }
    ensures grown { Grows diagrams.old diagrams.new }
    ensures made { (ws kept : List Function) → StandForPins diagrams.old ws word.now → ((k : ℕ) → k < length gates.now.gates → IsCofactorOfOne diagrams.old.inputs kept (signal_function ws (meaning gates.now.gates k))) → AreMade diagrams.old diagrams.new kept }
    ensures stand { (ws : List Function) → StandForPins diagrams.old ws word.now → OnOk result (SignalsStand diagrams.new ws (signals_of gates.now.gates) (length gates.now.gates) rows.new) }
    ensures short { IsErrOf result BuildError.Spent → (ws kept : List Function) → StandForPins diagrams.old ws word.now → ((k : ℕ) → k < length gates.now.gates → IsCofactorOfOne diagrams.old.inputs kept (signal_function ws (meaning gates.now.gates k))) → AreShort diagrams.new kept }
{
    let _rows = diagrams.len();
    for k in 0..gates.len() {
        match gate_row(diagrams, gates.get(k), k, word, rows) {
            Ok(row) => rows[k] = row,
            Err(e) => return Err(e),
        }
    }
    Ok(())
}

/// The row of each gate.
pub(crate) fn filled_gate_rows(
    alloc: Global,
    diagrams: &mut Diagrams,
    gates: &CheckGates,
    word: &[u32],
) -> Result<Vec<u32>, BuildError>
    requires ordered { AreOrdered gates.now.gates }
    requires places { ReadPlacesBelow (length word.now) gates.now.gates }
    requires word { All (λ row. row < length diagrams.old.rows) word.now }
    ensures sized { IfOk result (λ rows. length rows.items ≡ length gates.now.gates) }
    ensures inside { IfOk result (λ rows. All (λ row. row < length diagrams.new.rows) rows.items) }
    ensures grown { Grows diagrams.old diagrams.new }
    ensures made { (ws kept : List Function) → StandForPins diagrams.old ws word.now → ((k : ℕ) → k < length gates.now.gates → IsCofactorOfOne diagrams.old.inputs kept (signal_function ws (meaning gates.now.gates k))) → AreMade diagrams.old diagrams.new kept }
    ensures stand { (ws : List Function) → StandForPins diagrams.old ws word.now → IfOk result (λ rows. SignalsStand diagrams.new ws (signals_of gates.now.gates) (length gates.now.gates) rows.items) }
    ensures short { IsErrOf result BuildError.Spent → (ws kept : List Function) → StandForPins diagrams.old ws word.now → ((k : ℕ) → k < length gates.now.gates → IsCofactorOfOne diagrams.old.inputs kept (signal_function ws (meaning gates.now.gates k))) → AreShort diagrams.new kept }
{
    let _rows = diagrams.len();
    match vec![in alloc; 0; gates.len()] {
        Ok(mut rows) => match gate_rows(diagrams, gates, word, &mut rows) {
            Ok(()) => Ok(rows),
            Err(e) => Err(e),
        },
        Err(e) => Err(BuildError::Memory(e)),
    }
}
