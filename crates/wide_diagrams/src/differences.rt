//! The rows of where functions differ.
ghost use Rattle.std.specs.Prelude.{◌≡◌, ℕ, ◌<◌, ◌≤◌, List, length, slice_index, map, All, IfOk, OnOk, IsErrOf};
ghost use Rattle.std.specs.List.{range_with_len};
ghost use Rattle.diagrams.specs.Cofactors.{Function};
ghost use Rattle.diagrams.specs.Building.{StandsFor};
ghost use Rattle.cover_diagrams.specs.Covering.{Grows, StandForPins};
ghost use Rattle.wide_diagrams.specs.Wide.{difference_at};
ghost use Rattle.circuit_diagrams.specs.Steps.{AreAdded, AreShortOf};

use crate::operations::operation_row;
use diagrams::{BuildError, Diagrams, Operation};
use std::alloc::Global;

/// Puts the row of where two functions at each place differ at that place, for as many places as there are.
fn difference_rows(
    diagrams: &mut Diagrams,
    firsts: &[u32],
    seconds: &[u32],
    rows: &mut [u32],
) -> Result<(), BuildError>
    requires firsts { length rows.old ≤ length firsts.now }
    requires seconds { length rows.old ≤ length seconds.now }
    requires inside { All (λ row. row < length diagrams.old.rows) firsts.now }
    requires beside { All (λ row. row < length diagrams.old.rows) seconds.now }
    requires rows { All (λ row. row < length diagrams.old.rows) rows.old }
    ensures sized { length rows.new ≡ length rows.old }
    ensures rows { All (λ row. row < length diagrams.new.rows) rows.new }
    ensures grown { Grows diagrams.old diagrams.new }
    ensures added { (fs gs : List Function) → StandForPins diagrams.old fs firsts.now → StandForPins diagrams.old gs seconds.now → AreAdded diagrams.old diagrams.new (map (difference_at fs gs) (range_with_len 0 (length rows.old))) }
    ensures stand { (fs gs : List Function) → StandForPins diagrams.old fs firsts.now → StandForPins diagrams.old gs seconds.now → OnOk result ((k : ℕ) → k < length rows.old → StandsFor diagrams.new (difference_at fs gs k) (slice_index rows.new k)) }
    ensures short { IsErrOf result BuildError.Spent → (fs gs : List Function) → StandForPins diagrams.old fs firsts.now → StandForPins diagrams.old gs seconds.now → AreShortOf diagrams.old diagrams.new (map (difference_at fs gs) (range_with_len 0 (length rows.old))) }
{
    let _rows = diagrams.len();
    for k in 0..rows.len() {
        match operation_row(diagrams, Operation::Xor, firsts[k], seconds[k]) {
            Ok(row) => rows[k] = row,
            Err(e) => return Err(e),
        }
    }
    Ok(())
}

/// The row of where two functions differ, for the first so many places.
pub(crate) fn output_rows(
    alloc: Global,
    diagrams: &mut Diagrams,
    outputs: usize,
    firsts: &[u32],
    seconds: &[u32],
) -> Result<Vec<u32>, BuildError>
    requires firsts { outputs ≤ length firsts.now }
    requires seconds { outputs ≤ length seconds.now }
    requires inside { All (λ row. row < length diagrams.old.rows) firsts.now }
    requires beside { All (λ row. row < length diagrams.old.rows) seconds.now }
    ensures sized { IfOk result (λ rows. length rows.items ≡ outputs) }
    ensures rows { IfOk result (λ rows. All (λ row. row < length diagrams.new.rows) rows.items) }
    ensures grown { Grows diagrams.old diagrams.new }
    ensures added { (fs gs : List Function) → StandForPins diagrams.old fs firsts.now → StandForPins diagrams.old gs seconds.now → AreAdded diagrams.old diagrams.new (map (difference_at fs gs) (range_with_len 0 outputs)) }
    ensures stand { (fs gs : List Function) → StandForPins diagrams.old fs firsts.now → StandForPins diagrams.old gs seconds.now → IfOk result (λ rows. (k : ℕ) → k < outputs → StandsFor diagrams.new (difference_at fs gs k) (slice_index rows.items k)) }
    ensures short { IsErrOf result BuildError.Spent → (fs gs : List Function) → StandForPins diagrams.old fs firsts.now → StandForPins diagrams.old gs seconds.now → AreShortOf diagrams.old diagrams.new (map (difference_at fs gs) (range_with_len 0 outputs)) }
{
    let _rows = diagrams.len();
    match vec![in alloc; 0; outputs] {
        Ok(mut rows) => match difference_rows(diagrams, firsts, seconds, &mut rows) {
            Ok(()) => Ok(rows),
            Err(e) => Err(e),
        },
        Err(e) => Err(BuildError::Memory(e)),
    }
}
