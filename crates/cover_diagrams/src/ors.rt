//! The running ORs of rows of a cover.
ghost use Rattle.std.specs.Prelude.{◌≡◌, ◌<◌, ◌≤◌, List, length, All, IfOk, OnOk, IsErrOf};
ghost use Rattle.tsc_cover.specs.Row.{literals_of, literals_of_each};
ghost use Rattle.diagrams.specs.Cofactors.{Function, IsCofactorOfOne};
ghost use Rattle.diagrams.specs.Building.{AreMade, StandsFor, AreShort};
ghost use Rattle.cover_diagrams.specs.Covering.{Grows, with_row, or_so_far, StandForPins, IsRowKept, AreRowsKept, IsRowBuilt, AreRowsBuilt};

use crate::rows::and_of_row;
use diagrams::{BuildError, Diagrams, Operation};
use tsc_cover::Row01;

/// The row of the OR so far with the AND of what a row of a cover asks of its pins.
fn or_with_row(
    diagrams: &mut Diagrams,
    so_far: u32,
    row: Row01,
    pins: &[u32],
) -> Result<u32, BuildError>
    requires wide { length pins.now ≤ 64 }
    requires pins { All (λ pin. pin < length diagrams.old.rows) pins.now }
    requires so_far { so_far < length diagrams.old.rows }
    ensures grown { Grows diagrams.old diagrams.new }
    ensures inside { IfOk result (λ k. k < length diagrams.new.rows) }
    ensures made { (f : Function) (ps fs : List Function) → StandsFor diagrams.old f so_far → StandForPins diagrams.old ps pins.now → IsRowKept diagrams.old.inputs fs (literals_of (length pins.now) row) ps → IsCofactorOfOne diagrams.old.inputs fs (with_row f (literals_of (length pins.now) row) ps) → AreMade diagrams.old diagrams.new fs }
    ensures stands { (f : Function) (ps : List Function) → StandsFor diagrams.old f so_far → StandForPins diagrams.old ps pins.now → IfOk result (StandsFor diagrams.new (with_row f (literals_of (length pins.now) row) ps)) }
    ensures built { (f : Function) (ps : List Function) → StandsFor diagrams.old f so_far → StandForPins diagrams.old ps pins.now → OnOk result (IsRowBuilt diagrams.new (literals_of (length pins.now) row) ps (length pins.now)) }
    ensures short { IsErrOf result BuildError.Spent → (f : Function) (ps fs : List Function) → StandsFor diagrams.old f so_far → StandForPins diagrams.old ps pins.now → IsRowKept diagrams.old.inputs fs (literals_of (length pins.now) row) ps → IsCofactorOfOne diagrams.old.inputs fs (with_row f (literals_of (length pins.now) row) ps) → AreShort diagrams.new fs }
{
    let _rows = diagrams.len();
    match and_of_row(diagrams, row, pins) {
        Ok(joined) => match diagrams.combine(Operation::Or, so_far, joined) {
            Ok(k) => Ok(k),
            Err(e) => Err(e),
        },
        Err(e) => Err(e),
    }
}

/// The row of the OR of rows of a cover over its pins: running, from the constant 0, also where it is already 1.
///
/// # Errors
///
/// All rows are used, and none of them stands for some cofactor of a function that the rows state; want of memory.
pub fn or_of_rows(diagrams: &mut Diagrams, rows: &[Row01], pins: &[u32]) -> Result<u32, BuildError>
    requires wide { length pins.now ≤ 64 }
    requires pins { All (λ pin. pin < length diagrams.old.rows) pins.now }
    ensures grown { Grows diagrams.old diagrams.new }
    ensures inside { IfOk result (λ k. k < length diagrams.new.rows) }
    ensures made { (ps fs : List Function) → StandForPins diagrams.old ps pins.now → AreRowsKept diagrams.old.inputs fs (literals_of_each (length pins.now) rows.now) ps → AreMade diagrams.old diagrams.new fs }
    ensures stands { (ps : List Function) → StandForPins diagrams.old ps pins.now → IfOk result (StandsFor diagrams.new (or_so_far (literals_of_each (length pins.now) rows.now) ps (length rows.now))) }
    ensures built { (ps : List Function) → StandForPins diagrams.old ps pins.now → OnOk result (AreRowsBuilt diagrams.new (literals_of_each (length pins.now) rows.now) ps (length rows.now)) }
    ensures short { IsErrOf result BuildError.Spent → (ps fs : List Function) → StandForPins diagrams.old ps pins.now → AreRowsKept diagrams.old.inputs fs (literals_of_each (length pins.now) rows.now) ps → AreShort diagrams.new fs }
{
    let _rows = diagrams.len();
    let mut so_far = 0;
    for j in 0..rows.len() {
        match or_with_row(diagrams, so_far, rows[j], pins) {
            Ok(next) => so_far = next,
            Err(e) => return Err(e),
        }
    }
    Ok(so_far)
}
