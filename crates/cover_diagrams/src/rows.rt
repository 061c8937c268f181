//! The running ANDs of a row of a cover.
ghost use Rattle.std.specs.Prelude.{◌≡◌, ◌<◌, ◌≤◌, List, length, All, IfOk, OnOk, IsErrOf};
ghost use Rattle.tsc_cover.specs.Row.{literals_of};
ghost use Rattle.diagrams.specs.Cofactors.{Function};
ghost use Rattle.diagrams.specs.Building.{AreMade, StandsFor, AreShort};
ghost use Rattle.cover_diagrams.specs.Covering.{Grows, and_so_far, StandForPins, IsRowKept, IsRowBuilt};

use crate::literals::and_literal;
use diagrams::{BuildError, Diagrams};
use tsc_cover::{Row01, bit_at};

/// The row of the AND of what a row of a cover asks of its pins, the first most significant: running, from the constant 1.
///
/// # Errors
///
/// All rows are used, and none of them stands for some cofactor of a running AND, or of the negation of a pin that the row
/// reads as 0; want of memory.
pub fn and_of_row(diagrams: &mut Diagrams, row: Row01, pins: &[u32]) -> Result<u32, BuildError>
    requires wide { length pins.now ≤ 64 }
    requires pins { All (λ pin. pin < length diagrams.old.rows) pins.now }
    ensures grown { Grows diagrams.old diagrams.new }
    ensures inside { IfOk result (λ k. k < length diagrams.new.rows) }
    ensures made { (ps fs : List Function) → StandForPins diagrams.old ps pins.now → IsRowKept diagrams.old.inputs fs (literals_of (length pins.now) row) ps → AreMade diagrams.old diagrams.new fs }
    ensures stands { (ps : List Function) → StandForPins diagrams.old ps pins.now → IfOk result (StandsFor diagrams.new (and_so_far (literals_of (length pins.now) row) ps (length pins.now))) }
    ensures built { (ps : List Function) → StandForPins diagrams.old ps pins.now → OnOk result (IsRowBuilt diagrams.new (literals_of (length pins.now) row) ps (length pins.now)) }
    ensures short { IsErrOf result BuildError.Spent → (ps fs : List Function) → StandForPins diagrams.old ps pins.now → IsRowKept diagrams.old.inputs fs (literals_of (length pins.now) row) ps → AreShort diagrams.new fs }
{
    let _rows = diagrams.len();
    let width = pins.len();
    let mut so_far = 1;
    for i in 0..width {
        let place = width - 1 - i;
        let care = bit_at(row.care, place);
        let wanted = bit_at(row.value, place);
        match and_literal(diagrams, so_far, pins[i], care, wanted) {
            Ok(next) => so_far = next,
            Err(e) => return Err(e),
        }
    }
    Ok(so_far)
}
