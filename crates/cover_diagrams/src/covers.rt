//! Covers as rows of a diagram.
ghost use Rattle.std.specs.Prelude.{◌≡◌, ◌<◌, List, length, All, IfOk, OnOk, IsErrOf};
ghost use Rattle.diagrams.specs.Cofactors.{Function};
ghost use Rattle.diagrams.specs.Building.{AreMade, StandsFor, AreShort};
ghost use Rattle.cover_diagrams.specs.Covering.{Grows, cover_function, StandForPins, IsCoverKept, IsCoverBuilt};

use crate::literals::literal_row;
use crate::ors::or_of_rows;
use diagrams::{BuildError, Diagrams};
use tsc_cover::Cover;

/// The row of a cover's function of its pins' functions, of which each has a row.
///
/// # Errors
///
/// All rows are used, and none of them stands for some cofactor of a function that the cover states; want of memory.
pub fn cover_row(diagrams: &mut Diagrams, cover: &Cover, pins: &[u32]) -> Result<u32, BuildError>
    requires sized { length pins.now ≡ cover.now.width }
    requires pins { All (λ pin. pin < length diagrams.old.rows) pins.now }
    ensures grown { Grows diagrams.old diagrams.new }
    ensures made { (ps fs : List Function) → StandForPins diagrams.old ps pins.now → IsCoverKept diagrams.old.inputs fs cover.now ps → AreMade diagrams.old diagrams.new fs }
    ensures stands { (ps : List Function) → StandForPins diagrams.old ps pins.now → IfOk result (StandsFor diagrams.new (cover_function cover.now ps)) }
    ensures built { (ps : List Function) → StandForPins diagrams.old ps pins.now → OnOk result (IsCoverBuilt diagrams.new cover.now ps) }
    ensures short { IsErrOf result BuildError.Spent → (ps fs : List Function) → StandForPins diagrams.old ps pins.now → IsCoverKept diagrams.old.inputs fs cover.now ps → AreShort diagrams.new fs }
{
    let _width = cover.width();
    let on = cover.on();
    let rows = cover.rows();
    match or_of_rows(diagrams, rows, pins) {
        Ok(joined) => match literal_row(diagrams, joined, on) {
            Ok(k) => Ok(k),
            Err(e) => Err(e),
        },
        Err(e) => Err(e),
    }
}
