//! The row of what an operation makes of two functions, of which each has a row.
ghost use Rattle.std.specs.Prelude.{◌≡◌, ◌<◌, List, length, IfOk, IsErrOf};
ghost use Rattle.diagrams.specs.Operations.{combined};
ghost use Rattle.diagrams.specs.Cofactors.{Function, IsCofactorOfOne};
ghost use Rattle.diagrams.specs.Building.{AreMade, StandsFor, AreShort};
ghost use Rattle.cover_diagrams.specs.Covering.{Grows};

use diagrams::{BuildError, Diagrams, Operation};

/// The row of what an operation makes of two functions.
pub(crate) fn operation_row(
    diagrams: &mut Diagrams,
    operation: Operation,
    first: u32,
    second: u32,
) -> Result<u32, BuildError>
    requires first { first < length diagrams.old.rows }
    requires second { second < length diagrams.old.rows }
    ensures grown { Grows diagrams.old diagrams.new }
    ensures inside { IfOk result (λ row. row < length diagrams.new.rows) }
    ensures made { (f g : Function) (kept : List Function) → StandsFor diagrams.old f first → StandsFor diagrams.old g second → IsCofactorOfOne diagrams.old.inputs kept (λ x. combined operation (f x) (g x)) → AreMade diagrams.old diagrams.new kept }
    ensures stands { (f g : Function) → StandsFor diagrams.old f first → StandsFor diagrams.old g second → IfOk result (StandsFor diagrams.new (λ x. combined operation (f x) (g x))) }
    ensures short { IsErrOf result BuildError.Spent → (f g : Function) (kept : List Function) → StandsFor diagrams.old f first → StandsFor diagrams.old g second → IsCofactorOfOne diagrams.old.inputs kept (λ x. combined operation (f x) (g x)) → AreShort diagrams.new kept }
{
    let _rows = diagrams.len();
    match diagrams.combine(operation, first, second) {
        Ok(row) => Ok(row),
        Err(e) => Err(e),
    }
}
