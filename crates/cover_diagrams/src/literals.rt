//! Literals of pins, and an AND with one.
ghost use Rattle.std.specs.Prelude.{◌≡◌, ◌<◌, false, true, List, length, IfOk, OnOk, IsErrOf, IsTrue};
ghost use Rattle.tsc_cover.specs.Cover.{asks_for};
ghost use Rattle.tsc_bits.specs.Bits.{same};
ghost use Rattle.tsc_cover.specs.Row.{literal};
ghost use Rattle.diagrams.specs.Cofactors.{Function, IsCofactorOfOne};
ghost use Rattle.diagrams.specs.Building.{AreMade, StandsFor, AreShort};
ghost use Rattle.cover_diagrams.specs.Covering.{Grows, HasRow, negation, with_literal, IsLiteralKept};

use diagrams::{BuildError, Diagrams, Operation};

/// The row of a pin's function, where 1 is wanted, or of its negation.
///
/// # Errors
///
/// All rows are used, and none of them stands for some cofactor of the negation; want of memory.
pub fn literal_row(diagrams: &mut Diagrams, pin: u32, wanted: bool) -> Result<u32, BuildError>
    requires pin { pin < length diagrams.old.rows }
    ensures grown { Grows diagrams.old diagrams.new }
    ensures made { (p : Function) (fs : List Function) → StandsFor diagrams.old p pin → (wanted ≡ false → IsCofactorOfOne diagrams.old.inputs fs (negation p)) → AreMade diagrams.old diagrams.new fs }
    ensures stands { (p : Function) → StandsFor diagrams.old p pin → IfOk result (StandsFor diagrams.new (λ x. same wanted (p x))) }
    ensures short { IsErrOf result BuildError.Spent → (p : Function) (fs : List Function) → StandsFor diagrams.old p pin → (wanted ≡ false → IsCofactorOfOne diagrams.old.inputs fs (negation p)) → AreShort diagrams.new fs }
{
    let _rows = diagrams.len();
    if wanted {
        return Ok(pin);
    }
    match diagrams.combine(Operation::Xor, pin, 1) {
        Ok(row) => Ok(row),
        Err(e) => Err(e),
    }
}

/// The row of the AND so far with what a literal asks of a pin; a literal that asks nothing leaves it.
///
/// # Errors
///
/// All rows are used, and none of them stands for some cofactor of the literal or the AND; want of memory.
pub fn and_literal(
    diagrams: &mut Diagrams,
    so_far: u32,
    pin: u32,
    care: bool,
    wanted: bool,
) -> Result<u32, BuildError>
    requires so_far { so_far < length diagrams.old.rows }
    requires pin { pin < length diagrams.old.rows }
    ensures grown { Grows diagrams.old diagrams.new }
    ensures made { (f p : Function) (fs : List Function) → StandsFor diagrams.old f so_far → StandsFor diagrams.old p pin → IsLiteralKept diagrams.old.inputs fs f (literal care wanted) p → AreMade diagrams.old diagrams.new fs }
    ensures stands { (f p : Function) → StandsFor diagrams.old f so_far → StandsFor diagrams.old p pin → IfOk result (StandsFor diagrams.new (with_literal f (literal care wanted) p)) }
    ensures built { (f p : Function) → StandsFor diagrams.old f so_far → StandsFor diagrams.old p pin → OnOk result (IsTrue (asks_for false (literal care wanted)) → HasRow diagrams.new (negation p)) }
    ensures short { IsErrOf result BuildError.Spent → (f p : Function) (fs : List Function) → StandsFor diagrams.old f so_far → StandsFor diagrams.old p pin → IsLiteralKept diagrams.old.inputs fs f (literal care wanted) p → AreShort diagrams.new fs }
{
    let _rows = diagrams.len();
    if !care {
        return Ok(so_far);
    }
    match literal_row(diagrams, pin, wanted) {
        Ok(literal) => match diagrams.combine(Operation::And, so_far, literal) {
            Ok(row) => Ok(row),
            Err(e) => Err(e),
        },
        Err(e) => Err(e),
    }
}
