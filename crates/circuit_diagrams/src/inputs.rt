//! The rows of inputs.
ghost use Rattle.std.specs.Prelude.{◌≡◌, ℕ, ◌<◌, ◌≤◌, map, length, slice_index, All, OnOk, IsErrOf};
ghost use Rattle.std.specs.List.{range_with_len};
ghost use Rattle.diagrams.specs.Building.{input_bit, StandsFor};
ghost use Rattle.circuit_diagrams.specs.Steps.{AreAdded, AreShortOf};

use diagrams::{BuildError, Diagrams};

/// Puts the row of each input at its place.
pub(crate) fn input_rows(
    diagrams: &mut Diagrams,
    inputs: usize,
    rows: &mut [u32],
) -> Result<(), BuildError>
    requires inputs { diagrams.old.inputs ≡ inputs }
    requires within { inputs ≤ length rows.old }
    requires inside { All (λ row. row < length diagrams.old.rows) rows.old }
    ensures sized { length rows.new ≡ length rows.old }
    ensures inside { All (λ row. row < length diagrams.new.rows) rows.new }
    ensures added { AreAdded diagrams.old diagrams.new (map input_bit (range_with_len 0 inputs)) }
    ensures stand { OnOk result ((i : ℕ) → i < inputs → StandsFor diagrams.new (input_bit i) (slice_index rows.new i)) }
    ensures short { IsErrOf result BuildError.Spent → AreShortOf diagrams.old diagrams.new (map input_bit (range_with_len 0 inputs)) }
{
    let _rows = diagrams.len();
    for input in 0..inputs {
        match diagrams.variable(input) {
            Ok(row) => rows[input] = row,
            Err(e) => return Err(e),
        }
    }
    Ok(())
}
