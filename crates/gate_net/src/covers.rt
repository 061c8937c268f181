//! Covers as gates: a cover is the Or over its rows of the And over its literals.
ghost use Rattle.std.specs.Prelude.{◌≡◌, ◌+◌, ◌*◌, ◌^◌, ◌&&◌, ◌||◌, ◌<◌, ◌≤◌, true, false, [], ◌∷◌, length, IfOk, OnOk};
ghost use Rattle.std.specs.List.{sum_by};
ghost use Rattle.tsc_bits.specs.Bits.{bit_worth, same};
ghost use Rattle.tsc_cover.specs.Cover.{accepts, row_matches, some_row_matches, truth};
ghost use Rattle.tsc_cover.specs.Row.{literal, literals_of, literals_of_each};
ghost use Rattle.fault_secure.specs.Size.{row_literals};
ghost use Rattle.gate_net.specs.Gates.{IsLine, AreLines, line_value, line_values};
ghost use Rattle.gate_net.specs.Growth.{Computes};
ghost use Rattle.gate_net.specs.Joined.{value_or, IsLineOrNone, ComputesOr};
ghost use Rattle.gate_net.specs.Size.{cover_gates};

use crate::gate::Gate;
use crate::gates::Gates;
use crate::line::Line;
use std::alloc::AllocError;
use tsc_cover::{Cover, Row01, bit_at};

/// The line that is 1 where a cover is true of the lines at its pins.
pub fn cover_line(gates: &mut Gates, cover: &Cover, pins: &[Line]) -> Result<Line, AllocError>
    requires pins { AreLines gates.old pins.now }
    requires sized { length pins.now ≡ cover.now.width }
    requires room { length gates.old.gates + cover_gates cover.now < 2 ^ 32 }
    ensures computes { IfOk result (Computes gates.old gates.new (λ x s. truth cover.now (line_values gates.old x s pins.now))) }
    ensures few { OnOk result (length gates.new.gates ≤ length gates.old.gates + cover_gates cover.now) }
{
    let line = rows_line(gates, cover.rows(), cover.width(), pins)?;
    if cover.on() {
        Ok(line)
    } else {
        gates.add(Gate::Not { a: line })
    }
}

/// The line that is 1 where some row matches the lines at its pins.
#[tactic(auto, using(crate::proofs::Kept::lines_kept, crate::proofs::Joined::or_line_kept))]
fn rows_line(
    gates: &mut Gates,
    rows: &[Row01],
    width: usize,
    pins: &[Line],
) -> Result<Line, AllocError>
    requires pins { AreLines gates.old pins.now }
    requires sized { length pins.now ≡ width }
    requires wide { width ≤ 64 }
    requires room { length gates.old.gates + (2 * (sum_by row_literals (literals_of_each width rows.now) + length rows.now) + 1) < 2 ^ 32 }
    ensures computes { IfOk result (Computes gates.old gates.new (λ x s. some_row_matches (literals_of_each width rows.now) (line_values gates.old x s pins.now))) }
    ensures few { OnOk result (length gates.new.gates ≤ length gates.old.gates + (2 * (sum_by row_literals (literals_of_each width rows.now) + length rows.now) + 1)) }
{
    let mut made = None;
    for row in rows {
        let line = row_line(gates, *row, width, pins)?;
        made = Some(either(gates, made, line)?);
    }
    match made {
        Some(line) => Ok(line),
        None => gates.add(Gate::Zero),
    }
}

/// The line that is 1 where a row matches the lines at its pins.
#[tactic(auto, using(crate::proofs::Kept::lines_kept, crate::proofs::Kept::line_kept, crate::proofs::Kept::grows_twice))]
fn row_line(gates: &mut Gates, row: Row01, width: usize, pins: &[Line]) -> Result<Line, AllocError>
    requires pins { AreLines gates.old pins.now }
    requires sized { length pins.now ≡ width }
    requires wide { width ≤ 64 }
    requires room { length gates.old.gates + (2 * row_literals (literals_of width row) + 1) < 2 ^ 32 }
    ensures computes { IfOk result (Computes gates.old gates.new (λ x s. row_matches (literals_of width row) (line_values gates.old x s pins.now))) }
    ensures few { OnOk result (length gates.new.gates ≤ length gates.old.gates + (2 * row_literals (literals_of width row) + 1)) }
{
    let mut made = None;
    for pin in 0..width {
        made = with_literal(gates, made, row, width - 1 - pin, pins[pin])?;
    }
    match made {
        Some(line) => Ok(line),
        None => gates.add(Gate::One),
    }
}

/// The line that is 1 where another one is, if there is another one, and what a row asks of a pin's line is met; none
/// where nothing is asked yet. The pin is that whose bits in the row are worth `2^place`.
fn with_literal(
    gates: &mut Gates,
    made: Option<Line>,
    row: Row01,
    place: usize,
    pin: Line,
) -> Result<Option<Line>, AllocError>
    requires made { IsLineOrNone gates.old made }
    requires pin { IsLine gates.old pin }
    requires below { place < 64 }
    requires room { length gates.old.gates + 2 * row_literals (literal (bit_worth place row.care) (bit_worth place row.value) ∷ []) < 2 ^ 32 }
    ensures computes { IfOk result (ComputesOr true gates.old gates.new (λ x s. value_or true gates.old x s made && accepts (literal (bit_worth place row.care) (bit_worth place row.value)) (line_value gates.old x s pin))) }
    ensures few { OnOk result (length gates.new.gates ≤ length gates.old.gates + 2 * row_literals (literal (bit_worth place row.care) (bit_worth place row.value) ∷ [])) }
{
    if !bit_at(row.care, place) {
        return Ok(made);
    }
    let wanted = literal_line(gates, pin, bit_at(row.value, place))?;
    let line = both(gates, made, wanted)?;
    Ok(Some(line))
}

/// The line that is 1 where a pin's line has the wanted bit.
fn literal_line(gates: &mut Gates, pin: Line, wanted: bool) -> Result<Line, AllocError>
    requires pin { IsLine gates.old pin }
    requires room { length gates.old.gates + 1 < 2 ^ 32 }
    ensures computes { IfOk result (Computes gates.old gates.new (λ x s. same wanted (line_value gates.old x s pin))) }
    ensures few { OnOk result (length gates.new.gates ≤ length gates.old.gates + 1) }
{
    if wanted {
        Ok(pin)
    } else {
        gates.add(Gate::Not { a: pin })
    }
}

/// The line that is 1 where a line is, and another one, if there is another one.
fn both(gates: &mut Gates, other: Option<Line>, line: Line) -> Result<Line, AllocError>
    requires other { IsLineOrNone gates.old other }
    requires line { IsLine gates.old line }
    requires room { length gates.old.gates + 1 < 2 ^ 32 }
    ensures computes { IfOk result (Computes gates.old gates.new (λ x s. value_or true gates.old x s other && line_value gates.old x s line)) }
    ensures few { OnOk result (length gates.new.gates ≤ length gates.old.gates + 1) }
{
    match other {
        None => Ok(line),
        Some(a) => gates.add(Gate::And { a, b: line }),
    }
}

/// The line that is 1 where a line is, or another one, if there is another one.
fn either(gates: &mut Gates, other: Option<Line>, line: Line) -> Result<Line, AllocError>
    requires other { IsLineOrNone gates.old other }
    requires line { IsLine gates.old line }
    requires room { length gates.old.gates + 1 < 2 ^ 32 }
    ensures computes { IfOk result (Computes gates.old gates.new (λ x s. value_or false gates.old x s other || line_value gates.old x s line)) }
    ensures few { OnOk result (length gates.new.gates ≤ length gates.old.gates + 1) }
{
    match other {
        None => Ok(line),
        Some(a) => gates.add(Gate::Or { a, b: line }),
    }
}
