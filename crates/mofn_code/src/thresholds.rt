//! Thresholds of zeros, in gates: "at least j of these outputs are 0".
ghost use Rattle.std.specs.Prelude.{◌≡◌, ◌+◌, ◌*◌, ◌<◌, ◌≤◌, not, ◌&&◌, ◌||◌, length, IfOk, ◌^◌};
ghost use Rattle.tsc_bits.specs.Counting.{zeros};
ghost use Rattle.gate_net.specs.Gates.{IsLine, AreLines, line_value, line_values};
ghost use Rattle.gate_net.specs.Growth.{Grows, Computes, ComputesAll};
ghost use Rattle.tsc_bits.specs.Thermometer.{row_with, thermo};

use crate::threshold_cell::ThresholdCell;
use berger_code::zero_line;
use gate_net::{Gate, Gates, Line};
use std::alloc::{AllocError, Global};

/// Adds one threshold of a list with the bit `more`: it was met before, or the one below it was, which is carried.
fn add_threshold(
    gates: &mut Gates,
    threshold: Line,
    carried: Line,
    more: Line,
) -> Result<ThresholdCell, AllocError>
    requires threshold { IsLine gates.old threshold }
    requires carried { IsLine gates.old carried }
    requires more { IsLine gates.old more }
    requires room { length gates.old.gates + 2 < 2 ^ 32 }
    ensures threshold { IfOk result (λ made. Computes gates.old gates.new (λ x s. line_value gates.old x s threshold || line_value gates.old x s carried) made.threshold) }
    ensures carried { IfOk result (λ made. Computes gates.old gates.new (λ x s. line_value gates.old x s threshold && line_value gates.old x s more) made.carried) }
    ensures grown { Grows gates.old gates.new }
    ensures few { length gates.new.gates ≤ length gates.old.gates + 2 }
{
    let either = gates.add(Gate::Or {
        a: threshold,
        b: carried,
    })?;
    let both = gates.add(Gate::And {
        a: threshold,
        b: more,
    })?;
    Ok(ThresholdCell {
        threshold: either,
        carried: both,
    })
}

/// Adds the thresholds of a list with one bit more, from those of the list without it.
fn add_row(
    alloc: Global,
    gates: &mut Gates,
    row: &[Line],
    more: Line,
) -> Result<Vec<Line>, AllocError>
    requires row { AreLines gates.old row.now }
    requires more { IsLine gates.old more }
    requires room { length gates.old.gates + 2 * length row.now < 2 ^ 32 }
    ensures added { IfOk result (λ next. ComputesAll gates.old gates.new (λ x s. row_with (line_value gates.old x s more) (line_value gates.old x s more) (line_values gates.old x s row.now)) next.items) }
    ensures grown { Grows gates.old gates.new }
    ensures few { length gates.new.gates ≤ length gates.old.gates + 2 * length row.now }
{
    let mut next = Vec::new(alloc);
    let mut carried = more;
    for threshold in row {
        let cell = add_threshold(gates, *threshold, carried, more)?;
        next.push(cell.threshold)?;
        carried = cell.carried;
    }
    next.push(carried)?;
    Ok(next)
}

/// Adds the thresholds of zeros with one output more.
fn add_output(
    alloc: Global,
    gates: &mut Gates,
    row: &[Line],
    output: Line,
) -> Result<Vec<Line>, AllocError>
    requires row { AreLines gates.old row.now }
    requires output { IsLine gates.old output }
    requires room { length gates.old.gates + 2 * length row.now + 1 < 2 ^ 32 }
    ensures added { IfOk result (λ next. ComputesAll gates.old gates.new (λ x s. row_with (not (line_value gates.old x s output)) (not (line_value gates.old x s output)) (line_values gates.old x s row.now)) next.items) }
    ensures grown { Grows gates.old gates.new }
    ensures few { length gates.new.gates ≤ length gates.old.gates + 2 * length row.now + 1 }
{
    let zero = zero_line(gates, output)?;
    let next = add_row(alloc, gates, row, zero)?;
    Ok(next)
}

/// Adds the thresholds of the zeros among outputs, that of 1 first.
pub fn thresholds(
    alloc: Global,
    gates: &mut Gates,
    outputs: &[Line],
) -> Result<Vec<Line>, AllocError>
    requires outputs { AreLines gates.old outputs.now }
    requires room { length gates.old.gates + length outputs.now * length outputs.now < 2 ^ 32 }
    ensures added { IfOk result (λ row. ComputesAll gates.old gates.new (λ x s. thermo (length outputs.now) (zeros (line_values gates.old x s outputs.now))) row.items) }
    ensures width { IfOk result (λ row. length row.items ≡ length outputs.now) }
    ensures grown { Grows gates.old gates.new }
    ensures few { length gates.new.gates ≤ length gates.old.gates + length outputs.now * length outputs.now }
{
    let mut row = Vec::new(alloc);
    for output in outputs {
        row = add_output(alloc, gates, &row, *output)?;
    }
    Ok(row)
}
