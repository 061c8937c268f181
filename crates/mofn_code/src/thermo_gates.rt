//! A thermometer check as gates.
ghost use Rattle.std.specs.Prelude.{◌≡◌, ◌+◌, ◌*◌, ◌<◌, ◌≤◌, length, IfOk, ◌^◌};
ghost use Rattle.tsc_bits.specs.Counting.{zeros};
ghost use Rattle.gate_net.specs.Gates.{AreLines, line_values};
ghost use Rattle.gate_net.specs.Growth.{Grows, ComputesAll};
ghost use Rattle.tsc_bits.specs.Thermometer.{thermo};

use crate::thresholds::thresholds;
use gate_net::{Gates, LineList};
use std::alloc::{AllocError, Global};

/// Adds the check of 1 to 64 outputs: as many lines, of which the j-th, from 1, is 1 exactly where at least j of the
/// outputs are 0. At most `k * k` gates come for `k` outputs, also where memory is missing; all earlier gates stay.
///
/// # Errors
///
/// Want of memory.
pub fn add_thermo(
    alloc: Global,
    gates: &mut Gates,
    outputs: &LineList,
) -> Result<LineList, AllocError>
    requires lines { AreLines gates.old outputs.now }
    requires some { 0 < length outputs.now }
    requires most { length outputs.now ≤ 64 }
    requires room { length gates.old.gates + length outputs.now * length outputs.now < 2 ^ 32 }
    ensures checks { IfOk result (λ checks. ComputesAll gates.old gates.new (λ x s. thermo (length outputs.now) (zeros (line_values gates.old x s outputs.now))) checks) }
    ensures width { IfOk result (λ checks. length checks ≡ length outputs.now) }
    ensures grown { Grows gates.old gates.new }
    ensures few { length gates.new.gates ≤ length gates.old.gates + length outputs.now * length outputs.now }
{
    let row = thresholds(alloc, gates, outputs.as_slice())?;
    LineList::from_slice(alloc, &row)
}
