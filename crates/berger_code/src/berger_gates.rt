//! A Berger check as gates.
ghost use Rattle.std.specs.Prelude.{◌≡◌, ◌+◌, ◌*◌, ◌<◌, ◌≤◌, reverse, length, IfOk, ◌^◌};
ghost use Rattle.tsc_bits.specs.Bits.{bits_of};
ghost use Rattle.fault_secure.specs.CodePlan.{IsBergerWidth};
ghost use Rattle.tsc_bits.specs.Counting.{zeros};
ghost use Rattle.gate_net.specs.Gates.{AreLines, line_values};
ghost use Rattle.gate_net.specs.Growth.{Grows, ComputesAll};

use crate::counter::count_zeros;
use gate_net::{Gates, Line, LineList};
use std::alloc::{AllocError, Global};

/// The lines, the last one first.
fn turned(alloc: Global, bits: &[Line]) -> Result<LineList, AllocError>
    ensures turned { IfOk result (λ lines. lines ≡ reverse bits.now) }
{
    let mut lines = Vec::from_slice(alloc, bits)?;
    lines.reverse();
    LineList::from_slice(alloc, &lines)
}

/// Adds the check of 1 to 64 outputs: the lines of their number of zeros in binary, as many as `berger_width`, the
/// most significant first. At most 13 gates per output come, also where memory is missing; all earlier gates stay.
///
/// # Errors
///
/// Want of memory.
pub fn add_berger(
    alloc: Global,
    gates: &mut Gates,
    outputs: &LineList,
) -> Result<LineList, AllocError>
    requires lines { AreLines gates.old outputs.now }
    requires some { 0 < length outputs.now }
    requires most { length outputs.now ≤ 64 }
    requires room { length gates.old.gates + 13 * length outputs.now < 2 ^ 32 }
    ensures checks { IfOk result (λ checks. ComputesAll gates.old gates.new (λ x s. bits_of (length checks) (zeros (line_values gates.old x s outputs.now))) checks) }
    ensures width { IfOk result (λ checks. IsBergerWidth (length outputs.now) (length checks)) }
    ensures grown { Grows gates.old gates.new }
    ensures few { length gates.new.gates ≤ length gates.old.gates + 13 * length outputs.now }
{
    let bits = count_zeros(alloc, gates, outputs.as_slice())?;
    let checks = turned(alloc, &bits)?;
    Ok(checks)
}
