//! The clock of a joint, and its control among the names that are taken.
ghost use Rattle.std.specs.Prelude.{◌≡◌, ◌+◌, ◌≤◌, length, IfOk};
ghost use Rattle.std.specs.Option.{option_copied};
ghost use Rattle.module_join.specs.JointNet.{joint_clock as clock_of_joint, joint_inputs, taken_names as names_taken};
ghost use Rattle.module_join.specs.JoinParts.{parts_as};

use crate::inputs::joint_inputs;
use crate::part::Part;
use blif_read::Clock;
use std::alloc::{AllocError, Global};
use tsc_io::TextKey;
use tsc_net::NameTable;

/// The clock of a joint: that of the first part that has one. It takes no memory.
pub fn joint_clock(parts: &[Part]) -> Option<&Clock>
    ensures clock { option_copied result ≡ clock_of_joint (parts_as parts.now) }
{
    for part in parts {
        if let Some(clock) = &part.clock {
            return Some(clock);
        }
    }
    None
}

/// The names that are taken before a joint names its nets: those of its inputs, and the control of its clock, where it has one. The
/// table is under the key of the text that the names are of.
///
/// # Errors
///
/// Want of memory.
pub fn taken_names(alloc: Global, key: TextKey, parts: &[Part]) -> Result<NameTable, AllocError>
    ensures names { IfOk result (λ names. names ≡ names_taken (parts_as parts.now)) }
    ensures few { IfOk result (λ names. length names ≤ length (joint_inputs (parts_as parts.now)) + 1) }
{
    let mut names = joint_inputs(alloc, key, parts)?;
    if let Some(clock) = joint_clock(parts) {
        names.add(clock.control.as_slice())?;
    }
    Ok(names)
}
