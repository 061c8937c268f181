//! At which of 64 points, one after another, a machine leaves its next state free.
ghost use Rattle.std.specs.Prelude.{◌≡◌, ◌+◌, ◌/◌, ◌%◌, ◌<◌, ◌≤◌, ◌^◌, true, false, IsTrue};
ghost use Rattle.tsc_bits.specs.Bits.{bits_of};
ghost use Rattle.fault_secure.specs.Logic.{answering, is_free_next};
ghost use Rattle.tsc_net.specs.MachineView.{row_applies};
ghost use Rattle.behaviour_audit.specs.Lanes.{HoldsAtZeros};

use crate::row_lanes::answered_by;
use tsc_net::{Machine, MachineRow};

/// The points, of the 64 from the place `base` on, at which a row that answers names the next state: at the others a plan of version 2
/// leaves it free.
pub(crate) fn named_next(machine: &Machine, base: usize) -> u64
    requires few { machine.now.table.inputs ≤ 20 }
    requires whole { base % 64 ≡ 0 }
    ensures free { HoldsAtZeros result (λ k. IsTrue (is_free_next 2
        (answering machine.now.table ((base + k) / 2 ^ machine.now.table.inputs) (bits_of machine.now.table.inputs (base + k))))) }
{
    let mut named = 0;
    for row in machine.rows() {
        named |= named_by(row, machine.inputs(), base);
    }
    named
}

/// The points, of the 64 from the place `base` on, at which a row answers, if it names its next state.
fn named_by(row: &MachineRow, inputs: usize, base: usize) -> u64
    requires few { inputs ≤ 20 }
    requires narrow { row.now.input.care < 2 ^ inputs }
    requires whole { base % 64 ≡ 0 }
    ensures named { HoldsAtZeros result (λ k. row_applies ((base + k) / 2 ^ inputs) ((base + k) % 2 ^ inputs) row.now ≡ true → row.now.named ≡ false) }
{
    if row.named {
        answered_by(row, inputs, base)
    } else {
        0
    }
}
