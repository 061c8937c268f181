//! A table that is read, before it is known that no two rows conflict.
ghost use Rattle.std.specs.Prelude.{◌≡◌, ℕ, ◌<◌, ◌==◌, ◌&&◌, length};
ghost use Rattle.fault_secure.specs.FaultSecure.{equal_bits};
ghost use Rattle.tsc_bits.specs.Bits.{bits_of};
ghost use Rattle.tsc_net.specs.Overlap.{overlap, share_state};
ghost use Rattle.tsc_net.specs.MachineView.{transition_of, IsMachineRow};
ghost use Rattle.kiss_read.specs.Conflict.{conflict};
ghost use Rattle.kiss_read.specs.Clashes.{conflict_at, rows_in, IsTable};

use crate::rows::Heading;
use tsc_cover::meet;
use tsc_net::{MachineRow, MachineRows};

/// A table: its numbers, how many states it has, and its rows.
#[derive(Drop)]
pub struct Table {
    /// The numbers of inputs and outputs, and the reset state.
    pub heading: Heading,
    /// The number of states.
    pub states: usize,
    /// The rows.
    pub rows: MachineRows,
}

/// Whether both rows start at some state.
fn share_state(from: Option<u32>, other: Option<u32>) -> bool
    ensures share { result ≡ share_state from other }
{
    match from {
        None => true,
        Some(from) => match other {
            None => true,
            Some(other) => from == other,
        },
    }
}

/// Whether both rows answer at some state and input.
fn overlap(later: &MachineRow, earlier: &MachineRow) -> bool
    ensures overlap { (inputs outputs states reset : ℕ) → IsMachineRow inputs outputs states reset later.now → IsMachineRow inputs outputs states reset earlier.now
        → result ≡ overlap (transition_of inputs outputs later.now) (transition_of inputs outputs earlier.now) }
{
    share_state(later.from, earlier.from) && meet(&later.input, &earlier.input)
}

/// Whether the next states and the outputs of two rows are the same.
fn answer_alike(later: &MachineRow, earlier: &MachineRow) -> bool
    ensures alike { (inputs outputs states reset : ℕ) → IsMachineRow inputs outputs states reset later.now → IsMachineRow inputs outputs states reset earlier.now
        → result ≡ (later.now.next == earlier.now.next && equal_bits (bits_of outputs later.now.outputs) (bits_of outputs earlier.now.outputs)) }
{
    later.next == earlier.next && later.outputs == earlier.outputs
}

/// Whether two rows conflict: they overlap and differ.
fn rows_conflict(later: &MachineRow, earlier: &MachineRow) -> bool
    ensures conflict { (inputs outputs states reset : ℕ) → IsMachineRow inputs outputs states reset later.now → IsMachineRow inputs outputs states reset earlier.now
        → result ≡ conflict (transition_of inputs outputs later.now) (transition_of inputs outputs earlier.now) }
{
    overlap(later, earlier) && !answer_alike(later, earlier)
}

impl Table {
    /// Whether the row at a place conflicts with that at an earlier one.
    pub fn conflict(&self, later: usize, earlier: usize) -> bool
        requires fit { IsTable self.now }
        requires later { later < length self.now.rows }
        requires earlier { earlier < length self.now.rows }
        ensures conflict { result ≡ conflict_at (rows_in self.now) later earlier }
    {
        rows_conflict(self.rows.get(later), self.rows.get(earlier))
    }
}
