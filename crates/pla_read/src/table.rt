//! A table that is read, and the covers of its outputs.
ghost use Rattle.std.specs.Prelude.{◌≡◌, ℕ, ◌<◌, nat_lt, length, map, IfOk};
ghost use Rattle.tsc_bits.specs.Bits.{bits_of};
ghost use Rattle.fault_secure.specs.Circuit.{bit};
ghost use Rattle.pla_read.specs.Covers.{marked_at, rows_cover};
ghost use Rattle.pla_read.specs.Spread.{spread_cover, AreCovers};
ghost use Rattle.pla_read.specs.Shaped.{row_as, table_as, IsTable};

use crate::rows::{Mark, PlaRow, marks_in};
use crate::spread::{CoverList, spread};
use std::alloc::{AllocError, Global};
use tsc_io::Items;

/// A table: how many inputs and outputs it has, and its rows.
#[derive(Drop)]
pub struct Table {
    /// The number of inputs.
    pub inputs: usize,
    /// The number of outputs.
    pub outputs: usize,
    /// The rows.
    pub rows: Items<PlaRow>,
}

/// Some rows for an output.
#[derive(Clone, Copy)]
pub enum Chosen {
    /// Those that make it 1.
    Ones,
    /// Those that leave it free.
    Free,
    /// Those that make it 1, and none where no row leaves it free.
    OnesBesideFree,
}

/// At which outputs some row has the mark, as a number with one bit per output.
fn some_marks(rows: &[PlaRow], mark: Mark) -> u64
    ensures some { (inputs outputs place : ℕ) → place < outputs → bit (bits_of outputs result) place ≡ nat_lt 0 (length (marked_at mark (map (row_as inputs outputs) rows.now) place)) }
{
    let mut some = 0;
    for row in 0..rows.len() {
        some |= marks_in(&rows[row], mark);
    }
    some
}

impl Table {
    /// The on-set covers of the rows that have the mark, one per output, at those outputs for which `within` has a bit; at the others
    /// without rows.
    fn marked(&self, alloc: Global, mark: Mark, within: u64) -> Result<CoverList, AllocError>
        requires fit { IsTable self.now }
        ensures covers { IfOk result (AreCovers 0 self.now.outputs (spread_cover mark (bits_of self.now.outputs within) self.now.inputs (table_as self.now).rows)) }
    {
        spread(
            alloc,
            self.rows.as_slice(),
            self.inputs,
            self.outputs,
            mark,
            within,
        )
    }

    /// The on-set covers of the rows that are chosen for the outputs, one per output. It goes over the rows twice, and over what they mark.
    ///
    /// # Errors
    ///
    /// Want of memory.
    pub fn covers(&self, alloc: Global, chosen: Chosen) -> Result<CoverList, AllocError>
        requires fit { IsTable self.now }
        ensures covers { IfOk result (AreCovers 0 self.now.outputs (rows_cover chosen (table_as self.now))) }
    {
        match chosen {
            Chosen::Ones => self.marked(alloc, Mark::One, u64::MAX),
            Chosen::Free => self.marked(alloc, Mark::Free, u64::MAX),
            Chosen::OnesBesideFree => {
                let free = some_marks(self.rows.as_slice(), Mark::Free);
                self.marked(alloc, Mark::One, free)
            }
        }
    }
}
