//! The first input at which a function has a value.
ghost use Rattle.std.specs.Prelude.{◌≡◌, ◌<◌, not, Bool, List, length, IfOk, IfSome, IfNone};
ghost use Rattle.diagrams.specs.Decisions.{value};
ghost use Rattle.diagrams.specs.Least.{IsLeast, dead, least_from};

use crate::diagrams::Diagrams;
use std::alloc::{AllocError, Global};

/// The row of the constant that never has the value.
fn dead_row(wanted: bool) -> u32
    ensures dead { result ≡ dead wanted }
{
    if wanted { 0 } else { 1 }
}

impl Diagrams {
    /// The bits of a walk from a row that takes 0 wherever that doesn't end at the other row.
    fn path(&self, alloc: Global, row: u32, end: u32) -> Result<Vec<bool>, AllocError>
        requires row { row < length self.now.rows }
        ensures path { IfOk result (λ bits. bits.items ≡ least_from self.now.rows end self.now.inputs 0 row) }
    {
        let inputs = self.inputs() as u32;
        let mut bits = Vec::with_capacity(alloc, inputs as usize)?;
        let mut place = row;
        for level in 0..inputs {
            let bit = self.step(place, level, false) == end;
            place = self.step(place, level, bit);
            bits.push(bit)?;
        }
        Ok(bits)
    }

    /// The first input, its first bit most significant, at which a row's function has the value; none where it never has.
    ///
    /// # Errors
    ///
    /// Want of memory.
    pub fn least(
        &self,
        alloc: Global,
        row: u32,
        wanted: bool,
    ) -> Result<Option<Vec<bool>>, AllocError>
        requires row { row < length self.now.rows }
        ensures none { IfOk result (λ found. IfNone found ((x : List Bool) → length x ≡ self.now.inputs → value self.now.rows row x ≡ not wanted)) }
        ensures least { IfOk result (λ found. IfSome found (λ bits. IsLeast self.now.inputs (value self.now.rows row) wanted bits.items)) }
    {
        let _rows = self.len();
        let end = dead_row(wanted);
        if row == end {
            return Ok(None);
        }
        match self.path(alloc, row, end) {
            Ok(bits) => Ok(Some(bits)),
            Err(e) => Err(e),
        }
    }
}
