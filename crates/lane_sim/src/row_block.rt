//! The rows of a bench: as many rows of a pool as it needs, taken when it is opened.
ghost use Rattle.std.specs.Prelude.{◌≡◌, ℕ, ◌+◌, ◌*◌, ◌<◌, ◌≤◌, List, length, IfOk, []};
ghost use Rattle.std.specs.Borrow.{sem};
ghost use Rattle.tsc_pool.specs.Pool.{AreThoseOut, IsWhole, KeepsWords, overlaid};
ghost use Rattle.lane_sim.specs.RowBlock.{row_words};
ghost use Rattle.lane_sim.specs.RowLending.{LendsRows};

use std::alloc::{AllocError, Global};
use std::marker::Model;
use tsc_pool::{Pool, RowList};

/// Rows of sixteen words, all the rows of a pool. It can't be dropped: `close` ends it. Contracts see the words of the rows, one
/// row after another.
pub(crate) struct RowBlock {
    pool: Pool,
    held: RowList,
}

impl Model for RowBlock {
    ghost use Rattle.std.specs.Prelude.{List, ℕ};

    ghost Value = { List ℕ };

    ghost use Rattle.lane_sim.specs.RowBlock.{HoldsAll};

    ghost view = { λ block. block.pool.block };

    ghost invariant = { λ block. HoldsAll block.pool block.held.rows };
}

impl RowBlock {
    /// That many rows. No other call takes memory.
    ///
    /// # Errors
    ///
    /// Want of memory.
    pub fn open(alloc: Global, count: usize) -> Result<RowBlock, AllocError>
        requires small { count ≤ 8388608 }
        ensures count { IfOk result (λ rows. length rows ≡ count * 16) }
    {
        let held = RowList::new(alloc, count)?;
        match Pool::new(alloc, count, 16) {
            Ok(pool) => Ok(take_all(pool, held, count)),
            Err(error) => {
                held.destroy_empty();
                Err(error)
            }
        }
    }

    /// How many rows there are.
    pub fn len(&self) -> usize
        ensures len { result * 16 ≡ length self.now }
    {
        // That all rows of the pool are held is known from here on.
        let _rows = &self.pool;
        self.held.len()
    }

    /// The words of a row.
    pub fn row(&self, row: usize) -> &[u64]
        requires inside { row * 16 + 16 ≤ length self.now }
        ensures words { result.now ≡ row_words self.now row }
        ensures sized { length result.now ≡ 16 }
    {
        let words = self.pool.block();
        let start = row * 16;
        &words[start..start + 16]
    }

    /// The words of all rows, to be written.
    pub fn words_mut(&mut self) -> &mut [u64]
        ensures* writes_back { sem 𝓛 (LendsRows self.entry result) }
        ensures words { result.now ≡ self.old }
        ensures refill { (words : List ℕ) → length words ≡ length self.old → overlaid self.old 0 words ≡ words }
    {
        self.pool.block_mut()
    }

    /// Ends the rows.
    pub fn close(self) {
        let RowBlock { pool, held } = self;
        pool.close(held);
    }
}

/// Takes all rows of a pool.
fn take_all(mut pool: Pool, mut held: RowList, count: usize) -> RowBlock
    requires whole { IsWhole pool }
    requires width { pool.width ≡ 16 }
    requires rows { pool.rows ≡ count }
    requires free { length pool.free ≡ count }
    requires none_out { AreThoseOut pool [] }
    requires none_held { held.rows ≡ [] }
    requires room { held.room ≡ count }
    ensures count { length result ≡ count * 16 }
{
    for _row in 0..count {
        take_one(&mut pool, &mut held);
    }
    RowBlock { pool, held }
}

/// Takes one more row of a pool.
#[tactic(auto, using(tsc_pool::proofs::Holding::those_out_taken))]
fn take_one(pool: &mut Pool, held: &mut RowList)
    requires free { 0 < length pool.old.free }
    requires room { length held.old.rows < held.old.room }
    requires those_out { AreThoseOut pool.old held.old.rows }
    ensures free { length pool.new.free + 1 ≡ length pool.old.free }
    ensures words { KeepsWords pool.old pool.new }
    ensures room { held.new.room ≡ held.old.room }
    ensures len { length held.new.rows ≡ length held.old.rows + 1 }
    ensures those_out { AreThoseOut pool.new held.new.rows }
    ensures whole { IsWhole pool.new }
{
    let row = pool.take().unwrap();
    held.push(row);
}
