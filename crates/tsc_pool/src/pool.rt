//! The pool: one block of words, handed out as rows.
ghost use Rattle.std.specs.Prelude.{◌≡◌, ◌≢◌, ◌↔◌, ℕ, ◌+◌, ◌*◌, ◌^◌, ◌≤◌, ◌++◌, ◌∷◌, [], length, IfOk, IfSome, IfNone, IsNone, IsFalse, vec_capacity};
ghost use Rattle.std.specs.Option.{option_to_list};
ghost use Rattle.std.specs.List.{range_with_len};
ghost use Rattle.std.specs.Borrow.{sem};
ghost use Rattle.std.specs.FinMap as map;
ghost use Rattle.tsc_pool.specs.Pool.{is_out, IsOut, AreThoseOut, words_of, rows_out, KeepsWords, IsWhole};
ghost use Rattle.tsc_pool.specs.Lending.{LendsWords, LendsBlock};
ghost use Rattle.tsc_pool.specs.Laws.{WritesInsert, WritesKeepOthers, WritesAreRead, WritesRefill};

use crate::row::Row;
use crate::row_list::RowList;
use std::alloc::{AllocError, Global};
use std::marker::Model;

/// One block of words, taken once, whose rows are handed out and used again. It can't be dropped: `close` ends it.
/// Contracts see the number of rows, the width, the block and the indexes of the free rows; `rows_out` is the map of the
/// rows that are out, from their indexes to their words.
pub struct Pool {
    rows: usize,
    width: usize,
    block: Vec<u64>,
    free: Vec<u32>,
}

impl Model for Pool {
    ghost use Rattle.std.specs.Prelude.{◌≤◌, vec_capacity};
    ghost use Rattle.tsc_pool.specs.Pool.{PoolState, IsWhole};

    ghost Value = { PoolState };

    ghost view = { λ pool. record { rows = pool.rows; width = pool.width; block = pool.block.items; free = pool.free.items } };

    ghost invariant = { λ pool. IsWhole (record { rows = pool.rows; width = pool.width; block = pool.block.items; free = pool.free.items }) × (pool.rows ≤ vec_capacity pool.free) };
}

impl Pool {
    /// A pool of `rows` rows of `width` words each, all of them free; no more rows than 32 bits can index. No other call
    /// of a pool takes memory.
    ///
    /// # Errors
    ///
    /// Want of memory.
    pub fn new(alloc: Global, rows: usize, width: usize) -> Result<Pool, AllocError>
        requires small { rows * width ≤ 134217728 }
        requires indexed { rows ≤ 2 ^ 32 }
        ensures rows { IfOk result (λ pool. pool.rows ≡ rows) }
        ensures width { IfOk result (λ pool. pool.width ≡ width) }
        ensures free { IfOk result (λ pool. length pool.free ≡ rows) }
        ensures none_out { IfOk result (λ pool. AreThoseOut pool []) }
        ensures no_entry { IfOk result (λ pool. rows_out pool ≡ map.empty) }
        ensures whole { IfOk result (λ pool. IsWhole pool) }
    {
        let block = vec![in alloc; 0; rows * width]?;
        let free = all_indexes(alloc, rows)?;
        Ok(Pool {
            rows,
            width,
            block,
            free,
        })
    }

    /// Takes a free row out; none exactly where no row is free. Its words may hold anything.
    pub fn take(&mut self) -> Option<Row>
        ensures none { IsNone result ↔ (length self.old.free ≡ 0) }
        ensures free { self.old.free ≡ self.new.free ++ option_to_list result }
        ensures unchanged { IfNone result (self.new ≡ self.old) }
        ensures words { KeepsWords self.old self.new }

        ensures fresh { IfSome result (λ row. IsFalse (is_out self.old row)) }
        ensures out { IfSome result (λ row. IsOut self.new row) }
        ensures others { IfSome result (λ row. (other : ℕ) → other ≢ row → is_out self.new other ≡ is_out self.old other) }
        ensures insert { IfSome result (λ row. rows_out self.new ≡ map.insert (rows_out self.old) row (words_of self.new row)) }
        ensures whole { IsWhole self.new }
    {
        let index = self.free.pop()?;
        Some(Row::new(index))
    }

    /// Takes a row back that is out: it is free then, and the next that is taken.
    pub fn give(&mut self, row: Row)
        requires out { IsOut self.old row }
        ensures free { self.new.free ≡ self.old.free ++ row ∷ [] }
        ensures words { KeepsWords self.old self.new }

        ensures spent { IsFalse (is_out self.new row) }
        ensures others { (other : ℕ) → other ≢ row → is_out self.new other ≡ is_out self.old other }
        ensures remove { rows_out self.new ≡ map.remove (rows_out self.old) row }
        ensures whole { IsWhole self.new }
    {
        let index = row.spend();
        self.free.push(index).unwrap()
    }

    /// The words of a row that is out.
    pub fn words(&self, row: &Row) -> &[u64]
        requires out { IsOut self.now row.now }
        ensures words { result.now ≡ words_of self.now row.now }
        ensures width { length result.now ≡ self.now.width }
        ensures whole { IsWhole self.now }
    {
        let start = row.index() * self.width;
        let end = start + self.width;
        &self.block[start..end]
    }

    /// The words of a row that is out, to be written. A write changes no other row.
    pub fn words_mut(&mut self, row: &Row) -> &mut [u64]
        requires out { IsOut self.old row.now }
        ensures* writes_back { sem 𝓛 (LendsWords self.entry row.now result) }
        ensures words { result.now ≡ words_of self.old row.now }
        ensures width { length result.now ≡ self.old.width }

        ensures read { WritesAreRead self.old row.now }
        ensures others { WritesKeepOthers self.old row.now }
        ensures insert { WritesInsert self.old row.now }
        ensures whole { IsWhole self.old }
    {
        let start = row.index() * self.width;
        let end = start + self.width;
        self.block.slice_mut(start..end)
    }

    /// The words of all rows one after another, free rows too.
    pub fn block(&self) -> &[u64]
        ensures block { result.now ≡ self.now.block }
        ensures whole { IsWhole self.now }
    {
        self.block.as_slice()
    }

    /// The words of all rows one after another, to be written; which rows are out stays.
    pub fn block_mut(&mut self) -> &mut [u64]
        ensures* writes_back { sem 𝓛 (LendsBlock self.entry result) }
        ensures block { result.now ≡ self.old.block }
        ensures refill { WritesRefill self.old }
        ensures whole { IsWhole self.old }
    {
        self.block.as_mut_slice()
    }

    /// How many rows aren't out.
    pub fn free(&self) -> usize
        ensures free { result ≡ length self.now.free }
        ensures rows { result + map.len (rows_out self.now) ≡ self.now.rows }
        ensures whole { IsWhole self.now }
    {
        self.free.len()
    }

    /// Ends the pool, and spends the rows that are out.
    pub fn close(self, rows: RowList)
        requires those_out { AreThoseOut self rows.rows }
    {
        let Pool {
            rows: _,
            width: _,
            block: _,
            free: _,
        } = self;
        rows.spend()
    }
}

/// The indexes below a number, in a list with room for each of them.
fn all_indexes(alloc: Global, rows: usize) -> Result<Vec<u32>, AllocError>
    requires few { rows ≤ 4294967296 }
    ensures items { IfOk result (λ free. free.items ≡ range_with_len 0 rows) }
    ensures room { IfOk result (λ free. rows ≤ vec_capacity free) }
{
    let mut free = Vec::with_capacity(alloc, rows)?;
    for index in 0..rows {
        free.push(index as u32)?;
    }
    Ok(free)
}
