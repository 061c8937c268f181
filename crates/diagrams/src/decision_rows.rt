//! Decisions in the rows of a pool.
ghost use Rattle.std.specs.Prelude.{◌≡◌, ◌<◌, ◌≤◌, ◌++◌, ◌∷◌, [], length, IfOk};
ghost use Rattle.diagrams.specs.Decisions.{row as nth};
ghost use Rattle.diagrams.specs.DecisionRows.{IsSmall, word_of, decision_of};

use crate::decision::Decision;
use std::alloc::{AllocError, Global};
use std::marker::Model;
use tsc_pool::{Pool, RowList};

/// Decisions in the rows of a pool, one word each, with room for a stated number of them, which is taken when they are
/// opened. They can't be dropped: `close` ends them.
pub(crate) struct DecisionRows {
    pool: Pool,
    held: RowList,
}

impl Model for DecisionRows {
    ghost use Rattle.diagrams.specs.DecisionRows.{DecisionList, HoldsRows, decisions_in};

    ghost Value = { DecisionList };

    ghost view = { λ rows. record { room = rows.pool.rows; rows = decisions_in rows.pool rows.held.rows } };

    ghost invariant = { λ rows. HoldsRows rows.pool rows.held };
}

/// The word that holds a decision.
pub(crate) fn word(decision: Decision) -> u64
    requires small { IsSmall decision }
    ensures word { result ≡ word_of decision }
{
    (decision.input as u64 * 4194304 + decision.low as u64) * 4194304 + decision.high as u64
}

/// The decision that a word holds.
fn decision(word: u64) -> Decision
    ensures decision { result ≡ decision_of word }
{
    let above = word / 4194304;
    Decision {
        input: (above / 4194304) as u32,
        low: (above % 4194304) as u32,
        high: (word % 4194304) as u32,
    }
}

impl DecisionRows {
    /// No rows yet, but room for so many.
    ///
    /// # Errors
    ///
    /// Want of memory.
    pub fn new(alloc: Global, room: usize) -> Result<DecisionRows, AllocError>
        requires few { room ≤ 4194304 }
        ensures none { IfOk result (λ rows. rows.rows ≡ []) }
        ensures room { IfOk result (λ rows. rows.room ≡ room) }
    {
        let pool = Pool::new(alloc, room, 1)?;
        match RowList::new(alloc, room) {
            Ok(held) => Ok(DecisionRows { pool, held }),
            Err(e) => {
                let none = RowList::new(alloc, 0).unwrap();
                pool.close(none);
                Err(e)
            }
        }
    }

    /// How many rows there are.
    pub fn len(&self) -> usize
        ensures len { result ≡ length self.now.rows }
        ensures within { result ≤ self.now.room }
    {
        self.held.len()
    }

    /// How many rows there can be.
    pub fn room(&self) -> usize
        ensures room { result ≡ self.now.room }
    {
        self.pool.free() + self.held.len()
    }

    /// The row with this number.
    pub fn get(&self, row: u32) -> Decision
        requires row { row < length self.now.rows }
        ensures row { result ≡ nth self.now.rows row }
    {
        decision(self.pool.words(self.held.get(row as usize))[0])
    }

    /// Adds a row after the others.
    pub fn push(&mut self, added: Decision)
        requires room { length self.old.rows < self.old.room }
        requires small { IsSmall added }
        ensures rows { self.new.rows ≡ self.old.rows ++ added ∷ [] }
        ensures room { self.new.room ≡ self.old.room }
    {
        let row = self.pool.take().unwrap();
        self.pool.words_mut(&row)[0] = word(added);
        self.held.push(row);
    }

    /// Ends the rows, and the pool.
    pub fn close(self) {
        let DecisionRows { pool, held } = self;
        pool.close(held)
    }
}
