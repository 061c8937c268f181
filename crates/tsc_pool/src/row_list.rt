//! Rows that are held together, in room that was taken before.
ghost use Rattle.std.specs.Prelude.{◌≡◌, ◌<◌, ◌++◌, [], ◌∷◌, ◌↔◌, length, IfOk, IsOk, IsNone, slice_index};
ghost use Rattle.std.specs.Option.{option_to_list};

use crate::row::Row;
use std::alloc::{AllocError, Global};
use std::marker::Model;

/// A list of rows with room for a stated number of them. It can't be dropped: `Pool::close` spends it.
pub struct RowList {
    room: usize,
    items: Vec<Row>,
}

impl Model for RowList {
    ghost use Rattle.std.specs.Prelude.{◌≤◌, vec_len, vec_capacity};
    ghost use Rattle.tsc_pool.specs.RowList.{RowListState};

    ghost Value = { RowListState };

    ghost view = { λ list. record { room = list.room; rows = list.items.items } };

    ghost invariant = { λ list. (vec_len list.items ≤ list.room) × (list.room ≤ vec_capacity list.items) };
}

impl RowList {
    /// An empty list with room for `room` rows. Without room it takes no memory.
    ///
    /// # Errors
    ///
    /// Want of memory.
    pub fn new(alloc: Global, room: usize) -> Result<RowList, AllocError>
        ensures empty { IfOk result (λ list. list.rows ≡ []) }
        ensures room { IfOk result (λ list. list.room ≡ room) }
        ensures without_room { room ≡ 0 → IsOk result }
    {
        let items = Vec::with_capacity(alloc, room)?;
        Ok(RowList { room, items })
    }

    /// Adds the row at the end. It takes no memory.
    pub fn push(&mut self, row: Row)
        requires room { length self.old.rows < self.old.room }
        ensures rows { self.new.rows ≡ self.old.rows ++ row ∷ [] }
        ensures same_room { self.new.room ≡ self.old.room }
    {
        self.items.push(row).unwrap()
    }

    /// Takes the last row out of the list; none exactly where the list is empty.
    pub fn pop(&mut self) -> Option<Row>
        ensures none { IsNone result ↔ (length self.old.rows ≡ 0) }
        ensures rows { self.old.rows ≡ self.new.rows ++ option_to_list result }
        ensures same_room { self.new.room ≡ self.old.room }
    {
        self.items.pop()
    }

    /// How many rows the list holds.
    pub fn len(&self) -> usize
        ensures len { result ≡ length self.now.rows }
    {
        self.items.len()
    }

    /// The row at this place, from 0.
    pub fn get(&self, place: usize) -> &Row
        requires inside { place < length self.now.rows }
        ensures row { result.now ≡ slice_index self.now.rows place }
    {
        &self.items[place]
    }

    /// Ends an empty list.
    pub fn destroy_empty(self)
        requires empty { length self.rows ≡ 0 }
    {
        let RowList { room: _, items } = self;
        items.destroy_empty()
    }

    /// Ends the list, and spends the rows that it holds.
    pub(crate) fn spend(mut self) {
        while let Some(row) = self.pop() {
            let _index = row.spend();
        }
        self.destroy_empty()
    }
}
