//! A list of items of one type, which contracts see as the list itself.
ghost use Rattle.std.specs.Prelude.{◌≡◌, ◌+◌, ◌<◌, ◌==◌, [], ◌∷◌, ◌++◌, length, take, Some, IfOk, OnOk, OnErr, slice_get, slice_index_or, slice_set};

use std::alloc::{AllocError, Global};
use std::marker::Model;
use std::mem;

/// A list of bytes.
pub type Bytes = Items<u8>;

/// A list of words, each a list of bytes.
pub type Words = Items<Bytes>;

/// A list of the numbers of calls, from 0.
pub type CallList = Items<u64>;

/// A list of items, in the order in which they were pushed.
#[derive(Debug, Drop)]
pub struct Items<T> {
    held: Vec<T>,
}

impl<T> Model for Items<T> {
    ghost use Rattle.std.specs.Prelude.{List};

    ghost Value = { List T };

    ghost view = { λ list. list.held.items };
}

impl<T> Items<T> {
    /// The empty list. It takes no memory.
    pub fn new(alloc: Global) -> Self
        ensures empty { result ≡ [] }
    {
        Items {
            held: Vec::new(alloc),
        }
    }

    /// An empty list that has taken the memory for `room` items.
    ///
    /// # Errors
    ///
    /// Want of memory.
    pub fn with_room(alloc: Global, room: usize) -> Result<Self, AllocError>
        ensures empty { IfOk result (λ list. list ≡ []) }
    {
        let held = Vec::with_capacity(alloc, room)?;
        Ok(Items { held })
    }

    /// The number of items.
    pub fn len(&self) -> usize
        ensures count { result ≡ length self.now }
    {
        self.held.len()
    }

    /// Whether the list has no item.
    pub fn is_empty(&self) -> bool
        ensures empty { result ≡ (length self.now == 0) }
    {
        self.held.is_empty()
    }

    /// The items, in order.
    pub fn as_slice(&self) -> &[T]
        ensures whole { result.now ≡ self.now }
    {
        self.held.as_slice()
    }

    /// The item at `place`, counted from 0.
    pub fn get(&self, place: usize) -> &T
        requires { place < length self.now }
        ensures found { slice_get self.now place ≡ Some result.now }
        ensures item { result.now ≡ slice_index_or self.now place result.now }
    {
        &self.held[place]
    }
}

impl<T> Items<T> {
    ghost use Rattle.std.specs.Borrow.{sem};
    ghost use Rattle.tsc_io.specs.Lends.{lends_item};

    /// The item at `place`, counted from 0, for writing.
    pub fn get_mut(&mut self, place: usize) -> &mut T
        requires { place < length self.old }
        ensures* writes_back { sem 𝓛 (lends_item T.row self.entry place result) }
        ensures item { result.now ≡ slice_index_or self.old place result.now }
        ensures found { slice_get self.old place ≡ Some result.now }
    {
        &mut self.held[place]
    }
}

impl<T: Drop> Items<T> {
    /// Adds `item` at the end. Where memory is missing the list is unchanged, and the item is dropped.
    ///
    /// # Errors
    ///
    /// Want of memory.
    pub fn push(&mut self, item: T) -> Result<(), AllocError>
        ensures ok { OnOk result (self.new ≡ self.old ++ item ∷ []) }
        ensures err { OnErr result (self.new ≡ self.old) }
    {
        self.held.push(item)?;
        Ok(())
    }

    /// Puts `item` at `place`, counted from 0, and answers the item that was there.
    pub fn replace(&mut self, place: usize, item: T) -> T
        requires { place < length self.old }
        ensures changed { self.new ≡ slice_set self.old place item }
        ensures was { slice_get self.old place ≡ Some result }
    {
        mem::replace(&mut self.held[place], item)
    }

    /// Keeps the first `count` items.
    pub fn truncate(&mut self, count: usize)
        ensures first { self.new ≡ take count self.old }
    {
        self.held.truncate(count);
    }

    /// Removes every item.
    pub fn clear(&mut self)
        ensures empty { self.new ≡ [] }
    {
        self.held.clear();
    }
}

impl<T: Copy> Items<T> {
    /// A list of the items of `items`.
    ///
    /// # Errors
    ///
    /// Want of memory.
    pub fn from_slice(alloc: Global, items: &[T]) -> Result<Self, AllocError>
        ensures same { IfOk result (λ list. list ≡ items.now) }
    {
        let held = Vec::from_slice(alloc, items)?;
        Ok(Items { held })
    }

    /// Adds the items of `more` at the end. Where memory is missing the list is unchanged.
    ///
    /// # Errors
    ///
    /// Want of memory.
    pub fn append(&mut self, more: &[T]) -> Result<(), AllocError>
        ensures ok { OnOk result (self.new ≡ self.old ++ more.now) }
        ensures err { OnErr result (self.new ≡ self.old) }
    {
        self.held.extend_from_slice(more)
    }
}
