//! Which nodes wait on which.
ghost use Rattle.std.specs.Prelude.{◌≡◌, ℕ, ◌<◌, [], ◌∷◌, ◌++◌, length, slice_set, IfOk, OnOk};
ghost use Rattle.tsc_bits.specs.Lists.{list_at};

use smallvec::SmallVec;
use std::alloc::{AllocError, Global};
use std::marker::Model;
use std::mem;

/// Nodes that wait on one node, in the order in which they came. Two of them take no memory of their own.
pub(crate) type WaitList = SmallVec<usize, 2>;

/// For each node, those that wait on it.
#[derive(Drop)]
pub(crate) struct Waiters {
    /// The list of each node.
    lists: Vec<WaitList>,
}

impl Model for Waiters {
    ghost use Rattle.std.specs.Prelude.{List, ℕ, map};

    ghost Value = { List (List ℕ) };

    ghost view = { λ waiters. map (λ list. list.items) waiters.lists.items };
}

impl Waiters {
    /// None waits on any of so many nodes.
    ///
    /// # Errors
    ///
    /// Want of memory.
    pub fn new(alloc: Global, count: usize) -> Result<Waiters, AllocError>
        ensures count { IfOk result (λ waiters. length waiters ≡ count) }
        ensures alone { IfOk result (λ waiters. (j : ℕ) → list_at waiters j ≡ []) }
    {
        let mut lists = Vec::with_capacity(alloc, count)?;
        for _ in 0..count {
            lists.push(SmallVec::new(alloc))?;
        }
        Ok(Waiters { lists })
    }

    /// Has a node wait on a node.
    ///
    /// # Errors
    ///
    /// Want of memory.
    pub fn add(&mut self, on: usize, node: usize) -> Result<(), AllocError>
        requires within { on < length self.old }
        ensures added { OnOk result (self.new ≡ slice_set self.old on (list_at self.old on ++ node ∷ [])) }
    {
        self.lists[on].push(node)?;
        Ok(())
    }

    /// Those that wait on a node, which then wait no more.
    pub fn take(&mut self, alloc: Global, on: usize) -> WaitList
        requires within { on < length self.old }
        ensures taken { result.items ≡ list_at self.old on }
        ensures left { self.new ≡ slice_set self.old on [] }
    {
        mem::replace(&mut self.lists[on], SmallVec::new(alloc))
    }
}
