//! The page in which bytes wait for a sink.
ghost use Rattle.std.specs.Prelude.{◌≡◌, ◌+◌, ◌≤◌, [], ◌++◌, length, IfOk};

use std::alloc::{AllocError, Global};
use std::marker::Model;

/// The most bytes that wait.
pub const PAGE_BYTES: usize = 65_536;

/// A page in which at most 65,536 bytes wait for a sink. Contracts see it as the list of these bytes.
#[derive(Debug, Drop)]
pub struct Page {
    held: Vec<u8>,
}

impl Model for Page {
    ghost use Rattle.std.specs.Prelude.{ℕ, List, ◌≤◌, vec_len, vec_capacity};

    ghost Value = { List ℕ };

    ghost view = { λ page. page.held.items };

    ghost invariant = { λ page. (vec_len page.held ≤ 65536) × (65536 ≤ vec_capacity page.held) };
}

impl Page {
    /// A page in which nothing waits. Its memory is had here, and no more is taken later.
    ///
    /// # Errors
    ///
    /// Want of memory.
    pub fn new(alloc: Global) -> Result<Page, AllocError>
        ensures empty { IfOk result (λ page. page ≡ []) }
    {
        let held = Vec::with_capacity(alloc, PAGE_BYTES)?;
        Ok(Page { held })
    }

    /// How many more bytes the page has room for.
    pub fn room(&self) -> usize
        ensures room { result + length self.now ≡ 65536 }
    {
        PAGE_BYTES - self.held.len()
    }

    /// The bytes that wait.
    pub fn as_slice(&self) -> &[u8]
        ensures whole { result.now ≡ self.now }
    {
        self.held.as_slice()
    }

    /// Has some more bytes wait, for which there is room.
    pub(crate) fn hold(&mut self, piece: &[u8])
        requires room { length self.old + length piece.now ≤ 65536 }
        ensures held { self.new ≡ self.old ++ piece.now }
    {
        self.held.extend_from_slice(piece).unwrap();
    }

    /// Forgets the bytes that wait.
    pub fn clear(&mut self)
        ensures empty { self.new ≡ [] }
    {
        self.held.clear();
    }
}
