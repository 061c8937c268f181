//! A list of state words of one width.
ghost use Rattle.std.specs.Prelude.{◌≡◌, ◌<◌, ◌≤◌, [], ◌∷◌, ◌++◌, length, Some, OnOk, OnErr, slice_get, slice_index};
ghost use Rattle.tsc_net.specs.StateWords.{StateWords};

use std::alloc::{AllocError, Global};
use std::marker::Model;
use tsc_io::Items;

/// State words of one width, the first latch most significant. Without latches the width is 0.
#[derive(Debug, Drop)]
pub struct StateList {
    width: usize,
    words: Items<u64>,
}

impl Model for StateList {
    ghost use Rattle.std.specs.Prelude.{◌≤◌};
    ghost use Rattle.tsc_net.specs.StateWords.{StateWords};

    ghost Value = { StateWords };

    ghost view = { λ list. record { width = list.width; words = list.words } };

    ghost invariant = { λ list. list.width ≤ 64 };
}

impl StateList {
    /// No word yet, each to have `width` bits. It takes no memory.
    pub fn new(alloc: Global, width: usize) -> StateList
        requires wide { width ≤ 64 }
        ensures empty { result ≡ record { width = width; words = [] } }
    {
        StateList {
            width,
            words: Items::new(alloc),
        }
    }

    /// Adds a word at the end.
    ///
    /// # Errors
    ///
    /// Want of memory.
    pub fn push(&mut self, word: u64) -> Result<(), AllocError>
        ensures ok { OnOk result (self.new ≡ record self.old { words = self.old.words ++ word ∷ [] }) }
        ensures err { OnErr result (self.new ≡ self.old) }
    {
        self.words.push(word)
    }

    /// The number of words.
    pub fn len(&self) -> usize
        ensures count { result ≡ length self.now.words }
    {
        self.words.len()
    }

    /// The word at `place`, counted from 0.
    pub fn get(&self, place: usize) -> &u64
        requires { place < length self.now.words }
        ensures found { slice_get self.now.words place ≡ Some result.now }
        ensures item { result.now ≡ slice_index self.now.words place }
    {
        self.words.get(place)
    }

    /// The words, in order.
    pub fn as_slice(&self) -> &[u64]
        ensures whole { result.now ≡ self.now.words }
    {
        self.words.as_slice()
    }

    /// The number of bits of a word, at most 64, and 0 without latches.
    pub fn width(&self) -> usize
        ensures width { result ≡ self.now.width }
        ensures limit { result ≤ 64 }
    {
        self.width
    }
}
