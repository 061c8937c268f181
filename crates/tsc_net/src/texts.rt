//! Texts, end to end in one list of bytes.
ghost use Rattle.std.specs.Prelude.{◌≡◌, ◌<◌, [], ◌∷◌, ◌++◌, length, OnOk};
ghost use Rattle.tsc_net.specs.Names.{text_at, find_text};

use crate::spans::ListSpan;
use std::alloc::{AllocError, Global};
use std::marker::Model;

/// Texts, end to end in one list of bytes.
#[derive(Drop)]
pub struct Texts {
    bytes: Vec<u8>,
    spans: Vec<ListSpan>,
}

impl Model for Texts {
    ghost use Rattle.std.specs.Prelude.{ℕ, List};

    ghost Value = { List (List ℕ) };

    ghost use Rattle.tsc_net.specs.inner.TextsView.{texts_in, AreInside};

    ghost view = { texts_in };

    ghost invariant = { AreInside };
}

impl Texts {
    /// No text yet. It takes no memory.
    pub fn new(alloc: Global) -> Texts
        ensures empty { result ≡ [] }
    {
        Texts {
            bytes: Vec::new(alloc),
            spans: Vec::new(alloc),
        }
    }

    /// Adds a text at the end.
    ///
    /// # Errors
    ///
    /// Want of memory.
    pub fn push(&mut self, text: &[u8]) -> Result<(), AllocError>
        ensures ok { OnOk result (self.new ≡ self.old ++ text.now ∷ []) }
    {
        let start = self.bytes.len();
        self.bytes.extend_from_slice(text)?;
        let end = self.bytes.len();
        self.spans.push(ListSpan { start, end })?;
        Ok(())
    }

    /// The number of texts.
    pub fn len(&self) -> usize
        ensures count { result ≡ length self.now }
    {
        self.spans.len()
    }

    /// The text at `place`, counted from 0.
    pub fn text(&self, place: usize) -> &[u8]
        requires within { place < length self.now }
        ensures text { result.now ≡ text_at self.now place }
    {
        let span = self.spans[place];
        &self.bytes[span.start..span.end]
    }

    /// The place of the first text that is this one. It goes through the texts.
    pub fn find(&self, text: &[u8]) -> Option<usize>
        ensures found { result ≡ find_text self.now text.now }
    {
        for place in 0..self.len() {
            if text == self.text(place) {
                return Some(place);
            }
        }
        None
    }
}
