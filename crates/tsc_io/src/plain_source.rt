//! A source of bytes in memory that never fails.
ghost use Rattle.std.specs.Prelude.{◌≡◌, ◌<◌, ◌≤◌, [], ◌++◌, min, length, take, Some, Ok, IfOk};

use crate::failed::Failed;
use crate::front::copy_from;
use crate::items::Bytes;
use crate::source::Source;
use std::marker::Model;

/// A source that gives these bytes and never fails. Contracts see it as the bytes left.
#[derive(Debug, Drop)]
pub struct PlainSource {
    bytes: Bytes,
    start: usize,
}

impl Model for PlainSource {
    ghost use Rattle.std.specs.Prelude.{ℕ, List, ◌≤◌, drop, length};

    ghost Value = { List ℕ };

    ghost view = { λ source. drop source.start source.bytes };

    ghost invariant = { λ source. source.start ≤ length source.bytes };
}

impl PlainSource {
    /// A source of `bytes`.
    pub fn new(bytes: Bytes) -> PlainSource
        ensures left { result ≡ bytes }
    {
        PlainSource { bytes, start: 0 }
    }
}

impl Source for PlainSource {
    ghost left = { λ left. Some left };

    ghost faults = { λ _. 0 };

    ghost calls = { λ _. 0 };

    /// Gives as many bytes as there are and as `into` holds.
    fn read(&mut self, into: &mut [u8]) -> Result<usize, Failed>
        requires { 0 < length into.old }

        // What every source promises of the bytes.
        ensures within { IfOk result (λ count. count ≤ length into.new) }
        ensures came { IfOk result (λ count. self.old ≡ take count into.new ++ self.new) }
        ensures end { IfOk result (λ count. count ≡ 0 → self.new ≡ []) }

        // It never fails, and gives all that fits.
        ensures all { result ≡ Ok (min (length self.old) (length into.old)) }
    {
        let count = copy_from(&self.bytes, self.start, into, into.len());
        self.start += count;
        Ok(count)
    }
}
