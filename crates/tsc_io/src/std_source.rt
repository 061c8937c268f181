//! A source over a reader of std.

use crate::failed::Failed;
use crate::source::Source;
use std::io::Read;
use std::marker::Model;

/// A source that reads from `reader`. It tells no bytes, and contracts see its count of faults.
#[derive(Debug, Drop)]
pub struct StdSource<R> {
    reader: R,
    faults: u64,
}

impl<R> Model for StdSource<R> {
    ghost use Rattle.std.specs.Prelude.{ℕ};

    ghost Value = { ℕ };

    ghost view = { λ source. source.faults };
}

impl<R> StdSource<R> {
    ghost use Rattle.std.specs.Prelude.{◌≡◌};

    /// A source over `reader`, with no fault yet.
    pub fn new(reader: R) -> StdSource<R>
        ensures fresh { result ≡ 0 }
    {
        StdSource { reader, faults: 0 }
    }
}

impl<R: Read> Source for StdSource<R> {
    ghost use Rattle.std.specs.Prelude.{None};

    ghost left = { λ _. None };

    ghost faults = { λ faults. faults };

    ghost calls = { λ _. 0 };

    /// Reads once. Each error counts a fault.
    fn read(&mut self, into: &mut [u8]) -> Result<usize, Failed> {
        if let Ok(count) = self.reader.read(into) {
            return Ok(count);
        }
        self.faults = self.faults.saturating_add(1);
        Err(Failed)
    }
}
