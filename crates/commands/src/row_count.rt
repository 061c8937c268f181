//! How many rows a wide audit may use.
ghost use Rattle.std.specs.Prelude.{◌≡◌, ◌≤◌};
ghost use Rattle.commands.specs.Words.{rows_named};

use std::marker::Model;
use tsc_text::number;

/// How many rows a wide audit may use: 2 to 4,194,304.
#[derive(Debug, Drop)]
pub struct RowCount {
    rows: usize,
}

impl Model for RowCount {
    ghost use Rattle.std.specs.Prelude.{ℕ, ◌≤◌};

    ghost Value = { ℕ };

    ghost view = { λ count. count.rows };

    ghost invariant = { λ count. (2 ≤ count.rows) × (count.rows ≤ 4194304) };
}

impl RowCount {
    /// The number itself.
    pub fn get(&self) -> usize
        ensures number { result ≡ self.now }
        ensures some { 2 ≤ result }
        ensures few { result ≤ 4194304 }
    {
        self.rows
    }
}

/// The number of rows that a word names, if it is one from 2 to 4,194,304.
pub(crate) fn rows_named(word: &[u8]) -> Option<RowCount>
    ensures rows { result ≡ rows_named word.now }
{
    let rows = number(word)?;
    if 2 <= rows && rows <= 4194304 {
        Some(RowCount {
            rows: rows as usize,
        })
    } else {
        None
    }
}
