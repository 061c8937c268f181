//! A row that is out of a pool.
ghost use Rattle.std.specs.Prelude.{◌≡◌};

use std::marker::Model;
use std::mem::size_of;

/// One row of a pool that is out, known by its index. It can't be dropped: `Pool::give` and `Pool::close` spend it.
pub struct Row {
    index: u32,
}

// Each row that is out has one of these, so its size counts.
const _: () = prove!(size_of::<Row>() == 4);

impl Model for Row {
    ghost use Rattle.std.specs.Prelude.{ℕ};

    ghost Value = { ℕ };

    ghost view = { λ row. row.index };
}

impl Row {
    pub(crate) fn new(index: u32) -> Row
        ensures index { result ≡ index }
    {
        Row { index }
    }

    /// The row's index in its pool, from 0.
    pub fn index(&self) -> usize
        ensures index { result ≡ self.now }
    {
        self.index as usize
    }

    /// Ends the row, and gives its index.
    pub(crate) fn spend(self) -> u32
        ensures index { result ≡ self }
    {
        let Row { index } = self;
        index
    }
}
