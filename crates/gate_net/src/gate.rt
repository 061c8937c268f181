//! Gates.

use crate::line::Line;

/// A gate of at most two operands, which are earlier lines of the gates that it stands in.
#[derive(Clone, Copy, Debug, PartialEq, Eq, Hash)]
pub enum Gate {
    /// 0.
    Zero,
    /// 1.
    One,
    /// The bit of an input, counted from 0.
    Input { i: usize },
    /// A bit of the state, counted from 0.
    State { i: usize },
    /// The other bit.
    Not { a: Line },
    /// 1 where both are.
    And { a: Line, b: Line },
    /// 1 where at least one of the two is.
    Or { a: Line, b: Line },
    /// 1 where the two differ.
    Xor { a: Line, b: Line },
}
