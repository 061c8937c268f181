//! Gates of a checker.

/// A gate of a checker. It reads earlier places of the list that it stands in.
#[derive(Clone, Copy, Debug, PartialEq, Eq, Hash)]
pub enum CheckGate {
    /// The bit at a place of the monitored word: the outputs, the checks, the nets at the latch inputs.
    Word { place: usize },
    /// The same bit.
    Buf { a: usize },
    /// The other bit.
    Not { a: usize },
    /// 1 where both are.
    And { a: usize, b: usize },
    /// 1 where at least one of the two is.
    Or { a: usize, b: usize },
    /// 1 where the two differ.
    Xor { a: usize, b: usize },
}
