//! Why a refutation isn't followed.

/// Why a refutation isn't followed: the first cause by lines. A line's number is that of its first physical line, from 1.
#[derive(Clone, Copy, Debug, PartialEq, Eq)]
pub enum RefutationFault {
    /// A line is no addition and no deletion, or its number or a variable isn't allowed.
    Shape {
        /// The line's number.
        line: usize,
    },
    /// A hint or a deletion names no clause that is alive.
    NoClause {
        /// The line's number.
        line: usize,
    },
    /// A hint is negative or leaves two literals, or the hints end without a false clause.
    Hint {
        /// The line's number.
        line: usize,
    },
    /// There is no line.
    NoRefutation,
    /// The lines end before the empty clause.
    Unfinished,
}
