//! What a checker answers to an addition.

/// What a checker answers to an addition: that its hints are followed, or the first cause why not.
#[derive(Clone, Copy, Debug, PartialEq, Eq)]
pub enum Answer {
    /// The hints lead to a clause that is false where the added one is.
    Followed,
    /// The number isn't above all before it.
    OldNumber,
    /// A literal's variable isn't one of the checker's.
    NoVariable,
    /// A hint is the number of no clause alive.
    NoClause,
    /// A hint's clause leaves two different literals.
    TwoLiterals,
    /// The hints end without a clause that is false.
    Unfinished,
}
