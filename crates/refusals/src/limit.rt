//! The limits that a text or a command may pass.

/// A limit that a text passes by itself.
#[derive(Clone, Copy, Debug, PartialEq, Eq)]
pub enum Limit {
    /// A machine has more than 924 states.
    States,
    /// The covers of the netlist, or the bound on them, exceed 1,048,576.
    Covers,
    /// A netlist has more than 65,536 points to be tried.
    Points,
    /// The source of an audit has more than 1,048,576 points to be tried.
    AuditPoints,
    /// More than 64 netlists are to be joined.
    Parts,
    /// The inputs of netlists that are to be joined have more than 1,024 different names.
    JointInputs,
}

/// A limit of a command, passed by a text that nothing refuses.
#[derive(Clone, Copy, Debug, PartialEq, Eq)]
pub enum OwnLimit {
    /// The functions that are stated for a wide audit have more different cofactors than this number of rows, which it may use.
    Rows(usize),
    /// A cover that was mapped has more than 20 distinct pins, and its gate isn't the very cover.
    Pins,
}
