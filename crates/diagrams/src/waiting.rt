//! Operations that wait for their halves: a stack in place of a recursion, whose depth is the number of inputs.

/// Two rows that wait for what an operation makes of their halves.
#[derive(Clone, Copy)]
pub(crate) struct Waiting {
    /// The one row.
    pub first: u32,
    /// The other row.
    pub second: u32,
    /// The first input that one of them decides.
    pub level: u32,
    /// Whether the row of their low halves is there.
    pub has_low: bool,
    /// The row of their low halves, where it is there.
    pub low: u32,
}

/// What there is to do.
#[derive(Clone, Copy)]
pub(crate) enum Task {
    /// To combine two rows.
    Build {
        /// The one row.
        first: u32,
        /// The other row.
        second: u32,
    },
    /// To go on with the row of what two made.
    Built {
        /// The row.
        row: u32,
    },
}

/// What an advance leads to.
pub(crate) enum Next {
    /// There is more to do.
    Go(Task),
    /// All is done: the row of what was asked for.
    Done(u32),
}
