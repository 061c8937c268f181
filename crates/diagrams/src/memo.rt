//! What an operation made of two rows.

/// An operation on two functions.
#[derive(Clone, Copy, PartialEq, Eq)]
pub enum Operation {
    /// 1 where both are.
    And,
    /// 1 where one of them is, or both.
    Or,
    /// 1 where exactly one of them is.
    Xor,
}

/// An operation, two rows, and the row of what it makes of their functions.
#[derive(Clone, Copy)]
pub(crate) struct Memo {
    /// The operation.
    pub operation: Operation,
    /// The first row.
    pub first: u32,
    /// The second row.
    pub second: u32,
    /// The row of the result.
    pub result: u32,
}

/// A memo of what is always so: 0 and 0 are 0.
pub(crate) const NO_MEMO: Memo = Memo {
    operation: Operation::And,
    first: 0,
    second: 0,
    result: 0,
};
