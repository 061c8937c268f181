//! The widths of a machine's word.

/// How many outputs, checks and bits of the next state a machine's word has.
#[derive(Clone, Copy)]
pub struct Widths {
    /// The number of outputs.
    pub outputs: usize,
    /// The number of checks.
    pub checks: usize,
    /// The number of bits of a state word.
    pub bits: usize,
}
