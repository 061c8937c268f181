//! What is tried at the points.

/// What is tried at all points before the next condition is.
#[derive(Clone, Copy)]
pub(crate) enum Condition {
    /// The bits at the latch inputs are the word of a listed state that the source allows as the next one.
    NextState,
    /// The word is a codeword, and each output is one that the source allows.
    WordAndOutputs,
}
