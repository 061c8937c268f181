//! Why a netlist doesn't follow its source.

/// The first reason why a netlist, without a fault, doesn't follow its source. A state is its place in the plan's list (0 without
/// latches); an input is a number, with one bit per input of the netlist, the first one most significant.
#[derive(Clone, Copy, Debug, PartialEq, Eq)]
pub enum BehaviourReason {
    /// The bits that the latches hold first aren't the reset state's word.
    Reset,
    /// The bits at the latch inputs are the word of no listed state that the source allows as the next one.
    Next {
        /// The state, by its place in the plan's list.
        state: usize,
        /// The input, the first one most significant.
        input: u64,
    },
    /// The word of the monitored nets is no codeword.
    Word {
        /// The state, by its place in the plan's list.
        state: usize,
        /// The input, the first one most significant.
        input: u64,
    },
    /// An output has a bit that the source doesn't allow.
    Output {
        /// The state, by its place in the plan's list.
        state: usize,
        /// The input, the first one most significant.
        input: u64,
        /// The first such output, by its place.
        bit: usize,
    },
}
