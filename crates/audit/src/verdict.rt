//! The verdict of an audit.

use tsc_net::NetId;

/// What a netlist has another number of than its source.
#[derive(Clone, Copy, Debug, PartialEq, Eq)]
pub enum Shape {
    /// Inputs.
    Inputs,
    /// Outputs, without the rails.
    Outputs,
    /// States; a plan that lists none counts as one.
    States,
}

/// Why an audit says no: the first condition that doesn't hold. Nodes are by the nets that they drive; a state is its place in the
/// plan's list, 0 without latches; an input is a number, with one bit per input of the netlist, the first one most significant. Groups,
/// pins and bits count from 0.
#[derive(Clone, Copy, Debug, PartialEq, Eq)]
pub enum Reason {
    /// The netlist has another number of these than its source.
    Shape(Shape),
    /// The rail is driven by no node outside the function.
    Rails {
        /// The net of the rail.
        net: NetId,
    },
    /// A pin of the checker reads neither the checker nor a monitored net.
    Reads {
        /// The net that the node of the checker drives.
        node: NetId,
        /// The place of the pin at that node, from 0.
        pin: usize,
    },
    /// A pin of the function that reads another net than an input has the wrong sign.
    Sign {
        /// The net that the node of the function drives.
        node: NetId,
        /// The place of the pin at that node, from 0.
        pin: usize,
    },
    /// There is a latch, under parity.
    Latched,
    /// Two lines of a parity group depend on a common node.
    Shares {
        /// The place of the group in the plan, from 0.
        group: usize,
        /// The net of the one line.
        first: NetId,
        /// The net of the other line, which may be the same net.
        second: NetId,
        /// The net that the common node drives.
        node: NetId,
    },
    /// The latches don't begin with the word of the reset state.
    Reset,
    /// The next bits are the word of no listed state that the source allows.
    Next {
        /// The place of the state in the plan's list, from 0; 0 without latches.
        state: usize,
        /// The bits of the inputs, as a number.
        input: u64,
    },
    /// The monitored word is no codeword.
    Word {
        /// The place of the state in the plan's list, from 0; 0 without latches.
        state: usize,
        /// The bits of the inputs, as a number.
        input: u64,
    },
    /// An output has a bit that the source doesn't allow.
    Output {
        /// The place of the state in the plan's list, from 0; 0 without latches.
        state: usize,
        /// The bits of the inputs, as a number.
        input: u64,
        /// The place of the output, from 0.
        bit: usize,
    },
    /// The checker misjudges a value of the distinct monitored nets, as a number of `width` bits.
    CheckerWord {
        /// The value, as a number.
        value: u64,
        /// How many distinct nets are monitored.
        width: usize,
    },
    /// A net of the checker doesn't fit its gate.
    CheckerNet {
        /// The first such net.
        net: NetId,
    },
}

/// The verdict of an audit.
#[derive(Clone, Copy, Debug, PartialEq, Eq)]
pub enum Verdict {
    /// Every condition holds.
    Yes,
    /// The first condition that doesn't.
    No(Reason),
}
