//! Why a netlist doesn't read as another one mapped cover by cover.

/// Why a netlist doesn't read as another one mapped cover by cover: the first condition that doesn't hold, in this order.
#[derive(Clone, Copy, Debug, PartialEq, Eq)]
pub enum MappedReason {
    /// The inputs haven't the same names.
    Inputs,
    /// The latches don't read and give nets of the same names, or don't begin with the same bits.
    Latches,
    /// The outputs haven't the same names.
    Outputs,
    /// The first node whose net's name isn't that of a net that a gate drives.
    Net {
        node: usize,
    },
    /// The first gate without a node of its own that gates of two blocks read; where there are gates and no node, the first gate.
    NoBlock {
        gate: usize,
    },
    /// The first gate, and its first pin, at a net that is neither its block's own nor at a pin of its block's cover.
    NoPin {
        gate: usize,
        pin: usize,
    },
    /// The first node whose block doesn't give its cover's bit on some value of the cover's distinct pins, the least such value, the first
    /// pin most significant, and how many these pins are.
    NoCover {
        node: usize,
        value: u32,
        width: usize,
    },
}
