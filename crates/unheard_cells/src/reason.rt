//! What is wrong at a point.

use tsc_net::NetId;

/// What is wrong at the first point at which something is. A state is its place in the plan's list, 0 without latches; an input is a
/// number, one bit per input, the first one most significant.
#[derive(Clone, Copy, Debug, PartialEq, Eq)]
pub enum PointReason {
    /// The rails agree without a fault.
    Quiet {
        /// The state.
        state: usize,
        /// The input.
        input: u64,
    },
    /// A failing cell makes an output or a next bit wrong, and the rails differ.
    Alarm {
        /// The net of the least such cell: of the latches, then of the nodes in text order.
        net: NetId,
        /// The bit that this net hasn't there without a fault.
        value: bool,
        /// The state.
        state: usize,
        /// The input.
        input: u64,
    },
}
