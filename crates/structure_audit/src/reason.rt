//! Why the structure of a netlist with its plan doesn't make a failing cell visible.

use tsc_net::NetId;

/// The first condition on the structure that doesn't hold.
#[derive(Clone, Copy, Debug, PartialEq, Eq)]
pub enum StructureReason {
    /// The rail `net` isn't driven by a node outside the function.
    Rails {
        net: NetId,
    },
    /// A node of the checker, the one that drives the net `node`, reads at the pin, counted from 0, neither the checker nor a monitored net.
    Reads {
        node: NetId,
        pin: usize,
    },
    /// A node of the function, the one that drives the net `node`, reads at the pin, counted from 0, another net than an input with the wrong sign.
    Sign {
        node: NetId,
        pin: usize,
    },
    /// There is a latch, under parity.
    Latched,
    /// Two lines of a parity group, counted from 0, depend on the node that drives the net `node`; the lines are the nets `first` and
    /// `second`, which may be one net at two places of the word.
    Shares {
        group: usize,
        first: NetId,
        second: NetId,
        node: NetId,
    },
}
