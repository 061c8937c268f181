//! Single stuck-at faults.

use crate::ids::NetId;

/// A line that is held at one value.
#[derive(Clone, Copy, Debug, PartialEq, Eq)]
pub enum Fault {
    /// The net, wherever it is read, is held at the value.
    Stem {
        /// The net that is held.
        net: NetId,
        /// The bit that it is held at.
        value: bool,
    },
    /// The pin with this index of the node or latch that gives the net `driver` reads the value, whatever its net has.
    Pin {
        /// The net that the node or latch gives.
        driver: NetId,
        /// The pin's place among those of the node, from 0; 0 at a latch.
        index: usize,
        /// The bit that the pin reads.
        value: bool,
    },
}
