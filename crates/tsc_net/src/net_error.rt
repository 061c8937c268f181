//! Why parts are no netlist.

use crate::ids::NameTexts;
use std::alloc::AllocError;
use thiserror::Error;
use tsc_io::Bytes;

/// Why parts are no netlist. Nets are given by their names.
#[derive(Debug, Drop, Error)]
pub enum NetError {
    /// A name stands twice among inputs, latch outputs and nodes, or twice among the outputs.
    #[error("a net is driven or shown twice")]
    Twice { net: Bytes },
    /// A node, a latch or an output reads a name that nothing drives.
    #[error("a net is undriven")]
    Undriven { net: Bytes },
    /// There is no output.
    #[error("there are no outputs")]
    NoOutputs,
    /// Nodes read each other in a ring: each net's node reads the next net, and the last reads the first.
    #[error("nodes read each other in a ring")]
    Cycle { nets: NameTexts },
    /// Memory was missing.
    #[error("out of memory")]
    Memory(AllocError),
}
