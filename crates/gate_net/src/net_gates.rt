//! Gates with some of their lines.

use crate::gates::Gates;
use crate::line::LineList;

/// Gates, and the lines of them that stand for the outputs, in order.
#[derive(Drop)]
pub struct NetGates {
    /// All gates, in the order in which they were added.
    pub gates: Gates,
    /// A line for each output.
    pub outputs: LineList,
}
