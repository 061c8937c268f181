//! Cells of a row of thresholds.

use gate_net::Line;

/// A threshold of a longer list, and what it hands to the next one.
#[derive(Clone, Copy)]
pub struct ThresholdCell {
    /// The line that is 1 where the longer list meets this threshold.
    pub threshold: Line,
    /// The line that is 1 where the next threshold is met by the bit that was added.
    pub carried: Line,
}
