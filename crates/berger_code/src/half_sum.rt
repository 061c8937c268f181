//! Sums of two bits.

use gate_net::Line;

/// The sum of two bits without its carry, and the carry.
#[derive(Clone, Copy)]
pub struct HalfSum {
    /// The sum of the two bits, without the carry.
    pub sum: Line,
    /// The carry.
    pub carry: Line,
}
