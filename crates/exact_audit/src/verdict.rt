//! The verdict of an exact audit.

use audit::Shape;
use behaviour_audit::BehaviourReason;
use unheard_cells::PointReason;

/// Why an exact audit says no: the first condition that doesn't hold.
#[derive(Clone, Copy, Debug, PartialEq, Eq)]
pub enum ExactReason {
    /// The netlist has another number of these than its source.
    Shape(Shape),
    /// Without a fault it doesn't follow its source.
    Behaviour(BehaviourReason),
    /// At a point its rails agree without a fault, or a failing cell is unheard.
    Point(PointReason),
}

/// The verdict of an exact audit.
#[derive(Clone, Copy, Debug, PartialEq, Eq)]
pub enum ExactVerdict {
    /// Every condition holds.
    Yes,
    /// The first condition that doesn't.
    No(ExactReason),
}
