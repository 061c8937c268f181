//! Cells that fail unheard: the first point of a netlist with its plan at which the rails agree without a fault, or one failing cell makes a wrong output or a wrong next bit while they differ.
//! Its main call is `point_reason`, which tries each cell at every listed state and input, its net held at 0 and at 1, 1,024 points at once.
//! It stands on `lane_sim` (the bench of faults), `point_laws` (what is asked of points, and why held stems are enough), `net_cones` (cones) and `tsc_net` (netlists and plans).
//! Its main promise: no reason exactly where the netlist is heard at its points, whatever its structure, and else the first one, with its point, its least cell and the bit that the cell's net hasn't there.
//! Its definitions are in `specs/`: PointReason (what is answered), Worked (a small netlist and its answer); There, Spans and Trial are of the code.
#![tactic(auto)]

mod answering;
mod batches;
mod cells;
mod comparing;
mod laws;
mod opening;
mod reason;
mod spans;
mod stems;
mod trial;
mod watched;

pub use answering::point_reason;
pub use laws::{point_reason_is_determined, worked_point_reason};
pub use reason::PointReason;
