//! The audit of structure: whether the structure of a netlist with its plan makes one failing cell visible, and the first reason if not.
//! Its main call is `structure_reason`, which answers a `StructureReason` or that there is none.
//! It stands on `tsc_net` (netlists and plans), `fault_secure` (what their structure has to be), `monitored_nets` (what is monitored, and marks) and `net_cones` (cones).
//! Its main promise: no reason exactly where all conditions hold, else the first that fails; of that there is at most one.
//! Its definitions are in `specs/`: StructureReason, the conditions in their order; Marks, Lines and Answers are the search's own.
#![tactic(auto)]

mod audit;
mod laws;
mod lines;
mod marks;
mod pairs;
mod pins;
mod rails;
mod reason;
mod shared;

pub use audit::structure_reason;
pub use laws::structure_reason_is_determined;
pub use reason::StructureReason;
