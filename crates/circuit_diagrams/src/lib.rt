//! The functions of circuits as rows of a diagram: all that the nodes state on which some nets depend, and no other.
//! Its main call is `circuit_rows`, which walks a netlist for the sake of some nets and answers their rows.
//! It stands on `cover_diagrams` and `diagrams`, `tsc_net` (netlists) and `net_cones` (cones).
//! Its main promise: each stated function has a row, and rows are added only for the sake of stated functions.
//! Its definitions are in `specs/`: Stated (what circuits state), Steps (what a call leaves), NetRows (the walk's own).
#![tactic(auto)]

mod circuits;
mod inputs;
mod nodes;

pub use circuits::circuit_rows;
