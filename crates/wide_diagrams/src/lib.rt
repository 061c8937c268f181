//! All functions that a netlist with its plan and its source state, as rows of a diagram: theirs, the plan's checker's, and where they differ.
//! Its main call is `wide_rows`, which builds them all; `checker_row` builds the gates of a plan's checker over a word.
//! It stands on `circuit_diagrams` (the functions of a circuit), `code_checkers` (the stated checker), `monitored_nets` and `tsc_net`.
//! Its main promise: room is spent exactly where the stated functions have more different cofactors than there can be rows.
//! Its definitions are in `specs/`: Stated (what a checker states), Wide (all of it, and its number of cofactors), GateRows (the walk over gates).
#![tactic(auto)]

mod checkers;
mod differences;
mod gates;
mod operations;
mod wide;

pub use checkers::checker_row;
pub use wide::{WideRows, wide_rows};
