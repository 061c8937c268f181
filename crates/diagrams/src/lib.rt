//! Reduced ordered decision diagrams over the rows of a pool: functions of at most 1,024 inputs, each function one row.
//! Its main type is `Diagrams`: `variable` and `combine` build functions, without a recursion, `least` finds the first input with a value.
//! It stands on `tsc_pool` and `tsc_bits`.
//! Its main promise: the rows are exactly the different cofactors of the functions that were asked for, so room is spent
//! only where these are more than the rows; and equal functions are one row.
//! Its definitions are in `specs/`: Decisions (rows and the functions that they stand for), Cofactors, Operations, Building
//! (what a call leaves), Least, DecisionRows (rows in words of a pool) and Waiting (the stack of `combine`).
#![tactic(auto)]

mod combining;
mod decision;
mod decision_rows;
mod diagrams;
mod error;
mod laws;
mod least;
mod memo;
mod shortcut;
mod waiting;

pub use diagrams::Diagrams;
pub use error::BuildError;
pub use laws::{equal_functions_are_one_row, rows_are_the_cofactors, short_of_rows};
pub use memo::Operation;
