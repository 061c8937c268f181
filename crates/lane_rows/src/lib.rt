//! Rows for the nets of a netlist that is evaluated along its order: a row is used again once its net isn't needed.
//! Its main type is `Assignment`: the row of each net, and the number of rows.
//! It stands on `tsc_net`.
//! Its main promise: rows stay apart while their nets are alive, and there are exactly as many as nets are alive at once.
//! Its definitions are in `specs/`: Alive (which nets are alive, and the peak) and Rows (what rows keep).
#![tactic(auto)]

mod assignment;
mod laws;
mod needs;
mod row_table;

pub use assignment::{Assignment, assigned};
pub use laws::{alive_rows_apart, needed_before};
