//! The functions of covers as rows of a diagram: what a node makes of its pins' functions.
//! Its main call is `cover_row`.
//! It stands on `diagrams`, `tsc_cover`, `tsc_pool` and `tsc_bits`.
//! Its main promise: the row stands for the cover's truth at the values of its pins' functions, and rows are added only for
//! the sake of the functions that the cover states: running ANDs and ORs, negations of pins read as 0, that of an off-set.
//! Its definitions are in `specs/Covering.antt`.
#![tactic(auto)]

mod covers;
mod literals;
mod ors;
mod rows;

pub use covers::cover_row;
pub use literals::{and_literal, literal_row};
pub use ors::or_of_rows;
pub use rows::and_of_row;
