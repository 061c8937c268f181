//! KISS2: reading a state machine.
//! Its main call is `read_kiss`, which gives a `KissText`.
//! It stands on `tsc_text` for lines, on `table_lines` for what the lines of a table share, and on `tsc_net` for machines.
//! Its main promise: what is read is exactly what the text denotes, and a refusal is the first that stands in it, or want of memory.
//! Its definitions are in `specs/`: Selections, TableText and NamesText say what a text denotes, Faults, Conflict and Refusal what is refused.
#![tactic(auto)]

mod conflicts;
mod directives;
mod error;
mod faults;
mod groups;
mod kinds;
mod machines;
mod names;
mod reading;
mod resets;
mod rows;
mod survey;
mod table;

pub use error::KissError;
pub use reading::{KissText, read_kiss};
