//! PLA: reading a table of two-level logic as a source with free bits.
//! Its main call is `read_pla`, which gives a `PlaText`.
//! It stands on `table_lines` for what its lines share with other tables, and on `tsc_net` for networks.
//! Its main promise: both networks are exactly what the text denotes, and a refusal is the first that stands in it, or want of memory.
//! Its definitions are in `specs/`: Selections, RowText, TableText, Networks and Loose say what a text denotes, Faults and Refusal what is refused.
#![tactic(auto)]

mod beginning;
mod directives;
mod error;
mod faults;
mod kinds;
mod networks;
mod nodes;
mod reading;
mod rows;
mod spread;
mod survey;
mod table;

pub use error::PlaError;
pub use reading::{PlaText, read_pla};
