//! What every synthesis writes alike: the beginning of a netlist by names, its outputs, and a checker, into `Parts`; and the nets
//! that have fresh names.
//! Its main call is `add_checker`, which writes the gates of a checker over the names of the places of its word.
//! It stands on `code_checkers`, `tsc_net` and `net_building`, which makes the netlist of the parts.
//! Its main promise: the parts that come are exactly stated, by names.
//! Its definitions are in `specs/`: Begun, CheckerParts (a checker by names), Outputs and Rails.
#![tactic(auto)]

mod beginning;
mod checker_gates;
mod checker_writing;
mod fresh_names;
mod outputs;
mod rails;

pub use beginning::begin;
pub use checker_gates::cover_for;
pub use checker_writing::{RailNames, add_checker};
pub use fresh_names::{fresh_nets, fresh_number};
pub use outputs::{add_outputs, output_names};
pub use rails::rails_of;
