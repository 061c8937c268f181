//! The twin of a source with registers: from the source to its netlist by names, and its plan.
//! Its main type is `Numbered`, a netlist by the numbers of its nets, as it is collected.
//! It stands on `register_synth` (what is kept, groups), `code_checkers`, `net_building` and `tsc_net`.
//! Its main promise: what it answers is the stated twin of the source, node by node, with its plan.
//! Its definitions are in `specs/`: TwinNetlist (the promise), Numbered, Pushed, Table, Checks and TwinGates.
#![tactic(auto)]

mod building;
mod checker;
mod checks;
mod composing;
mod copies;
mod covers;
mod gates;
mod making;
mod names;
mod naming;
mod numbered;
mod planning;
mod tables;
mod twin;

pub use building::net_of_numbers;
pub use checks::{check_nets, push_checks};
pub use covers::{push_covers, push_latches};
pub use names::{fresh_number, push_first_names, push_fresh_names, push_names};
pub use numbered::{Numbered, NumberedLatch, NumberedNode};
pub use tables::{copied_table, own_table};
pub use twin::{TwinNetlist, twin_netlist};
