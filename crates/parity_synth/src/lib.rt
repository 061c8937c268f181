//! Parity synthesis: from a network to its parity netlist, whose groups of outputs are the first fit, and its plan.
//! Its main type is `PlannedNetlist` of `tsc_net`, a netlist and its plan.
//! It stands on `parity_code`, `code_checkers`, `net_writing` and `tsc_net`.
//! Its main promise: what it answers is self-checking for its network, and every node, net and name of it is the stated one.
//! Its definitions are in `specs/`: CheckedNet (a netlist with foretold checks and its plan), ParityNet (the
//! parity netlist, one of these).
#![tactic(auto)]

mod checks;
mod composing;
mod laws;
mod outline;
mod parity_synthesis;
mod planning;

pub use checks::check_net;
pub use composing::add_checked;
pub use laws::{one_parity_netlist, parity_is_checked};
pub use outline::kept_places;
pub use parity_synthesis::parity_netlist;
pub use planning::{checker_gates, parity_plan};
