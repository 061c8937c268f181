//! Duplex synthesis: from a network to its netlist under one copy, which the checks of all groups of outputs share, and its plan.
//! Its main call is `duplex_netlist`; its main type is `PlannedNetlist` of `tsc_net`, a netlist and its plan.
//! It stands on `parity_synth` (the same groups, names and checker), `parity_code`, `code_checkers`, `net_writing` and `tsc_net`.
//! Its main promise: what it answers is self-checking for its network, and every node, net and name of it is the stated one.
//! Its definitions are in `specs/`: DuplexNet (over CheckedNet of `parity_synth` and GroupChecks of `parity_code`), Composed (by
//! names, over SharedParts of `parity_code`), Duplexable and DuplexLaws.
#![tactic(auto)]

mod checks;
mod composing;
mod duplex_synthesis;
mod laws;
mod shared;

pub use duplex_synthesis::duplex_netlist;
pub use laws::{duplex_is_no_larger, duplex_is_secure, one_duplex_netlist, one_group_is_parity};
