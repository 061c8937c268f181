//! Small netlists with their plans, which several crates of tests share.
//! Its main call is `net_and_plan_of`, which reads a netlist with its plan.
//! It stands on the reader of BLIF, and on `tsc_net` for netlists and plans.
//! Its promise: what is read is a netlist with a plan of it.
//! It has no definitions and no proofs.
#![tactic(auto)]

mod netlists;

pub use netlists::{AND, TOGGLE, net_and_plan_of, network_of};
