//! Parity groups and their predictors: which outputs share no node, and copies of their logic that foretell their parity.
//! Its main type is `Grouping`, the groups of a network's outputs, as lists of their places.
//! It stands on `net_cones` (what nets depend on), `tsc_net` (netlists and parts) and `fault_secure`.
//! Its main promise: groups are the first fit, and `add_predictors` adds exactly the stated nodes.
//! Its definitions are in `specs/`: Cones, FirstFit, Predictors (by names), Copy, Chain, ParityFunction, ParityCircuit, GroupChecks
//! (over one copy), Foretold (what secures either).
#![tactic(auto)]

mod first_fit;
mod group_cones;
mod laws;
mod predictors;

pub use first_fit::{Grouping, groups};
pub use group_cones::group_places;
pub use laws::worked_predictor;
pub use predictors::{add_nodes, add_parity, add_predictors, copy_names, output_names};
