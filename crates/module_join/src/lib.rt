//! Netlists under one pair of rails: the joint netlist of netlists with their plans, by names, and that it is secure where each is.
//! Its main definition is `joint_netlist`, a function of the list of parts; a `Part` is a netlist with its plan and its clock.
//! It stands on `tsc_net` (netlists and their names), `code_checkers` (the tree and its gates), `joint_laws` and `register_joints` (what a joint is and keeps).
//! Its main promise: parts that are secure for their sources, logic or with registers, have a joint that is (`joins_are_secure_for_sources`).
//! Definitions, in reading order: specs/TreeNodes, JointNet, JoinLaws, TwoJoined, JoinParts, JoinLimits.
#![tactic(auto)]

mod clocks;
mod inputs;
mod joining;
mod limits;
mod names;
mod part;
mod plans;
mod tree;

pub use clocks::{joint_clock, taken_names};
pub use inputs::joint_inputs;
pub use joining::{
    joins_are_built, joins_are_cell_secure, joins_are_fault_secure,
    joins_are_fault_secure_for_sources, joins_are_joints, joins_are_secure_for_sources,
    joins_leave_the_control,
};
pub use limits::{JoinError, fits};
pub use names::{joint_prefix, own_text, tree_text};
pub use part::Part;
pub use plans::plans_show_netlists;
pub use tree::{tree_is_determined, tree_is_made, tree_nodes_decide};
