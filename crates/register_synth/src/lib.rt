//! Synthesis of sources with registers: what is kept of a source, the groups of its outputs, and the laws of its twin.
//! Its main calls are `kept_places` and `register_groups`; its main type is `KeptPlaces`, the registers and covers that are kept.
//! It stands on `register_laws` (twins, parts, what reaches what), `parity_code` (first fit, checks of groups), `tsc_net` and `fault_secure`.
//! Its main promise: a netlist that begins as the twin of what is kept is secure for the source, where it has no ring and its checker decides.
//! Its definitions are in `specs/`: Reaching, Kept (the part that is kept), RegisterGroups, TwinNet, TwinChecker and TwinCircuit (the twin), KeptLaws,
//! TwinLaws, WorkedTwin.
#![tactic(auto)]

mod groups;
mod kept;
mod laws;
mod search;

pub use groups::register_groups;
pub use kept::{KeptPlaces, kept_places};
pub use laws::{
    groups_are_apart, kept_is_a_part, made_twins_are_secure, one_of_each, twins_are_checked,
    twins_are_whole, worked_twin,
};
pub use search::reaching_marks;
