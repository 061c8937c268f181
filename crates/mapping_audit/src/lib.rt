//! Whether a netlist is another one mapped cover by cover, as it reads, and if not, the first reason.
//! Its main call is `mapped_answer`, which answers a `MappedAnswer`.
//! It stands on `mapping_reading` (what reads as a mapping, and that this keeps secure), `node_lanes` (covers and nodes, 64 points at once), `tsc_net` (netlists and their orders) and `tsc_cover` (covers).
//! Its main promise: a yes is a mapping, so that whatever the first netlist is secure for, the second is, for sources with registers too. Each reason is the first in the stated order: that names differ, or that by these names the second netlist reads as no mapping of the first.
//! Its definitions are in `specs/`: MappedAnswer (the answers in their order), Wide and Covers (covers that are too wide, and those that a block misses), FindingBlocks, Chains and Values (how they are found).
#![tactic(auto)]

mod answer;
mod blocks;
mod chains;
mod covers;
mod distinct;
mod lanes;
mod laws;
mod mapping;
mod missing;
mod moved;
mod names;
mod owners;
mod pins;
mod reason;
mod same_gate;
mod shared;
mod values;
mod wide;

pub use answer::MappedAnswer;
pub use laws::mapped_answer_is_determined;
pub use mapping::mapped_answer;
pub use reason::MappedReason;
