//! Mapping cover by cover keeps secure: the laws, each the contract of a function without a body.
//! Its main definitions are `IsMapped`, a netlist with a block of gates for each node of another, and `IsBlockSecure`.
//! It stands on `fault_secure` (circuits, runs, plans, `IsCellSecure`), `structure_laws` (from cells to listed faults) and `tsc_cover` (covers).
//! Its main promise: a netlist that is secure against any one failing cell is, mapped cover by cover, secure against any gates of one block that fail at once (`mapped_is_block_secure`).
//! Definitions, in reading order: specs/Mapping, FailingBlock, MappingLaws, Inverters.
#![tactic(auto)]

mod failing_block;
mod inverters;
mod mapped;
mod mappings;

pub use failing_block::{
    failing_blocks_are_failing_cells, failing_gates_are_failing_cells, mapped_bits,
    moved_plan_is_a_plan, moved_plan_is_well_made,
};
pub use inverters::{
    a_failing_block_does_more, inverters_are_mapped, inverters_are_secure,
    merged_nodes_are_not_mapped, missing_gates_are_not_mapped, open_gates_are_not_mapped,
};
pub use mapped::{
    block_secure_is_cell_secure, mapped_is_block_secure, mapped_is_cell_secure,
    mapped_is_fault_secure,
};
pub use mappings::{constants_have_gates, mappings_join, netlists_are_their_own_mappings};
