//! A mapping that is read: what is tested of two netlists, clause by clause, and the laws that make these tests a proof, each the contract of a function without a body.
//! Its main definition is `IsReadMapping`: a gate of its own block drives each node's net, blocks read their own gates and the pins of their cover alone, and give the cover's bit on each value.
//! It stands on `mapping_laws` (`IsMapped`, and what it keeps), `register_laws` (what it keeps of netlists with registers), `structure_laws`, `tsc_net` (names, evaluation orders), `fault_secure` and `tsc_cover`.
//! Its main promise: what reads as a mapping is one, and keeps secure (`read_mappings_are_secure`), by names for sources with registers too (`mappings_by_name_stay_secure`).
//! Definitions, in reading order: specs/ReadMapping, ReadMappingLaws, Pins, Blocks, Leads, MovedNets, FoundBlocks, NamedMapping, SmallReadings.
#![tactic(auto)]

mod found_blocks;
mod names;
mod read_mappings;
mod small_readings;

pub use found_blocks::{
    blocks_are_where_gates_lead, first_reasons_are_one, found_blocks_read, gates_lead_to_one_block,
    leading_gates_have_blocks, missed_covers_refute, no_nodes_refute, open_pins_refute,
    owners_and_blocks_are_one, shared_gates_have_two_blocks, shared_gates_refute,
};
pub use names::{first_missing_names_are_one, mappings_by_name_stay_secure, names_move};
pub use read_mappings::{
    evaluation_settles, mappings_give_their_covers, netlists_read_as_themselves,
    read_mappings_are_mappings, read_mappings_are_secure,
};
pub use small_readings::{
    aliases_are_not_read, inverters_are_read, merged_nodes_are_not_read,
    missing_gates_are_not_read, two_constants_are_not_read, wrong_constants_are_not_read,
    wrong_last_values_are_not_read,
};
