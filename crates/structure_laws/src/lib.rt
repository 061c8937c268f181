//! From the structure of a netlist to secure against any one failing cell, and to fault-secure: the laws, each the contract of a function without a body.
//! Its main definitions are `IsCellSecure` and `IsFaultSecure` of `fault_secure`, which the laws conclude.
//! It stands on `fault_secure` (circuits, faults, runs, plans), `tsc_cover` (covers) and `tsc_bits` (lists of bits).
//! Its main promise: a netlist of sound structure that follows its source is secure, whatever any one cell gives at any steps (`sound_is_cell_secure`).
//! Its definitions are the laws' statements in `specs/`; those that they speak of are in `fault_secure`.
#![tactic(auto)]

mod cell_secure;
mod cone;
mod disjoint_cones;
mod exposing;
mod failing_cell;
mod fault_list;
mod first_error;
mod loose_source;
mod one_way;
mod small_netlist;
mod sound_structure;
mod test_points;
mod toggle_machine;
mod unordered;

pub use cell_secure::{cell_secure_is_fault_secure, safe_is_cell_secure, sound_is_cell_secure};
pub use cone::outside_the_cone;
pub use disjoint_cones::{
    checkers_are_decided_by_words, nodes_outside_the_checker, nodes_outside_the_function,
    one_change_in_a_group, parity_errors_show, rails_follow_the_word,
};
pub use exposing::{
    a_pin_is_first_exposed, an_idle_pin_is_exposed_nowhere, the_small_netlist_is_self_testing,
};
pub use failing_cell::{
    cells_settle_as_held_stems, listed_faults_are_failing_cells, one_run_but_a_cell,
};
pub use fault_list::each_listed_fault_once;
pub use first_error::{first_error_shows, no_wrong_codeword};
pub use loose_source::{networks_follow_with_free_bits, sound_under_any_version};
pub use one_way::one_way_errors;
pub use small_netlist::{the_small_netlist_is_cell_secure, the_small_netlist_is_fault_secure};
pub use sound_structure::{sound_is_fault_secure, sound_structure_shows_errors};
pub use test_points::{exposed_faults_alarm, latent_faults_change_no_word};
pub use toggle_machine::{a_failing_cell_does_more, toggle_is_cell_secure, toggle_is_fault_secure};
pub use unordered::unordered_codes;
