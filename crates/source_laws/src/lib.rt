//! Laws on sources that allow less: what is secure for a source is as secure for each source that allows all that it allows.
//! It has no type of its own: each law is a public function without a body. Its main definition is `AllowsLess`, refinement in the field's word.
//! It stands on `fault_secure` (sources, what they allow, secure in each sense) and `point_laws` (alarm-secure).
//! Its main promise: a netlist that is secure for a source that allows less is secure for the one that allows more (`a_source_that_allows_less_is_followed`).
//! Definitions, in reading order: specs/AllowsLess, LooseRefinement.
#![tactic(auto)]

mod less;
mod loose;

pub use less::{a_source_that_allows_less_is_followed, refinements_chain};
pub use loose::{
    refined_sources_allow_less, sources_without_free_bits_are_networks, version_one_frees_nothing,
};
