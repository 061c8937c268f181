//! Laws on tables that use the freedom of others: what is secure for a minimised table is secure for the table that it was made of.
//! It has no type of its own: each law is a public function without a body. Its main definition is `Refines`, over what two tables say.
//! It stands on `source_laws` (sources that allow less), `table_laws` and `pla_read` (what a text of a table denotes, and when it is refused), `tsc_net`, `fault_secure` and `point_laws`.
//! Its main promise: a netlist that is secure for a table that only uses the freedom of another is secure for that one (`refined_tables_are_enough`).
//! Definitions, in reading order: specs/TableRefinement, Unfreed, SmallRefinement (two tables that are compared by hand).
#![tactic(auto)]

mod refined;
mod unfreed;

pub use refined::{
    refined_tables_allow_less, refined_tables_are_enough, small_tables_refine,
    texts_are_networks_of_their_tables,
};
pub use unfreed::{type_f_frees_nothing, unfreed_tables_are_networks};
