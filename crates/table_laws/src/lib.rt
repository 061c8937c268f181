//! Laws on texts of tables: what the two networks are that such a text denotes, known of the text alone.
//! It has no type of its own: each law is a public function without a body.
//! It stands on `pla_read` (what a text of a table denotes, and when it is refused), `tsc_net` and `net_building` (names, sound netlists) and `table_lines`.
//! Its main promise: where nothing refuses a text of a table, both its networks answer what the table says (`tables_answer`).
//! Its definitions are in `specs/`: TableLaws, and SmallTable (a table whose answers are worked out).
#![tactic(auto)]

mod laws;

pub use laws::{small_table_answers, tables_answer, tables_are_built, tables_are_loose_sources};
