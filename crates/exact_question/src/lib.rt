//! The exact question of a network and its netlist as clauses, under parity: laws, each the contract of a function without a body.
//! It has no type of its own. Its main definition is `question`, a function of the source, the netlist and its plan that is linear in their literals.
//! It stands on `fault_secure` (circuits, plans, what follows a source), `point_laws` (heard at points, alarm-secure) and `refutations` (clauses and models).
//! Its main promise: the question has no model exactly where, at each input, the netlist has the source's outputs, its word is a codeword, its rails differ, and no failing cell makes an output wrong while the rails differ (`question_decides`). Of the two unordered codes, whose word is stated by counts, it says nothing; no code writes the clauses yet.
//! Definitions, in reading order: specs/Variables, Rows, Gates, Question, Laws, SmallQuestion.
#![tactic(auto)]

mod laws;

pub use laws::{question_decides, small_question, variables_are_in_order};
