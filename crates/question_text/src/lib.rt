//! The exact question of a network and its netlist as text: the code that writes the clauses.
//! Its main calls are `question_text`, which writes the question in DIMACS, and `question_checker`, which answers a checker of refutations that holds its clauses.
//! It stands on `exact_question` (what the question is), `tsc_net` (netlists and plans), `refutations` (literals, and the checker) and `tsc_text` (numbers as words).
//! Its main promise: the text is the one that is stated of the source, the netlist and its plan, byte for byte; and the checker holds the question, clause for clause.
//! Definitions, in reading order: specs/Text (the text), SmallText (a worked one), Giving (a checker that holds the question), and of the code alone Gates, Covers, Nodes, Failing, Reasons, Whole, Groups, Lines.
#![tactic(auto)]

mod cells;
mod clauses;
mod covers;
mod failing;
mod gates;
mod giving;
mod laws;
mod nodes;
mod numbers;
mod parts;
mod reasons;
mod rows;
mod tables;
mod text;
mod writer;

pub use clauses::{Clauses, Literals};
pub use giving::question_checker;
pub use laws::small_text;
pub use writer::question_text;
