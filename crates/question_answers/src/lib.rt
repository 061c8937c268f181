//! What `ask exact` answers to a text: the exact question of the netlist after a network, in DIMACS.
//! Its main call is `ask_exactly`.
//! It stands on `exact_question` and `question_text` for the question and its text, on `audit` for the shape, on `netlist_answers` for what is answered, and on the sections of a text (`text_sections`).
//! Its main promise: the answer is the text of the question, which has no model exactly where, at each input, the netlist follows the network, its rails differ, and each failing cell is heard; or it tells the first reason why no question is asked. An answer is missing only where the text is refused, as an audit refuses it except for its number of points, or where memory is missing.
//! Its definitions are in `specs/`: Refused (what is refused), NoQuestion (the reasons and their lines), QuestionReply (the answers), Laws (that the answer is determined), and of the code alone Sizes.
#![tactic(auto)]

mod asking;
mod laws;
mod reason;

pub use asking::ask_exactly;
pub use laws::one_question_reply;
pub use reason::{NoQuestion, no_question, no_question_text};
