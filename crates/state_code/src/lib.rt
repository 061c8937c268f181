//! State words and the logic that a machine's netlist is built from, as gates.
//! Its main call is `codes`, the state words, beside `row_lines`, `decode` and `select`, which add gates.
//! It stands on gate_net, whose gates it adds to, on tsc_net, which has machines, and on fault_secure, which says what their rows answer.
//! Its main promise: the words are the first of least even length with half their bits 1, and on every input and state word the lines that are added are 1 exactly where they are said to be.
//! Definitions: specs/Words.antt (state words), specs/Lines.antt (what the lines are 1 for).
#![tactic(auto)]

mod decoding;
mod error;
mod growing;
mod laws;
mod matching;
mod selecting;
mod words;

pub use decoding::decode;
pub use error::CodeError;
pub use laws::{added_signs, states_select_themselves};
pub use matching::{RowLines, row_lines};
pub use selecting::select;
pub use words::{StateCode, codes};
