//! Laws on what `audit wide` answers, beside the other commands.
//! It has no type of its own: each law is a public function without a body.
//! It stands on `answers`, and on `answer_laws` for a text of a source and a netlist in a row.
//! Its main promise: what a synthesis answers to a network is accepted after it, whatever the number of inputs, where there are rows enough. What a wide audit answers of a netlist without latches, an audit answers too, except for its limit on points.
//! Its definitions are in `specs/`: WideLaws.
#![tactic(auto)]

mod laws;

pub use laws::{wide_answers_are_accepted, wide_replies_are_replies};
