//! Negations pushed to the inputs: gates with the same values that negate only inputs.
//! Its main function is `push`, over the `Gates` and lines of gate_net.
//! It stands on gate_net.
//! Its main promise: each wanted line keeps its value, without Xor and with Not only over an Input, in few lines.
//! Definitions: specs/Pushed.antt (what is kept), specs/NormalForm.antt (the phases of a signal), specs/Phases.antt (their lines).
#![tactic(auto)]

mod gate_phases;
mod line_phases;
mod normal_form;
mod phases;

pub use normal_form::push;
