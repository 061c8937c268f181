//! The logic of a machine under a Berger or an m-out-of-n code, as gates that negate only inputs.
//! Its main call is `machine_lines`, which gives a line for each place of the monitored word: outputs, checks, the next state's bits.
//! It stands on state_code, whose rows and words it joins, on berger_code and mofn_code for checks, and on gate_net.
//! Its main promise: on every input and state word, codeword or not, each line is 1 exactly where some state whose word's ones are all 1 there answers with a 1 at its place.
//! Definitions: specs/MachineLines.antt (what the lines are 1 for), specs/MachineSize.antt (how much logic a table takes at most), specs/Cases.antt (rows at states, and no row, with what they answer).
#![tactic(auto)]

mod cases;
mod checks;
mod choices;
mod lines;
mod rows;
mod states;
mod widths;

pub use lines::{MachineLines, machine_lines};
