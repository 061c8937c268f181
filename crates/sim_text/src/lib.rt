//! A simulation as the lines that are printed.
//! Its main call is `simulate`, which runs a netlist over the step lines of a text and prints one line per step, as it comes to it.
//! It stands on `fault_sim` (a netlist step by step), `tsc_net` (netlists, plans, faults), `fault_secure` (runs), `tsc_text` (the
//! lines of a text) and `buffered_sink` (printing).
//! Its main promise: what is printed is the text of the one run over the steps, under the fault at the steps at which it is
//! present; where the sink fails, a first part of it; and nothing where memory is missing.
//! Its definitions are in `specs/`: StepLines (the step lines of a text), StepLine (the line of a step, the lines of a run),
//! Printed (the run, and what of it was printed), Tables and Batches (steps that are worked out before they are taken).
#![tactic(auto)]

mod all_inputs;
mod batches;
mod latch_word;
mod run_error;
mod simulation;
mod state_walk;
mod step_line;
mod step_word;
mod steps;
mod stepwise;
mod tables;
mod widths;

pub use run_error::RunError;
pub use simulation::simulate;
pub use step_line::{print_bits, push_bits};
pub use steps::StepLines;
