//! A netlist step by step, under a fault that comes and goes.
//! Its main type is `Sim`, which is opened once; no step of it takes memory.
//! It stands on `lane_sim` (the bench that settles), `tsc_net` (netlists, plans, faults) and `fault_secure` (runs).
//! Its main promise: the j-th call of `Sim::step` answers step j of the one run over the inputs given so far.
//! Its definitions are in `specs/`: PlanNets (what is asked of a plan), Sim (what a step answers and leaves), Calls (steps one after the
//! other) and Outcomes (steps that are worked out from states and inputs and not taken).
#![tactic(auto)]

mod batch;
mod outcome;
mod reading;
mod run_law;
mod settling;
mod shown;
mod sim;
mod sim_error;
mod step_view;

pub use outcome::{Outcome, OutcomeList, blank_outcomes};
pub use run_law::{calls_answer_runs, calls_answer_the_run, outcomes_are_calls};
pub use sim::Sim;
pub use sim_error::SimError;
pub use step_view::StepView;
