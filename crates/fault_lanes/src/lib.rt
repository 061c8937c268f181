//! A netlist under 1,023 faults at once: one fault per lane, and one lane without a fault.
//! Its main type is `FaultLanes`, which settles, and takes steps, in 1,024 lanes at once, each under a fault of its own.
//! It stands on `lane_sim` (lanes and their operations), `lane_rows`, `tsc_net` (netlists and faults), `tsc_cover` and `tsc_bits`.
//! Its main promise: in each lane the nets have, step by step, what they have in the run under that lane's fault, present at all steps.
//! Its definitions are in `specs/`: Batch (which fault a lane has), Bench (what a settled bench and a step leave), Runs (steps and the run of each lane), Chains (lanes by the nets where their faults act), Ready (the functions of gates of two pins) and Settling.
#![tactic(auto)]

mod bench;
mod chains;
mod covers;
mod holding;
mod pairs;
mod ready;
mod run_law;
mod settling;
mod states;

pub use bench::FaultLanes;
pub use run_law::{listed_faults_are_at_nets, steps_are_runs, steps_are_the_run};
