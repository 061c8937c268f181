//! Fault grading: what a list of input steps shows of each listed fault of a netlist.
//! Its main call is `grade_faults`, which answers a `GradeList`: of each fault whether its alarm comes first, a wrong output does, or neither.
//! It stands on `fault_lanes` (1,023 faults at once), `sim_text` (the step lines of a text), `grading_laws` (what a grade is), `lane_sim`, `tsc_net`, `fault_secure`, `tsc_cover` and `tsc_bits`.
//! Its main promise: each grade is that of the run with the fault at every step beside the run without one, over all steps.
//! Its definitions are in `specs/`: Grade (grades of the code, and when one is a fault's) and Batch (faults that are graded at once, and how far all are).
#![tactic(auto)]

mod batch;
mod grade;
mod grading;
mod marks;
mod round;
mod seen;
mod stepping;

pub use grade::{Grade, GradeList};
pub use grading::grade_faults;
