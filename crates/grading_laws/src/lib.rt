//! Fault grading: what a list of inputs shows of each fault. The laws, each the contract of a function without a body.
//! Its main definition is `IsGrade`: of a fault that is present from the first step on, whether its alarm comes first, a wrong output does, or neither.
//! It stands on `fault_secure` (circuits, faults, runs, plans), `point_laws` and `register_laws` (alarm-secure, netlists with registers), `mapping_laws`, `structure_laws`, `tsc_cover` and `tsc_bits`.
//! Its main promise: of a netlist that is secure no listed fault is silent, over whatever inputs (`secure_has_no_silent_fault`).
//! Definitions, in reading order: specs/Grades, GradeLaws, Counts, SmallGrades.
#![tactic(auto)]

mod laws;

pub use laws::{
    alarms_are_shown, decided_faults_stay, each_fault_has_one_grade, grades_are_counted,
    grades_are_worked_out, latches_are_held, secure_has_no_silent_fault, small_netlists_are_graded,
    vectors_alarm,
};
