//! What a command answers to a text with a netlist in it: its fault list, its test vectors, its run, the grades of its faults, or the verdict of an audit; and what is printed, a joint too.
//! Its main calls are `listed_netlist`, `test_vectors`, `graded_netlist`, `audit_text` and `print_simulation`; a `Printout` is what is printed, by `write_printout`.
//! It stands on the sections of a text (`text_sections`), the simulation, the test vectors, the grades of faults (`fault_grades`), the audit, the text of a joint (`joint_text`), and a page in front of a sink (`buffered_sink`).
//! Its main promise: an answer is exactly what its definition says of the bytes; a refusal is the first one of the text, or want of memory. What is written (of a simulation, with what waits in the page) is exactly the answer, or some first bytes of it where the sink failed.
//! Its definitions are in `specs/`: Answers, Refused, FaultList, VectorList, GradeText and VerdictText for the texts, Simulated for a run, Devices for what a sink gained, Printout and SimEnds for what goes out as it is made.
#![tactic(auto)]

mod auditing;
mod fault_list;
mod fault_words;
mod grade_list;
mod grading;
mod listed;
mod printing;
mod printout;
mod reply;
mod simulating;
mod testing;
mod vector_list;
mod verdict_line;

pub use auditing::{
    AuditSource, audit_source, audit_text, behind_source, meaning_of, netlist_behind,
};
pub use grading::graded_netlist;
pub use listed::listed_netlist;
pub use printing::write_printout;
pub use printout::Printout;
pub use reply::{Reply, finished};
pub use simulating::print_simulation;
pub use testing::test_vectors;
pub use verdict_line::{push_count, push_point, push_reason, push_told, shape_text, verdict_text};
