//! Laws on what the commands answer: answers are read again, and accepted by an audit after their source; wrong answers are none.
//! It has no type of its own: each law is a public function without a body.
//! It stands on `text_sections`, `netlist_answers`, `answers` and `made_report`, whose definitions it speaks of, and on `grading_laws` and `mapped_laws`.
//! Its main promise: whatever `synth` answers is a netlist that the other commands read, and an audit of it after its source answers `yes`.
//! Its definitions are in `specs/`: AnswerLaws, MadeLaws, LooseTexts, GradedLaws.
#![tactic(auto)]

mod laws;

pub use laws::{
    alarms_are_simulated, answers_are_accepted, answers_are_read, duplex_text_is_exact,
    grades_are_determined, loose_answers_are_accepted, loose_answers_are_read,
    loose_texts_are_exact, machine_answers_are_accepted, machine_answers_are_read,
    made_reports_are_backed, parity_text_is_exact, secure_netlists_have_no_silent_line,
    tables_are_answered, vectors_are_determined, verdicts_are_right, wrong_answers_are_refused,
    wrong_machine_answers_are_refused,
};
