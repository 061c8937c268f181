//! Laws on what a synthesis answers to a table that refines another one.
//! It has no type of its own: each law is a public function without a body.
//! It stands on `answers`, `text_sections` and `table_refinement`, whose definitions it speaks of.
//! Its main promise: what `synth pla` answers to a table is secure for each table that this one refines (`refined_answers_are_secure`).
//! Its definitions are in `specs/`: RefinedAnswers.
#![tactic(auto)]

mod laws;

pub use laws::refined_answers_are_secure;
