//! Laws on what `join` answers: a text has one joint, a joint of what was accepted is secure, and what syntheses answered, one after another, is joined.
//! It has no type of its own: each law is a public function without a body.
//! It stands on `answers`, `joint_answers`, `part_reading` (netlists one after another) and `own_mapping_laws` (texts that end after an end line), whose definitions it speaks of, and `register_joints`.
//! Its main promise: the joint of what `synth` answered is secure for its sources, and only a limit of the joint refuses it (`answers_are_joined`).
//! Its definitions are in `specs/`: JoinedAnswers, AcceptedParts.
#![tactic(auto)]

mod laws;

pub use laws::{accepted_parts_are_joined, answers_are_joined, joints_are_determined};
