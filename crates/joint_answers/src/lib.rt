//! What `join` answers to a text: the joint of the netlists that stand in it one after another, under one pair of rails.
//! Its main call is `joint_in`.
//! It stands on the sections of a text (`text_sections`), on `part_reading`, which reads the netlists, on `joint_text`, which makes the joint and its text, and on `refusals` for what a refusal is.
//! Its main promise: the answer is the text of the joint of the netlists, and where each of them is secure for its source, logic or a circuit with registers, the joint is so for these sources; a refusal is the first one of the text, or want of memory.
//! Its definitions are in `specs/`: JointParts (what the text denotes, and what is refused of it), JointReply (the answer).
#![tactic(auto)]

mod answering;

pub use answering::joint_in;
