//! Laws on what a synthesis answers, twice in a row: it is mapped to itself. And on mappings of it.
//! It has no type of its own: each law is a public function without a body.
//! It stands on `answers`, `answer_laws` (texts in a row) and `mapped_laws` (netlists that are mapped to themselves), whose definitions it speaks of.
//! Its main promise: `audit mapped` answers `yes` to what `synth` answers to a network, a machine or a table, twice in a row (`answers_are_their_own_mappings`); a mapping of what a synthesis of two copies answered is secure for the source (`mapped_twins_are_secure`).
//! Its definitions are in `specs/`: OwnMappings, MappedTwins.
#![tactic(auto)]

mod laws;

pub use laws::{
    answers_are_their_own_mappings, loose_answers_are_their_own_mappings,
    machine_answers_are_their_own_mappings, mapped_twins_are_secure,
};
