//! A text as netlists one after another, each with its plan and the clock of its registers: the parts of a joint.
//! Its main call is `planned_parts`, which gives a list of `Part`s.
//! It stands on the sections of a text (`text_sections`), on the clocks of `blif_read`, on `module_join` for what a part is, and on `refusals` for what a refusal is.
//! Its main promise: the parts are what the sections denote, a function of the lines, and their clocks are one clock; a refusal is the first one of the lines, or want of memory.
//! Definitions, in reading order: specs/Parts (what the lines denote), PartClocks (which clocks are refused), PartRefusal (what is refused), WorkedParts (two sections, and the clock of the second).
#![tactic(auto)]

mod clocks;
mod parts;
mod sections;

pub use parts::planned_parts;
