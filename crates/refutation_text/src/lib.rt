//! The text of a refutation: its lines are read, and followed with a checker of refutations.
//! Its main call is `follow`, which follows the lines of a text from a place on and answers the first fault, or none where the empty clause came.
//! It stands on `refutations` (the checker), `tsc_text` (the lines of a text, numbers) and `tsc_io` (lists).
//! Its main promise: the answer is exactly that of the lines, and where there is no fault the formula has no model.
//! Its definitions are in `specs/`: Token (what a word says), RefutationLine (what a line says), Following (the state and the fault
//! after each line), Reading (what the code has read of a line), Examples (small lines, computed).
#![tactic(auto)]

mod addition;
mod deletion;
mod fault;
mod following;
mod numbers;
mod token;

pub use fault::RefutationFault;
pub use following::follow;
