//! Whether words are codewords, 64 of them at once: a place of the word is a lane, which has a bit at each of 64 points.
//! Its main call is `no_codewords`, which answers at which points the word is no codeword of a plan.
//! It stands on `tsc_net` (plans), `fault_secure` (what a codeword is), `lane_sim` (words of bits), `tsc_cover` and `tsc_bits` (what is counted).
//! Its main promise: a point has a 0 exactly where its word is a codeword, under every code, so where it has a 1 the word is none.
//! Its definitions are in `specs/`: Lanes (the bits of lanes at a point, and words that have a 0 exactly where something holds).
#![tactic(auto)]

mod codewords;
mod counting;
mod lanes;
mod parts;

pub use codewords::no_codewords;
pub use lanes::negated;
pub use parts::{checks_part, next_part, outputs_part};
