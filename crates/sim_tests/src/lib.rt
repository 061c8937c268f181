//! Tests of the public calls of the crates that simulate, and nothing else, so that each of those crates is proved once.
//! Its main tests are those of `sim` and `step_lines`.
//! It stands on the crates whose calls it tests, and on `shared_tests` for netlists.
//! Its promise: each module calls one crate by its public names, and what is expected was worked out by hand or by other programs.
//! It has no definitions; its proofs are only those that its helpers owe.
#![tactic(auto)]

#[cfg(test)]
mod sim;
#[cfg(test)]
mod step_lines;
