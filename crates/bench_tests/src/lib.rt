//! Tests of the public calls of the crates that settle, find test vectors and check, and nothing else, so that each of those crates is proved once.
//! Its main tests are those of `bench`.
//! It stands on the crates whose calls it tests, and on `shared_tests` for netlists.
//! Its promise: each module calls one crate by its public names, and what is expected was worked out by hand or by other programs.
//! It has no definitions and no proofs.
#![tactic(auto)]

#[cfg(test)]
mod bench;
#[cfg(test)]
mod checkers;
#[cfg(test)]
mod put_lanes;
#[cfg(test)]
mod rows;
#[cfg(test)]
mod test_vectors;
#[cfg(test)]
mod unheard;
