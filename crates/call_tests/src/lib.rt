//! Tests of the public calls of the crates that read, count and write logic, and nothing else, so that each of those crates is proved once.
//! Its main tests are those of `lists_and_devices` and `gates`.
//! It stands on the crates whose calls it tests.
//! Its promise: each module calls one crate by its public names, and what is expected was worked out by hand or by other programs.
//! It has no definitions; its proofs are only those that its helpers owe.
#![tactic(auto)]

#[cfg(test)]
mod berger;
#[cfg(test)]
mod cover;
#[cfg(test)]
mod gates;
#[cfg(test)]
mod kiss;
#[cfg(test)]
mod lines;
#[cfg(test)]
mod lists_and_devices;
#[cfg(test)]
mod mofn;
#[cfg(test)]
mod negations;
#[cfg(test)]
mod pla;
#[cfg(test)]
mod pool;
#[cfg(test)]
mod states;
