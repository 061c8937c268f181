//! Tests of the reader of BLIF that no command shows yet, and nothing else.
//! Its main tests are those of `registers`.
//! It stands on `blif_read`, whose call it tests.
//! Its promise: what is expected was worked out by hand.
//! It has no definitions; its proofs are only those that its helpers owe.
#![tactic(auto)]

#[cfg(test)]
mod registers;
