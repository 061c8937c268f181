//! The wide audit: any netlist without latches with its plan against a network, whatever the number of inputs.
//! Its main call is `audit_wide`, which answers a `WideVerdict`, or that rows are spent.
//! It stands on `audit` (the conditions that need no point), `wide_diagrams` and `diagrams` (all functions as rows of a diagram).
//! Its main promise: the audit's verdict, except that a latch is a reason under every code. There is none exactly where shape and structure hold, there is no latch, and the stated functions have more different cofactors than there are rows: then `Spent` is answered. Only memory may be missing besides.
//! Its definitions are in `specs/`: WideVerdict (the verdict, and when there is none), Shown (what a verdict names), Laws, FirstWrong and Points (the search for the first wrong input).
#![tactic(auto)]

mod asked;
mod auditing;
mod laws;
mod points;
mod verdict;
mod wrong;

pub use auditing::audit_wide;
pub use laws::{
    self_checking_is_wide_yes, wide_verdict_is_determined, wide_verdicts_are_shown,
    wide_yes_is_secure,
};
pub use verdict::{WideError, WideReason, WideVerdict};
