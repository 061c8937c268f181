//! The audit of checkers: whether the checker of any netlist with its plan decides the code, and if not, the first reason.
//! Its main call is `checker_reason`, which answers a `CheckerReason`.
//! It stands on `code_checkers` (the stated checker), `code_lanes` and `node_lanes` (codewords and nodes, 64 points at once), `structure_laws`, `monitored_nets` (what is monitored, and marks), `net_cones` (cones) and `tsc_net` (netlists and plans).
//! Its main promise: none means code-disjoint, or that the rails realise the stated checker; a reason is the first value that is misjudged, or the first net that doesn't fit its gate.
//! Definitions: specs/CheckerAnswer.antt (what is answered), Misjudged.antt (values), FirstMisfit.antt (gates); Matching and Program say how.
#![tactic(auto)]

mod asked;
mod distinct;
mod gate_fit;
mod judging;
mod laws;
mod program;
mod reason;
mod walk;

pub use laws::{checker_reason_is_determined, mismatches_are_determined};
pub use reason::{CheckerReason, checker_reason};
pub use walk::first_mismatch;
