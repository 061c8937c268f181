//! The audit: any netlist with its plan against its source, wherever the netlist comes from.
//! Its main call is `audit`, which answers a `Verdict`.
//! It stands on `structure_audit`, `behaviour_audit` and `checker_audit`, each of which decides a part, and on the laws of `structure_laws`.
//! Its main promise: yes exactly where every condition holds, else the first one that doesn't, so that there is at most one verdict; and a yes is secure whichever one cell fails.
//! Its definitions are in `specs/`: Verdict (the conditions in their order), Conditions (what is answered of the structure and of the checker alone), Shown (what a verdict names).
#![tactic(auto)]

mod auditing;
mod conditions;
mod laws;
mod shape;
mod verdict;

pub use auditing::{AuditError, audit};
pub use conditions::{checker_reason, structure_reason};
pub use laws::{accepted_is_secure, self_checking_is_accepted, verdict_is_determined};
pub use shape::{has_too_many_points, shape_reason};
pub use tsc_net::SourceMeaning;
pub use verdict::{Reason, Shape, Verdict};
