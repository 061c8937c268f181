//! The exact audit: any netlist with its plan against its source, decided at every point. No structure is asked for.
//! Its main call is `exact_audit`, which answers an `ExactVerdict`.
//! It stands on `audit` (the shape, and what both audits share), `behaviour_audit` and `unheard_cells`, each of which decides a part, and on the laws of `point_laws`.
//! Its main promise: yes exactly where the netlist fits and follows its source, its rails differ without a fault, and no one failing cell makes a wrong output or next bit without an alarm at any listed state and input; else the first reason. A yes is alarm-secure. A no refutes that where the netlist fits and has no latches, and its source allows one list of outputs (`networks_are_decided_exactly`); elsewhere not by itself.
//! Its definitions are in `specs/`: ExactVerdict (the reasons in their order), ExactLaws (what a verdict gives, and what gives one).
#![tactic(auto)]

mod auditing;
mod laws;
mod verdict;

pub use audit::{AuditError, Shape};
pub use auditing::exact_audit;
pub use behaviour_audit::BehaviourReason;
pub use laws::{
    audited_is_exact, exact_is_alarm_secure, exact_verdict_is_determined,
    networks_are_decided_exactly, no_at_reached_refutes, self_checking_is_exact,
};
pub use tsc_net::SourceMeaning;
pub use unheard_cells::PointReason;
pub use verdict::{ExactReason, ExactVerdict};
