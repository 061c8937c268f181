//! The audit of a netlist with its plan against its source.
ghost use Rattle.std.specs.Prelude.{◌↔◌, ◌<◌, ◌≤◌, None, length, IfOk, IsErrOf};
ghost use Rattle.fault_secure.specs.Circuit.{Circuit, nets};
ghost use Rattle.fault_secure.specs.CodePlan.{CodePlan, IsPlanOf};
ghost use Rattle.fault_secure.specs.Logic.{Logic};
ghost use Rattle.tsc_net.specs.Limits.{most_nets};
ghost use Rattle.audit.specs.Verdict.{audit_points, Behaves, BreaksBehaviour, FitsSource, IsFirstReason, IsVerdict};
ghost use Rattle.structure_audit.specs.StructureReason.{IsStructureAnswer};
ghost use Rattle.audit.specs.Shown.{IsShownIn};
ghost use Rattle.audit.specs.Laws.{IsSecureWhereYes};
ghost use Rattle.tsc_net.specs.SourceView.{logic_of};
ghost use Rattle.behaviour_audit.specs.Meaning.{FitsABench};

use crate::conditions::{checker_reason, structure_reason};
use crate::laws::{accepted_is_secure, verdicts_are_shown};
use crate::shape::{has_too_many_points, shape_reason};
use crate::verdict::{Reason, Verdict};
use behaviour_audit::{BehaviourReason, behaviour_reason};
use std::alloc::{AllocError, Global};
use thiserror::Error;
use tsc_net::{Netlist, Plan, SourceMeaning};

/// Why there is no verdict.
#[derive(Debug, Drop, Error)]
pub enum AuditError {
    /// The source has more than 1,048,576 points, a state and an input each.
    #[error("more than 1048576 points")]
    TooManyPoints,
    /// Memory was missing.
    #[error("out of memory")]
    Memory(AllocError),
}

/// Whether the netlist with its plan is secure for the source: the first condition that doesn't hold, or that all do. It tries each
/// state and input of the source.
///
/// # Errors
///
/// `TooManyPoints` exactly where the source has more than 1,048,576 points, whatever the netlist; want of memory.
pub fn audit(
    alloc: Global,
    source: &SourceMeaning,
    net: &Netlist,
    plan: &Plan,
) -> Result<Verdict, AuditError>
    requires source { FitsABench (logic_of source.now) }
    requires plan { IsPlanOf net.now.circuit plan.now }
    requires latches { length net.now.circuit.latches ≤ 64 }
    requires nets { nets net.now.circuit ≤ most_nets }
    ensures verdict { IfOk result (IsVerdict (logic_of source.now) net.now.circuit plan.now) }
    ensures shown { IfOk result (IsShownIn net.now.circuit) }
    ensures secure { IfOk result (IsSecureWhereYes (logic_of source.now) net.now.circuit plan.now) }
    ensures too_many { IsErrOf result AuditError.TooManyPoints ↔ (1048576 < audit_points (logic_of source.now)) }
{
    accepted_is_secure();
    verdicts_are_shown();
    // What the netlist and the plan keep is known from here on.
    let _nets = net.nets();
    let _order = net.order();
    let _states = plan.states.len();
    if has_too_many_points(source) {
        return Err(AuditError::TooManyPoints);
    }
    verdict_of(alloc, source, net, plan).map_err(AuditError::Memory)
}

/// The verdict where the points are few enough: the first condition that doesn't hold, in their order.
#[tactic(auto, using(crate::proofs::Accepted::first_of_structure, crate::proofs::Accepted::breaks_behaviour, crate::proofs::Accepted::first_of_checker))]
fn verdict_of(
    alloc: Global,
    source: &SourceMeaning,
    net: &Netlist,
    plan: &Plan,
) -> Result<Verdict, AllocError>
    requires source { FitsABench (logic_of source.now) }
    requires plan { IsPlanOf net.now.circuit plan.now }
    requires latches { length net.now.circuit.latches ≤ 64 }
    requires nets { nets net.now.circuit ≤ most_nets }
    requires few { audit_points (logic_of source.now) ≤ 1048576 }
    ensures verdict { IfOk result (IsVerdict (logic_of source.now) net.now.circuit plan.now) }
{
    if let Some(shape) = shape_reason(source, net, plan) {
        return Ok(Verdict::No(Reason::Shape(shape)));
    }
    if let Some(why) = structure_reason(alloc, net, plan)? {
        return Ok(Verdict::No(why));
    }
    if let Some(why) = behaviour_reason(alloc, source, net, plan)? {
        return Ok(Verdict::No(of_behaviour(why)));
    }
    if let Some(why) = checker_reason(alloc, net, plan)? {
        return Ok(Verdict::No(why));
    }
    Ok(Verdict::Yes)
}

/// The reason that is one of the behaviour.
fn of_behaviour(why: BehaviourReason) -> Reason
    ensures reason { (M : Logic) (N : Circuit) (P : CodePlan) → BreaksBehaviour M N P why → IsFirstReason M N P result }
{
    match why {
        BehaviourReason::Reset => Reason::Reset,
        BehaviourReason::Next { state, input } => Reason::Next { state, input },
        BehaviourReason::Word { state, input } => Reason::Word { state, input },
        BehaviourReason::Output { state, input, bit } => Reason::Output { state, input, bit },
    }
}
