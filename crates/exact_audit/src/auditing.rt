//! The exact audit of a netlist with its plan against its source.
ghost use Rattle.std.specs.Prelude.{◌↔◌, ◌<◌, ◌≤◌, None, length, IfOk, IsErrOf};
ghost use Rattle.fault_secure.specs.Circuit.{nets};
ghost use Rattle.fault_secure.specs.CodePlan.{IsPlanOf};
ghost use Rattle.fault_secure.specs.Logic.{inputs_of};
ghost use Rattle.tsc_net.specs.Limits.{most_nets};
ghost use Rattle.tsc_net.specs.SourceView.{logic_of};
ghost use Rattle.behaviour_audit.specs.Meaning.{FitsABench};
ghost use Rattle.audit.specs.Verdict.{audit_points, FitsSource};
ghost use Rattle.exact_audit.specs.ExactLaws.{IsAlarmSecureWhereYes};
ghost use Rattle.exact_audit.specs.ExactVerdict.{FitsAndFollows, IsExactIn, IsExactVerdict};

use crate::laws::{exact_is_alarm_secure, exact_verdicts_are_shown};
use crate::verdict::{ExactReason, ExactVerdict};
use audit::{AuditError, has_too_many_points, shape_reason};
use behaviour_audit::behaviour_reason;
use std::alloc::{AllocError, Global};
use tsc_net::{Netlist, Plan, SourceMeaning};
use unheard_cells::point_reason;

/// Whether the netlist follows its source, and no one failing cell makes a wrong output or next bit without an alarm, decided at every
/// listed state and input: the first condition that doesn't hold, or yes. It tries each point of the source, and at each of them each
/// cell, its net held at 0 and at 1. Nothing is asked of the netlist's structure.
///
/// # Errors
///
/// `TooManyPoints` exactly where the source has more than 1,048,576 points, whatever the netlist; want of memory.
pub fn exact_audit(
    alloc: Global,
    source: &SourceMeaning,
    net: &Netlist,
    plan: &Plan,
) -> Result<ExactVerdict, AuditError>
    requires source { FitsABench (logic_of source.now) }
    requires plan { IsPlanOf net.now.circuit plan.now }
    requires latches { length net.now.circuit.latches ≤ 64 }
    requires nets { nets net.now.circuit ≤ most_nets }
    ensures verdict { IfOk result (IsExactVerdict (logic_of source.now) net.now.circuit plan.now) }
    ensures shown { IfOk result (IsExactIn net.now.circuit) }
    ensures secure { IfOk result (IsAlarmSecureWhereYes (logic_of source.now) net.now.circuit plan.now) }
    ensures too_many { IsErrOf result AuditError.TooManyPoints ↔ (1048576 < audit_points (logic_of source.now)) }
{
    exact_is_alarm_secure();
    exact_verdicts_are_shown();
    // What the netlist and the plan keep is known from here on.
    let _nets = net.nets();
    let _order = net.order();
    let _states = plan.states.len();
    if has_too_many_points(source) {
        return Err(AuditError::TooManyPoints);
    }
    verdict_of(alloc, source, net, plan).map_err(AuditError::Memory)
}

/// The verdict where the points are few enough: the first condition that doesn't hold, in their order.
#[tactic(auto, using(crate::proofs::Points::points_of_source))]
fn verdict_of(
    alloc: Global,
    source: &SourceMeaning,
    net: &Netlist,
    plan: &Plan,
) -> Result<ExactVerdict, AllocError>
    requires source { FitsABench (logic_of source.now) }
    requires plan { IsPlanOf net.now.circuit plan.now }
    requires latches { length net.now.circuit.latches ≤ 64 }
    requires nets { nets net.now.circuit ≤ most_nets }
    requires inputs { inputs_of (logic_of source.now) ≤ 20 }
    requires few { audit_points (logic_of source.now) ≤ 1048576 }
    ensures verdict { IfOk result (IsExactVerdict (logic_of source.now) net.now.circuit plan.now) }
{
    if let Some(shape) = shape_reason(source, net, plan) {
        return Ok(ExactVerdict::No(ExactReason::Shape(shape)));
    }
    if let Some(why) = behaviour_reason(alloc, source, net, plan)? {
        return Ok(ExactVerdict::No(ExactReason::Behaviour(why)));
    }
    if let Some(why) = point_reason(alloc, net, plan)? {
        return Ok(ExactVerdict::No(ExactReason::Point(why)));
    }
    Ok(ExactVerdict::Yes)
}
