//! The wide audit of a netlist with its plan against a network.
ghost use Rattle.std.specs.Prelude.{◌≡◌, ◌<◌, ◌≤◌, Some, IsTrue, IsFalse, length, IfOk, IfErr};
ghost use Rattle.fault_secure.specs.CodePlan.{IsPlanOf};
ghost use Rattle.fault_secure.specs.Logic.{Network};
ghost use Rattle.fault_secure.specs.Behaviour.{FollowsSource};
ghost use Rattle.tsc_bits.specs.Bits.{binary};
ghost use Rattle.behaviour_audit.specs.Reason.{IsBehaviourAnswer};
ghost use Rattle.audit.specs.Verdict.{FitsSource, HasStructure};
ghost use Rattle.wide_audit.specs.WideVerdict.{HasFunctions, IsWideError, IsWideVerdict};
ghost use Rattle.wide_audit.specs.Laws.{IsSecureWhereYes};
ghost use Rattle.wide_audit.specs.Shown.{IsWideIn};
ghost use Rattle.wide_audit.specs.Points.{IsErrorOn, IsPointAnswer, IsVerdictOn, reason_at, reason_of};

use crate::asked::Asked;
use crate::laws::{wide_verdicts_are_shown, wide_yes_is_secure};
use crate::points::wrong_point;
use crate::verdict::{WideError, WideReason, WideVerdict};
use crate::wrong::WrongPoint;
use audit::{Reason, SourceMeaning, checker_reason, shape_reason, structure_reason};
use std::alloc::Global;
use tsc_io::Items;
use tsc_net::{Bits, Netlist, Plan};

/// Whether a netlist with its plan is secure for a network, whatever the number of inputs: the first condition that doesn't hold,
/// or that all do. All functions that the two and the plan's checker state are built, each once, in so many rows.
///
/// # Errors
///
/// `Spent` exactly where the conditions on shape and structure hold, there is no latch, and the stated functions have more different
/// cofactors than rows; want of memory.
pub fn audit_wide(
    alloc: Global,
    source: &Netlist,
    net: &Netlist,
    plan: &Plan,
    rows: usize,
) -> Result<WideVerdict, WideError>
    requires source { length source.now.circuit.latches ≡ 0 }
    requires inputs { source.now.circuit.inputs ≤ 1024 }
    requires plan { IsPlanOf net.now.circuit plan.now }
    requires some { 2 ≤ rows }
    requires few { rows ≤ 4194304 }
    ensures verdict { IfOk result (IsWideVerdict rows source.now.circuit net.now.circuit plan.now) }
    ensures shown { IfOk result (IsWideIn net.now.circuit) }
    ensures spent { IfErr result (IsWideError rows source.now.circuit net.now.circuit plan.now) }
    ensures secure { IfOk result (IsSecureWhereYes source.now.circuit net.now.circuit plan.now) }
{
    wide_yes_is_secure();
    wide_verdicts_are_shown();
    // What the netlist and the plan keep is known from here on.
    let _nets = net.nets();
    let _order = net.order();
    let _states = plan.states.len();
    let asked = Asked {
        source,
        net,
        plan,
        rows,
    };
    match verdict_of(alloc, &asked) {
        Ok(verdict) => Ok(verdict),
        Err(e) => Err(e),
    }
}

/// The verdict, by shape first.
fn verdict_of(alloc: Global, asked: &Asked) -> Result<WideVerdict, WideError>
    ensures verdict { IfOk result (IsVerdictOn asked.now) }
    ensures spent { IfErr result (IsErrorOn asked.now) }
{
    match shape_reason(&SourceMeaning::Network(asked.source), asked.net, asked.plan) {
        Some(shape) => Ok(WideVerdict::No(WideReason::Structure(Reason::Shape(shape)))),
        None => fitting_verdict(alloc, asked),
    }
}

/// The verdict where the netlist fits its source.
fn fitting_verdict(alloc: Global, asked: &Asked) -> Result<WideVerdict, WideError>
    requires fits { FitsSource (Network asked.now.source.now.circuit) asked.now.net.now.circuit asked.now.plan.now }
    ensures verdict { IfOk result (IsVerdictOn asked.now) }
    ensures spent { IfErr result (IsErrorOn asked.now) }
{
    match structure_reason(alloc, asked.net, asked.plan) {
        Ok(Some(why)) => Ok(WideVerdict::No(WideReason::Structure(why))),
        Ok(None) => structured_verdict(alloc, asked),
        Err(e) => Err(WideError::Memory(e)),
    }
}

/// The verdict where its structure is right too.
fn structured_verdict(alloc: Global, asked: &Asked) -> Result<WideVerdict, WideError>
    requires structure { HasStructure (Network asked.now.source.now.circuit) asked.now.net.now.circuit asked.now.plan.now }
    ensures verdict { IfOk result (IsVerdictOn asked.now) }
    ensures spent { IfErr result (IsErrorOn asked.now) }
{
    if has_latches(asked.net) {
        return Ok(WideVerdict::No(WideReason::Structure(Reason::Latched)));
    }
    // What the netlists keep is known from here on.
    let _source = asked.source.order();
    let _order = asked.net.order();
    match wrong_point(alloc, asked) {
        Ok(found) => found_verdict(alloc, asked, found),
        Err(e) => Err(e),
    }
}

/// Whether there is a latch.
fn has_latches(net: &Netlist) -> bool
    ensures some { IsTrue result → 0 < length net.now.circuit.latches }
    ensures none { IsFalse result → length net.now.circuit.latches ≡ 0 }
{
    net.latches() > 0
}

/// The verdict where the search for a wrong point has an answer.
fn found_verdict(
    alloc: Global,
    asked: &Asked,
    found: Option<WrongPoint>,
) -> Result<WideVerdict, WideError>
    requires structure { HasStructure (Network asked.now.source.now.circuit) asked.now.net.now.circuit asked.now.plan.now }
    requires functions { HasFunctions asked.now.rows asked.now.source.now.circuit asked.now.net.now.circuit asked.now.plan.now }
    requires found { IsPointAnswer asked.now.source.now.circuit asked.now.net.now.circuit asked.now.plan.now found }
    ensures verdict { IfOk result (IsVerdictOn asked.now) }
    ensures spent { IfErr result (IsErrorOn asked.now) }
{
    match found {
        Some(point) => pointed_verdict(alloc, asked, point),
        None => following_verdict(alloc, asked),
    }
}

/// The verdict of a wrong point.
fn pointed_verdict(
    alloc: Global,
    asked: &Asked,
    point: WrongPoint,
) -> Result<WideVerdict, WideError>
    requires structure { HasStructure (Network asked.now.source.now.circuit) asked.now.net.now.circuit asked.now.plan.now }
    requires functions { HasFunctions asked.now.rows asked.now.source.now.circuit asked.now.net.now.circuit asked.now.plan.now }
    requires sized { length point.input.items ≡ asked.now.net.now.circuit.inputs }
    requires point { IsBehaviourAnswer (Network asked.now.source.now.circuit) asked.now.net.now.circuit asked.now.plan.now (Some (reason_at (binary point.input.items) point.output)) }
    ensures verdict { IfOk result (IsVerdictOn asked.now) }
    ensures spent { IfErr result (IsErrorOn asked.now) }
{
    match Items::from_slice(alloc, &point.input) {
        Ok(input) => Ok(WideVerdict::No(named(input, point.output))),
        Err(e) => Err(WideError::Memory(e)),
    }
}

/// The reason that an input is, where an output is wrong, or else the word.
fn named(input: Bits, output: Option<usize>) -> WideReason
    ensures reason { result ≡ reason_of input output }
{
    match output {
        None => WideReason::Word { input },
        Some(bit) => WideReason::Output { input, bit },
    }
}

/// The verdict where it follows its source: whether the checker decides the code.
fn following_verdict(alloc: Global, asked: &Asked) -> Result<WideVerdict, WideError>
    requires structure { HasStructure (Network asked.now.source.now.circuit) asked.now.net.now.circuit asked.now.plan.now }
    requires functions { HasFunctions asked.now.rows asked.now.source.now.circuit asked.now.net.now.circuit asked.now.plan.now }
    requires follows { FollowsSource (Network asked.now.source.now.circuit) asked.now.net.now.circuit asked.now.plan.now }
    ensures verdict { IfOk result (IsVerdictOn asked.now) }
    ensures spent { IfErr result (IsErrorOn asked.now) }
{
    match checker_reason(alloc, asked.net, asked.plan) {
        Ok(Some(why)) => Ok(WideVerdict::No(WideReason::Structure(why))),
        Ok(None) => Ok(WideVerdict::Yes),
        Err(e) => Err(WideError::Memory(e)),
    }
}
