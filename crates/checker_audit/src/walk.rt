//! The walk over the rails of the stated checker, beside those of a netlist.
ghost use Rattle.std.specs.Prelude.{◌≡◌, ◌<◌, ◌+◌, ◌++◌, IfOk, OnOk, length, MatchOption, [], ◌∷◌};
ghost use Rattle.fault_secure.specs.CodePlan.{monitored, IsPlanOf};
ghost use Rattle.tsc_net.specs.PlanView.{net_numbers};
ghost use Rattle.code_checkers.specs.Block.{RailsRealise};
ghost use Rattle.code_checkers.specs.Gates.{signals_of, AreOrdered, ReadsBelow};
ghost use Rattle.code_checkers.specs.GateList.{IsCheckerOf};
ghost use Rattle.code_checkers.specs.Nodes.{reads_of};
ghost use Rattle.monitored_nets.specs.Marks.{MarksFunction};
ghost use Rattle.checker_audit.specs.FirstMisfit.{IsFirstMismatch};
ghost use Rattle.checker_audit.specs.Matching.{operands, questions, AreWithin, IsLookedAt, IsWalking, HasStepped};

use crate::asked::{Asked, note};
use crate::gate_fit::{gate_pins, is_monitored_at};
use code_checkers::{CheckGate, CheckGates};
use monitored_nets::{function_marks, monitored_nets};
use std::alloc::{AllocError, Global};
use std::collections::BTreeSet;
use tsc_net::{NetId, Netlist, Plan};

/// The first net of the walk over the rails that doesn't fit its gate of the stated checker, if there is one. Time
/// linear in what is asked: each net once for each gate.
///
/// # Errors
///
/// Want of memory.
pub fn first_mismatch(
    alloc: Global,
    net: &Netlist,
    plan: &Plan,
    gates: &CheckGates,
) -> Result<Option<NetId>, AllocError>
    requires plan { IsPlanOf net.now.circuit plan.now }
    requires gates { IsCheckerOf plan.now gates.now }
    ensures answer { IfOk result (λ found. MatchOption found (RailsRealise net.now.circuit plan.now) (λ bad. IsFirstMismatch net.now.circuit plan.now bad.number)) }
{
    let word = monitored_nets(alloc, net, plan)?;
    let function = function_marks(alloc, net, plan, word.as_slice())?;
    walk(alloc, net, plan, word.as_slice(), &function, gates)
}

/// The first net of the walk that doesn't fit its gate. `word` has the monitored nets, `function` the marks of the function.
fn walk(
    alloc: Global,
    net: &Netlist,
    plan: &Plan,
    word: &[NetId],
    function: &[bool],
    gates: &CheckGates,
) -> Result<Option<NetId>, AllocError>
    requires gates { IsCheckerOf plan.now gates.now }
    requires word { net_numbers word.now ≡ monitored net.now.circuit plan.now }
    requires function { MarksFunction net.now.circuit plan.now function.now }
    ensures answer { IfOk result (λ found. MatchOption found (RailsRealise net.now.circuit plan.now) (λ bad. IsFirstMismatch net.now.circuit plan.now bad.number)) }
{
    let mut seen = BTreeSet::new(alloc);
    let mut stack = begun(alloc, plan, gates)?;
    while let Some(asked) = stack.pop() {
        if !step(
            net, plan, word, function, gates, asked, &mut seen, &mut stack,
        )? {
            return Ok(Some(asked.net));
        }
    }
    Ok(None)
}

/// The rails, the first one on top.
fn begun(alloc: Global, plan: &Plan, gates: &CheckGates) -> Result<Vec<Asked>, AllocError>
    ensures rails { IfOk result (λ stack. stack.items ≡ record { place = gates.now.rail2; net = record { number = plan.now.rail2 } } ∷ (record { place = gates.now.rail1; net = record { number = plan.now.rail1 } } ∷ [])) }
{
    let mut stack = Vec::new(alloc);
    stack.push(Asked {
        place: gates.rail2(),
        net: plan.rail2,
    })?;
    stack.push(Asked {
        place: gates.rail1(),
        net: plan.rail1,
    })?;
    Ok(stack)
}

/// Goes on from a net, whose operands are then asked next, and answers whether it fits. A net that was asked for before
/// at the place is passed over.
fn step(
    net: &Netlist,
    plan: &Plan,
    word: &[NetId],
    function: &[bool],
    gates: &CheckGates,
    asked: Asked,
    seen: &mut BTreeSet<u128>,
    stack: &mut Vec<Asked>,
) -> Result<bool, AllocError>
    requires word { net_numbers word.now ≡ monitored net.now.circuit plan.now }
    requires function { MarksFunction net.now.circuit plan.now function.now }
    requires ordered { AreOrdered gates.now.gates }
    requires walking { IsWalking net.now.circuit plan.now gates.now.gates seen.old (stack.old.items ++ asked ∷ []) }
    ensures stepped { IfOk result (HasStepped net.now.circuit plan.now gates.now.gates asked seen.new stack.old.items stack.new.items) }
{
    let is_new = note(seen, asked)?;
    if !is_new {
        return Ok(true);
    }
    look(net, plan, word, function, gates, asked, stack)
}

/// Looks at a net: where it fits the gate at its place, the gate's operands are asked next.
fn look(
    net: &Netlist,
    plan: &Plan,
    word: &[NetId],
    function: &[bool],
    gates: &CheckGates,
    asked: Asked,
    stack: &mut Vec<Asked>,
) -> Result<bool, AllocError>
    requires word { net_numbers word.now ≡ monitored net.now.circuit plan.now }
    requires function { MarksFunction net.now.circuit plan.now function.now }
    requires ordered { AreOrdered gates.now.gates }
    requires place { asked.place < length gates.now.gates }
    requires within { AreWithin gates.now.gates stack.old.items }
    ensures looked { IfOk result (IsLookedAt net.now.circuit plan.now gates.now.gates asked stack.old.items stack.new.items) }
{
    let gate = gates.get(asked.place);
    if let CheckGate::Word { place } = gate {
        return Ok(is_monitored_at(word, place, asked.net));
    }
    match gate_pins(net, plan, function, gate, asked.net) {
        None => Ok(false),
        Some(pins) => {
            push_operands(gates, gate, pins, stack)?;
            Ok(true)
        }
    }
}

/// Asks for the operands of a gate at the nets of its pins, the first on top.
fn push_operands(
    gates: &CheckGates,
    gate: CheckGate,
    pins: &[NetId],
    stack: &mut Vec<Asked>,
) -> Result<(), AllocError>
    requires pins { length pins.now ≡ length (reads_of gate) }
    requires below { ReadsBelow (length gates.now.gates) gate }
    requires within { AreWithin gates.now.gates stack.old.items }
    ensures pushed { OnOk result (questions gates.now.gates stack.new.items ≡ operands (signals_of gates.now.gates) gate (net_numbers pins.now) ++ questions gates.now.gates stack.old.items) }
    ensures within { OnOk result (AreWithin gates.now.gates stack.new.items) }
{
    // What the gates keep is known from here on.
    let _gates = gates.len();
    match gate {
        CheckGate::Word { .. } => Ok(()),
        CheckGate::Buf { a } | CheckGate::Not { a } => push_one(a, pins[0], stack),
        CheckGate::And { a, b } | CheckGate::Or { a, b } | CheckGate::Xor { a, b } => {
            push_one(b, pins[1], stack)?;
            push_one(a, pins[0], stack)
        }
    }
}

/// Asks a net for a place next.
fn push_one(place: usize, net: NetId, stack: &mut Vec<Asked>) -> Result<(), AllocError>
    ensures pushed { OnOk result (stack.new.items ≡ stack.old.items ++ record { place = place; net = net } ∷ []) }
{
    stack.push(Asked { place, net })?;
    Ok(())
}
