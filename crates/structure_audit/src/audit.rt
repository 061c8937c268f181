//! The audit of the structure of a netlist with its plan.
ghost use Rattle.std.specs.Prelude.{◌≡◌, length, IfOk};
ghost use Rattle.fault_secure.specs.CodePlan.{CodePlan, IsPlanOf, IsUnorderedCode, monitored};
ghost use Rattle.tsc_net.specs.PlanView.{net_numbers};
ghost use Rattle.structure_audit.specs.StructureReason.{IsStructureAnswer};
ghost use Rattle.monitored_nets.specs.Marks.{MarksFunction};
ghost use Rattle.structure_audit.specs.Answers.{IsReadAnswer, IsCodeAnswer};

use crate::marks::checker_marks;
use crate::pins::{PinAt, first_foreign_pin, first_wrong_sign};
use crate::rails::first_inner_rail;
use crate::reason::StructureReason;
use crate::shared::parity_reason;
use monitored_nets::{function_marks, monitored_nets, word_marks};
use std::alloc::{AllocError, Global};
use tsc_net::{Code, NetId, Netlist, Plan};

/// The first condition on the structure of a netlist with its plan that doesn't hold, if there is one. Time linear in the netlist.
///
/// # Errors
///
/// Want of memory.
pub fn structure_reason(
    alloc: Global,
    net: &Netlist,
    plan: &Plan,
) -> Result<Option<StructureReason>, AllocError>
    requires plan { IsPlanOf net.now.circuit plan.now }
    ensures answer { IfOk result (IsStructureAnswer net.now.circuit plan.now) }
{
    let word = monitored_nets(alloc, net, plan)?;
    let function = function_marks(alloc, net, plan, word.as_slice())?;
    if let Some(rail) = first_inner_rail(net, plan, &function) {
        return Ok(Some(StructureReason::Rails { net: rail }));
    }
    if let Some(at) = first_read(alloc, net, plan, word.as_slice(), &function)? {
        return Ok(Some(StructureReason::Reads {
            node: at.node,
            pin: at.pin,
        }));
    }
    code_reason(alloc, net, plan, word.as_slice(), &function)
}

/// The first pin of the checker that reads neither the checker nor a monitored net, if there is one.
///
/// # Errors
///
/// Want of memory.
fn first_read(
    alloc: Global,
    net: &Netlist,
    plan: &Plan,
    word: &[NetId],
    function: &[bool],
) -> Result<Option<PinAt>, AllocError>
    requires plan { IsPlanOf net.now.circuit plan.now }
    requires word { net_numbers word.now ≡ monitored net.now.circuit plan.now }
    requires function { MarksFunction net.now.circuit plan.now function.now }
    ensures answer { IfOk result (IsReadAnswer net.now.circuit plan.now) }
{
    // What the netlist keeps is known from here on.
    let _nets = net.nets();
    let checker = checker_marks(alloc, net, plan, function)?;
    let monitored = word_marks(alloc, net, word)?;
    let found = first_foreign_pin(net, &checker, &monitored);
    Ok(found)
}

/// Why the function doesn't suit the code, if it doesn't.
///
/// # Errors
///
/// Want of memory.
fn code_reason(
    alloc: Global,
    net: &Netlist,
    plan: &Plan,
    word: &[NetId],
    function: &[bool],
) -> Result<Option<StructureReason>, AllocError>
    requires plan { IsPlanOf net.now.circuit plan.now }
    requires word { net_numbers word.now ≡ monitored net.now.circuit plan.now }
    requires function { MarksFunction net.now.circuit plan.now function.now }
    ensures answer { IfOk result (IsCodeAnswer net.now.circuit plan.now) }
{
    match plan.code {
        Code::Parity => parity_reason(alloc, net, plan, word),
        Code::Berger => Ok(sign_reason(net, function)),
        Code::MOutOfN => Ok(sign_reason(net, function)),
    }
}

/// The first pin of the function with the wrong sign, as a reason, if there is one.
fn sign_reason(net: &Netlist, function: &[bool]) -> Option<StructureReason>
    requires function { length function.now ≡ length net.now.circuit.nodes }
    ensures answer { (P : CodePlan) → IsUnorderedCode P.code → MarksFunction net.now.circuit P function.now → IsCodeAnswer net.now.circuit P result }
{
    if let Some(at) = first_wrong_sign(net, function) {
        return Some(StructureReason::Sign {
            node: at.node,
            pin: at.pin,
        });
    }
    None
}
