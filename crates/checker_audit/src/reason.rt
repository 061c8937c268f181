//! Whether a netlist's checker decides the code, and if not, the first reason.
ghost use Rattle.std.specs.Prelude.{◌≡◌, ◌≤◌, ◌<◌, length, IfOk};
ghost use Rattle.fault_secure.specs.CodePlan.{IsPlanOf, monitored};
ghost use Rattle.fault_secure.specs.Structure.{RailsOutside, ReadsOnlyWord};
ghost use Rattle.tsc_net.specs.PlanView.{net_numbers};
ghost use Rattle.checker_audit.specs.CheckerAnswer.{IsCheckerAnswer};
ghost use Rattle.checker_audit.specs.Misjudged.{distinct_monitored};

use crate::distinct::distinct_nets;
use crate::judging::first_misjudged;
use crate::program::checker_program;
use crate::walk::first_mismatch;
use code_checkers::checker;
use monitored_nets::{function_marks, monitored_nets};
use std::alloc::{AllocError, Global};
use tsc_net::{NetId, Netlist, Plan};

/// Why a checker doesn't decide the code.
#[derive(Clone, Copy, Debug, PartialEq, Eq)]
pub enum CheckerReason {
    /// The first value of the distinct monitored nets that is misjudged, the first net most significant, and how many nets these are.
    Word { value: u64, width: usize },
    /// The first net that doesn't fit its gate of the stated checker.
    Net { net: NetId },
}

/// The first reason why the checker of a netlist doesn't decide the code, if there is one. With at most 20 different monitored
/// nets each of their values is tried; with more, the rails are matched with the gates of the stated checker.
///
/// # Errors
///
/// Want of memory.
pub fn checker_reason(
    alloc: Global,
    net: &Netlist,
    plan: &Plan,
) -> Result<Option<CheckerReason>, AllocError>
    requires plan { IsPlanOf net.now.circuit plan.now }
    requires rails { RailsOutside net.now.circuit plan.now }
    requires reads { ReadsOnlyWord net.now.circuit plan.now }
    ensures answer { IfOk result (IsCheckerAnswer net.now.circuit plan.now) }
{
    let word = monitored_nets(alloc, net, plan)?;
    let distinct = distinct_nets(alloc, word.as_slice())?;
    if distinct.len() > 20 {
        by_gates(alloc, net, plan)
    } else {
        by_values(alloc, net, plan, word.as_slice(), &distinct)
    }
}

/// The reason by gates, with more than 20 different monitored nets.
fn by_gates(alloc: Global, net: &Netlist, plan: &Plan) -> Result<Option<CheckerReason>, AllocError>
    requires plan { IsPlanOf net.now.circuit plan.now }
    requires many { 20 < length (distinct_monitored net.now.circuit plan.now) }
    ensures answer { IfOk result (IsCheckerAnswer net.now.circuit plan.now) }
{
    let gates = checker(alloc, plan)?;
    match first_mismatch(alloc, net, plan, &gates)? {
        None => Ok(None),
        Some(net) => Ok(Some(CheckerReason::Net { net })),
    }
}

/// The reason by values, with at most 20 different monitored nets.
fn by_values(
    alloc: Global,
    net: &Netlist,
    plan: &Plan,
    word: &[NetId],
    distinct: &[NetId],
) -> Result<Option<CheckerReason>, AllocError>
    requires plan { IsPlanOf net.now.circuit plan.now }
    requires rails { RailsOutside net.now.circuit plan.now }
    requires reads { ReadsOnlyWord net.now.circuit plan.now }
    requires word { net_numbers word.now ≡ monitored net.now.circuit plan.now }
    requires distinct { net_numbers distinct.now ≡ distinct_monitored net.now.circuit plan.now }
    requires few { length distinct.now ≤ 20 }
    ensures answer { IfOk result (IsCheckerAnswer net.now.circuit plan.now) }
{
    // What the netlist keeps is known from here on.
    let _order = net.order();
    let function = function_marks(alloc, net, plan, word)?;
    let places = checker_program(alloc, net, plan, &function)?;
    match first_misjudged(alloc, net, plan, word, distinct, &places)? {
        None => Ok(None),
        Some(value) => Ok(Some(CheckerReason::Word {
            value,
            width: distinct.len(),
        })),
    }
}
