//! Marks for the nodes of the checker.
ghost use Rattle.std.specs.Prelude.{◌≡◌, ℕ, ◌<◌, ◌&&◌, not, length, IfOk};
ghost use Rattle.fault_secure.specs.Circuit.{bit};
ghost use Rattle.fault_secure.specs.CodePlan.{IsPlanOf};
ghost use Rattle.monitored_nets.specs.Marks.{MarksFunction};
ghost use Rattle.structure_audit.specs.Marks.{MarksChecker};

use net_cones::cone_marks;
use std::alloc::{AllocError, Global};
use tsc_net::{Netlist, Plan};

/// A mark for each node of the checker.
///
/// # Errors
///
/// Want of memory.
pub fn checker_marks(
    alloc: Global,
    net: &Netlist,
    plan: &Plan,
    function: &[bool],
) -> Result<Vec<bool>, AllocError>
    requires plan { IsPlanOf net.now.circuit plan.now }
    requires function { MarksFunction net.now.circuit plan.now function.now }
    ensures checker { IfOk result (λ marks. MarksChecker net.now.circuit plan.now marks.items) }
{
    let rails = cone_marks(alloc, net, &[plan.rail1, plan.rail2])?;
    Ok(without(rails, function))
}

/// The marks without those that stand in `others` too.
fn without(mut marks: Vec<bool>, others: &[bool]) -> Vec<bool>
    requires same { length marks.items ≡ length others.now }
    ensures sized { length result.items ≡ length marks.items }
    ensures cleared { (q : ℕ) → q < length marks.items → bit result.items q ≡ (bit marks.items q && not (bit others.now q)) }
{
    for place in 0..others.len() {
        if others[place] {
            marks[place] = false;
        }
    }
    marks
}
