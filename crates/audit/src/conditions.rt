//! The conditions on the structure and on the checker, which don't depend on the source.
ghost use Rattle.std.specs.Prelude.{◌≡◌, IfOk};
ghost use Rattle.fault_secure.specs.CodePlan.{IsPlanOf};
ghost use Rattle.fault_secure.specs.Structure.{RailsOutside, ReadsOnlyWord};
ghost use Rattle.audit.specs.Conditions.{of_checker, of_structure, IsCheckerStep, IsStructureStep};

use crate::verdict::Reason;
use checker_audit::CheckerReason;
use std::alloc::{AllocError, Global};
use structure_audit::StructureReason;
use tsc_net::{Netlist, Plan};

/// The first condition on the structure of a netlist with its plan that doesn't hold, if there is one. Time linear in the netlist.
///
/// # Errors
///
/// Want of memory.
pub fn structure_reason(
    alloc: Global,
    net: &Netlist,
    plan: &Plan,
) -> Result<Option<Reason>, AllocError>
    requires plan { IsPlanOf net.now.circuit plan.now }
    ensures answer { IfOk result (IsStructureStep net.now.circuit plan.now) }
{
    match structure_audit::structure_reason(alloc, net, plan)? {
        Some(why) => Ok(Some(of_structure(why))),
        None => Ok(None),
    }
}

/// The first reason why the checker of a netlist of sound structure doesn't decide the code, if there is one.
///
/// # Errors
///
/// Want of memory.
pub fn checker_reason(
    alloc: Global,
    net: &Netlist,
    plan: &Plan,
) -> Result<Option<Reason>, AllocError>
    requires plan { IsPlanOf net.now.circuit plan.now }
    requires rails { RailsOutside net.now.circuit plan.now }
    requires reads { ReadsOnlyWord net.now.circuit plan.now }
    ensures answer { IfOk result (IsCheckerStep net.now.circuit plan.now) }
{
    match checker_audit::checker_reason(alloc, net, plan)? {
        Some(why) => Ok(Some(of_checker(why))),
        None => Ok(None),
    }
}

/// The reason that is one of the structure.
fn of_structure(why: StructureReason) -> Reason
    ensures reason { result ≡ of_structure why }
{
    match why {
        StructureReason::Rails { net } => Reason::Rails { net },
        StructureReason::Reads { node, pin } => Reason::Reads { node, pin },
        StructureReason::Sign { node, pin } => Reason::Sign { node, pin },
        StructureReason::Latched => Reason::Latched,
        StructureReason::Shares {
            group,
            first,
            second,
            node,
        } => Reason::Shares {
            group,
            first,
            second,
            node,
        },
    }
}

/// The reason that is one of the checker.
fn of_checker(why: CheckerReason) -> Reason
    ensures reason { result ≡ of_checker why }
{
    match why {
        CheckerReason::Word { value, width } => Reason::CheckerWord { value, width },
        CheckerReason::Net { net } => Reason::CheckerNet { net },
    }
}
