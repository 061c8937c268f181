//! The nodes of a netlist's checker, in the order in which they settle.
ghost use Rattle.std.specs.Prelude.{◌≡◌, ◌<◌, length, All, IfOk};
ghost use Rattle.fault_secure.specs.CodePlan.{IsPlanOf};
ghost use Rattle.monitored_nets.specs.Marks.{MarksFunction};
ghost use Rattle.checker_audit.specs.Program.{IsProgram, checker_places};

use net_cones::cone_marks;
use std::alloc::{AllocError, Global};
use tsc_net::{Netlist, Plan};

/// The places of the checker's nodes, in their evaluation order. `function` has the marks of the function.
///
/// # Errors
///
/// Want of memory.
pub fn checker_program(
    alloc: Global,
    net: &Netlist,
    plan: &Plan,
    function: &[bool],
) -> Result<Vec<usize>, AllocError>
    requires plan { IsPlanOf net.now.circuit plan.now }
    requires function { MarksFunction net.now.circuit plan.now function.now }
    ensures program { IfOk result (λ places. IsProgram net.now.circuit plan.now places.items) }
{
    // What the netlist keeps is known from here on.
    let _nets = net.nets();
    let rails = [plan.rail1, plan.rail2];
    let marks = cone_marks(alloc, net, &rails)?;
    outside_places(alloc, net.order(), &marks, function)
}

/// The places of an order that are marked for the rails and not for the function.
fn outside_places(
    alloc: Global,
    order: &[usize],
    rails: &[bool],
    function: &[bool],
) -> Result<Vec<usize>, AllocError>
    requires rails { All (λ place. place < length rails.now) order.now }
    requires function { All (λ place. place < length function.now) order.now }
    ensures places { IfOk result (λ places. places.items ≡ checker_places rails.now function.now order.now) }
{
    let mut places = Vec::new(alloc);
    for place in order {
        if rails[*place] && !function[*place] {
            places.push(*place)?;
        }
    }
    Ok(places)
}
