//! Marks on the nodes of the function and on the monitored nets.
ghost use Rattle.std.specs.Prelude.{◌≡◌, ◌<◌, All, IfOk};
ghost use Rattle.fault_secure.specs.Circuit.{nets};
ghost use Rattle.fault_secure.specs.CodePlan.{IsPlanOf, monitored};
ghost use Rattle.tsc_net.specs.PlanView.{net_numbers};
ghost use Rattle.monitored_nets.specs.Marks.{MarksPlaces, MarksFunction};

use net_cones::cone_marks;
use std::alloc::{AllocError, Global};
use tsc_net::{NetId, Netlist, Plan};

/// A mark for each node: whether it is of the function, where `word` has the monitored nets.
///
/// # Errors
///
/// Want of memory.
pub fn function_marks(
    alloc: Global,
    net: &Netlist,
    plan: &Plan,
    word: &[NetId],
) -> Result<Vec<bool>, AllocError>
    requires plan { IsPlanOf net.now.circuit plan.now }
    requires word { net_numbers word.now ≡ monitored net.now.circuit plan.now }
    ensures function { IfOk result (λ marks. MarksFunction net.now.circuit plan.now marks.items) }
{
    // What the netlist keeps is known from here on.
    let _nets = net.nets();
    cone_marks(alloc, net, word)
}

/// A mark for each net: whether it stands in `word`.
///
/// # Errors
///
/// Want of memory.
pub fn word_marks(alloc: Global, net: &Netlist, word: &[NetId]) -> Result<Vec<bool>, AllocError>
    requires within { All (λ line. line.number < nets net.now.circuit) word.now }
    ensures word { IfOk result (λ marks. MarksPlaces (nets net.now.circuit) (net_numbers word.now) marks.items) }
{
    let mut marks = vec![in alloc; false; net.nets()]?;
    for monitored in word {
        marks[monitored.number as usize] = true;
    }
    Ok(marks)
}
