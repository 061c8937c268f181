//! Whether the rails are driven outside the function.
ghost use Rattle.std.specs.Prelude.{◌≡◌, ◌<◌, ◌↔◌, length, IsTrue};
ghost use Rattle.fault_secure.specs.Circuit.{nets};
ghost use Rattle.fault_secure.specs.CodePlan.{CodePlan, IsPlanOf};
ghost use Rattle.fault_secure.specs.Structure.{IsDrivenOutside};
ghost use Rattle.monitored_nets.specs.Marks.{MarksFunction};
ghost use Rattle.structure_audit.specs.Marks.{IsRailSearch};

use tsc_net::{NetId, Netlist, Plan};

/// The first rail that isn't driven by a node outside the function, if there is one.
pub fn first_inner_rail(net: &Netlist, plan: &Plan, function: &[bool]) -> Option<NetId>
    requires plan { IsPlanOf net.now.circuit plan.now }
    requires function { MarksFunction net.now.circuit plan.now function.now }
    ensures rail { IsRailSearch net.now.circuit plan.now result }
{
    if !is_driven_outside(net, function, plan.rail1) {
        Some(plan.rail1)
    } else if !is_driven_outside(net, function, plan.rail2) {
        Some(plan.rail2)
    } else {
        None
    }
}

/// Whether the net is driven by a node outside the function.
fn is_driven_outside(net: &Netlist, function: &[bool], rail: NetId) -> bool
    requires function { length function.now ≡ length net.now.circuit.nodes }
    requires net { rail.number < nets net.now.circuit }
    ensures outside { (P : CodePlan) → MarksFunction net.now.circuit P function.now → (IsTrue result ↔ IsDrivenOutside net.now.circuit P rail.number) }
{
    let first = net.nets() - net.nodes();
    let number = rail.number as usize;
    number >= first && !function[number - first]
}
