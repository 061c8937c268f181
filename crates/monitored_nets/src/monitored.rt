//! The monitored nets of a netlist with its plan.
ghost use Rattle.std.specs.Prelude.{◌≡◌, ◌≤◌, ◌++◌, length, take, IfOk, OnOk};
ghost use Rattle.fault_secure.specs.CodePlan.{IsPlanOf, monitored, next_nets};
ghost use Rattle.tsc_net.specs.PlanView.{net_numbers};

use std::alloc::{AllocError, Global};
use tsc_io::Items;
use tsc_net::{Netlist, Nets, Plan};

/// The monitored nets: the outputs, the checks, the nets at the latch inputs.
///
/// # Errors
///
/// Want of memory.
pub fn monitored_nets(alloc: Global, net: &Netlist, plan: &Plan) -> Result<Nets, AllocError>
    requires plan { IsPlanOf net.now.circuit plan.now }
    ensures nets { IfOk result (λ nets. net_numbers nets ≡ monitored net.now.circuit plan.now) }
{
    let mut nets = first_outputs(alloc, net, plan.outputs)?;
    nets.append(plan.checks.as_slice())?;
    push_next_nets(net, &mut nets)?;
    Ok(nets)
}

/// The first outputs of a netlist, so many of them.
///
/// # Errors
///
/// Want of memory.
fn first_outputs(alloc: Global, net: &Netlist, count: usize) -> Result<Nets, AllocError>
    requires count { count ≤ length net.now.circuit.outputs }
    ensures outputs { IfOk result (λ outputs. net_numbers outputs ≡ take count net.now.circuit.outputs) }
{
    Items::from_slice(alloc, &net.outputs()[..count])
}

/// Adds the nets at the latch inputs.
///
/// # Errors
///
/// Want of memory.
fn push_next_nets(net: &Netlist, nets: &mut Nets) -> Result<(), AllocError>
    ensures pushed { OnOk result (net_numbers nets.new ≡ net_numbers nets.old ++ next_nets net.now.circuit) }
{
    for place in 0..net.latches() {
        nets.push(net.latch(place).reads)?;
    }
    Ok(())
}
