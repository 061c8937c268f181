//! The nets that are watched.
ghost use Rattle.std.specs.Prelude.{◌≡◌, ◌≤◌, ◌∷◌, ◌++◌, length, take, IfOk, OnOk};
ghost use Rattle.fault_secure.specs.CodePlan.{IsPlanOf, next_nets};
ghost use Rattle.tsc_net.specs.PlanView.{net_numbers};
ghost use Rattle.unheard_cells.specs.There.{shown_nets, watched_nets};
ghost use Rattle.unheard_cells.specs.Trial.{AreNear};

use std::alloc::{AllocError, Global};
use tsc_io::Items;
use tsc_net::{NetId, Netlist, Nets, Plan};

/// The rails, then the outputs and the nets at the latch inputs.
///
/// # Errors
///
/// Want of memory.
pub(crate) fn watched_nets(alloc: Global, net: &Netlist, plan: &Plan) -> Result<Nets, AllocError>
    requires plan { IsPlanOf net.now.circuit plan.now }
    requires latches { length net.now.circuit.latches ≤ 64 }
    ensures watched { IfOk result (λ watched. net_numbers watched ≡ watched_nets net.now.circuit plan.now) }
    ensures few { IfOk result (λ watched. length watched ≤ 130) }
{
    // What the plan keeps is known from here on.
    let _width = plan.states.width();
    let shown = shown_nets(alloc, net, plan)?;
    with_rails(alloc, plan, shown.as_slice())
}

/// A list for each place of what is seen from outside: the rails, then the nets from the place on.
///
/// # Errors
///
/// Want of memory.
pub(crate) fn near_lists(
    alloc: Global,
    plan: &Plan,
    shown: &[NetId],
) -> Result<Items<Nets>, AllocError>
    ensures near { IfOk result (AreNear plan.now (net_numbers shown.now)) }
{
    let mut near = Items::with_room(alloc, shown.len())?;
    for low in 0..shown.len() {
        let list = with_rails(alloc, plan, &shown[low..])?;
        near.push(list)?;
    }
    Ok(near)
}

/// The rails, then these nets.
///
/// # Errors
///
/// Want of memory.
fn with_rails(alloc: Global, plan: &Plan, list: &[NetId]) -> Result<Nets, AllocError>
    ensures rails { IfOk result (λ nets. net_numbers nets ≡ plan.now.rail1 ∷ (plan.now.rail2 ∷ net_numbers list.now)) }
{
    let mut nets = Items::from_slice(alloc, &[plan.rail1, plan.rail2])?;
    nets.append(list)?;
    Ok(nets)
}

/// The outputs and the nets at the latch inputs.
///
/// # Errors
///
/// Want of memory.
pub(crate) fn shown_nets(alloc: Global, net: &Netlist, plan: &Plan) -> Result<Nets, AllocError>
    requires plan { IsPlanOf net.now.circuit plan.now }
    ensures shown { IfOk result (λ shown. net_numbers shown ≡ shown_nets net.now.circuit plan.now) }
{
    let mut shown = first_outputs(alloc, net, plan.outputs)?;
    push_next_nets(net, &mut shown)?;
    Ok(shown)
}

/// The first outputs of a netlist, so many of them.
///
/// # Errors
///
/// Want of memory.
fn first_outputs(alloc: Global, net: &Netlist, count: usize) -> Result<Nets, AllocError>
    requires count { count ≤ length net.now.circuit.outputs }
    ensures outputs { IfOk result (λ outputs. net_numbers outputs ≡ take count net.now.circuit.outputs) }
{
    Items::from_slice(alloc, &net.outputs()[..count])
}

/// Adds the nets at the latch inputs.
///
/// # Errors
///
/// Want of memory.
fn push_next_nets(net: &Netlist, nets: &mut Nets) -> Result<(), AllocError>
    ensures pushed { OnOk result (net_numbers nets.new ≡ net_numbers nets.old ++ next_nets net.now.circuit) }
{
    for place in 0..net.latches() {
        nets.push(net.latch(place).reads)?;
    }
    Ok(())
}
