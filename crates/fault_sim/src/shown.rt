//! The nets that a step shows, and the latches that it sets.
ghost use Rattle.std.specs.Prelude.{◌≡◌, ◌<◌, ◌≤◌, true, None, [], ◌∷◌, ◌++◌, length, map, take, IfOk, IsSome};
ghost use Rattle.tsc_bits.specs.Bits.{binary};
ghost use Rattle.fault_secure.specs.Circuit.{nets};
ghost use Rattle.fault_secure.specs.CodePlan.{next_nets};
ghost use Rattle.tsc_net.specs.Order.{has_place};
ghost use Rattle.tsc_net.specs.PlanView.{net_numbers};
ghost use Rattle.tsc_net.specs.Fault.{stuck_at_or_none};
ghost use Rattle.tsc_net.specs.Limits.{most_nets};
ghost use Rattle.fault_sim.specs.PlanNets.{HasPlanNets};
ghost use Rattle.fault_sim.specs.Sim.{watched_nets, number_at, point_bit, first_bit, IsViewOf};
ghost use Rattle.fault_sim.specs.Shown.{AreLatchesOf, IsShownOf, taken_bit};

use crate::reading::{number_at, point_bit, read_latches, state_at};
use crate::step_view::StepView;
use lane_sim::Bench;
use std::alloc::{AllocError, Global};
use tsc_net::{Bits, Fault, LatchView, NetId, Netlist, Nets, Plan};

/// A plan, which is borrowed, the nets that it shows of a netlist, and the latches.
#[derive(Drop)]
pub(crate) struct Shown<'a> {
    /// The plan.
    pub plan: &'a Plan,
    /// The plan's outputs, in order.
    pub outputs: Vec<NetId>,
    /// The latches, in order.
    pub latches: Vec<LatchView>,
    /// The nets that they read, in order.
    pub next: Vec<NetId>,
}

/// What is shown of a netlist by a plan of it.
///
/// # Errors
///
/// Want of memory.
pub(crate) fn shown_of<'a>(
    alloc: Global,
    net: &Netlist,
    plan: &'a Plan,
) -> Result<Shown<'a>, AllocError>
    requires plan { HasPlanNets net.now.circuit plan.now }
    ensures shown { IfOk result (IsShownOf net.now.circuit plan.now) }
{
    let outputs = first_nets(alloc, net.outputs(), plan.outputs)?;
    let latches = latches_of(alloc, net)?;
    let next = reads_of(alloc, &latches)?;
    Ok(Shown {
        plan,
        outputs,
        latches,
        next,
    })
}

/// The first nets.
fn first_nets(alloc: Global, nets: &[NetId], count: usize) -> Result<Vec<NetId>, AllocError>
    requires count { count ≤ length nets.now }
    ensures nets { IfOk result (λ first. first.items ≡ take count nets.now) }
{
    Vec::from_slice(alloc, &nets[..count])
}

/// The latches of a netlist.
fn latches_of(alloc: Global, net: &Netlist) -> Result<Vec<LatchView>, AllocError>
    ensures latches { IfOk result (λ latches. AreLatchesOf net.now.circuit latches.items) }
{
    let mut latches = Vec::new(alloc);
    for place in 0..net.latches() {
        latches.push(net.latch(place))?;
    }
    Ok(latches)
}

/// The nets that latches read.
fn reads_of(alloc: Global, latches: &[LatchView]) -> Result<Vec<NetId>, AllocError>
    ensures reads { IfOk result (λ reads. reads.items ≡ map (λ latch. latch.reads) latches.now) }
{
    latches.iter().map(|latch| latch.reads).collect(alloc)
}

/// What a bench has to watch.
fn watched_nets(alloc: Global, shown: &Shown) -> Result<Nets, AllocError>
    ensures nets { IfOk result (λ nets. net_numbers nets
        ≡ ((net_numbers shown.now.outputs.items ++ shown.now.plan.now.checks) ++ net_numbers shown.now.next.items)
        ++ shown.now.plan.now.rail1 ∷ shown.now.plan.now.rail2 ∷ []) }
{
    let plan = shown.plan;
    let mut nets = Nets::from_slice(alloc, &shown.outputs)?;
    nets.append(plan.checks.as_slice())?;
    nets.append(&shown.next)?;
    nets.push(plan.rail1)?;
    nets.push(plan.rail2)?;
    Ok(nets)
}

/// A bench that watches what is shown.
///
/// # Errors
///
/// Want of memory.
pub(crate) fn bench_of<'a>(
    alloc: Global,
    net: &'a Netlist,
    shown: &Shown,
) -> Result<Bench<'a>, AllocError>
    requires plan { HasPlanNets net.now.circuit shown.now.plan.now }
    requires shown { IsShownOf net.now.circuit shown.now.plan.now shown.now }
    requires nets { nets net.now.circuit ≤ most_nets }
    ensures circuit { IfOk result (λ bench. bench.circuit ≡ net.now.circuit) }
    ensures watched { IfOk result (λ bench. bench.watched ≡ watched_nets net.now.circuit shown.now.plan.now) }
    ensures lanes { IfOk result (λ bench. bench.lanes ≡ None) }
{
    // A checked netlist reads and shows its own nets.
    let _checked = net.nets();
    let watched = watched_nets(alloc, shown)?;
    Bench::open(alloc, net, &watched)
}

/// What a settled bench shows at a point.
pub(crate) fn view_of(bench: &Bench, shown: &Shown, point: usize) -> StepView
    requires point { point < 1024 }
    requires shown { IsShownOf bench.now.circuit shown.now.plan.now shown.now }
    requires watched { bench.now.watched ≡ watched_nets bench.now.circuit shown.now.plan.now }
    requires settled { IsSome bench.now.lanes }
    ensures view { IsViewOf bench.now.circuit shown.now.plan.now (point_bit bench.now point) result }
{
    let plan = shown.plan;
    let (rail1, rail2) = rails_of(bench, plan, point);
    StepView {
        outputs: number_at(bench, point, &shown.outputs),
        checks: number_at(bench, point, plan.checks.as_slice()),
        rail1,
        rail2,
    }
}

/// The rails that a settled bench shows at a point.
fn rails_of(bench: &Bench, plan: &Plan, point: usize) -> (bool, bool)
    requires point { point < 1024 }
    requires settled { IsSome bench.now.lanes }
    requires first { has_place bench.now.watched plan.now.rail1 ≡ true }
    requires second { has_place bench.now.watched plan.now.rail2 ≡ true }
    ensures first { result.0 ≡ point_bit bench.now point plan.now.rail1 }
    ensures second { result.1 ≡ point_bit bench.now point plan.now.rail2 }
{
    (
        point_bit(bench, point, plan.rail1),
        point_bit(bench, point, plan.rail2),
    )
}

/// What the nets at the inputs of few latches have at a point of a settled bench, as a number.
pub(crate) fn next_number(bench: &Bench, shown: &Shown, point: usize) -> u64
    requires point { point < 1024 }
    requires few { length bench.now.circuit.latches ≤ 64 }
    requires shown { IsShownOf bench.now.circuit shown.now.plan.now shown.now }
    requires watched { bench.now.watched ≡ watched_nets bench.now.circuit shown.now.plan.now }
    requires settled { IsSome bench.now.lanes }
    ensures next { result ≡ number_at (point_bit bench.now point) (next_nets bench.now.circuit) }
{
    number_at(bench, point, &shown.next)
}

/// The state of few latches that a settled bench leaves at a point, under the fault if there is one, as a number.
pub(crate) fn state_number(bench: &Bench, shown: &Shown, point: usize, fault: Option<Fault>) -> u64
    requires point { point < 1024 }
    requires few { length bench.now.circuit.latches ≤ 64 }
    requires shown { IsShownOf bench.now.circuit shown.now.plan.now shown.now }
    requires watched { bench.now.watched ≡ watched_nets bench.now.circuit shown.now.plan.now }
    requires settled { IsSome bench.now.lanes }
    ensures state { result ≡ binary (map (taken_bit (stuck_at_or_none fault) (point_bit bench.now point)) shown.now.latches.items) }
{
    state_at(bench, point, &shown.latches, fault)
}

/// Reads what a settled bench has at the latch inputs at point 0, and the state that it leaves there, under the fault if there is one.
pub(crate) fn read_state(
    bench: &Bench,
    shown: &Shown,
    fault: Option<Fault>,
    next: &mut Bits,
    state: &mut Bits,
)
    requires shown { IsShownOf bench.now.circuit shown.now.plan.now shown.now }
    requires watched { bench.now.watched ≡ watched_nets bench.now.circuit shown.now.plan.now }
    requires settled { IsSome bench.now.lanes }
    requires next { length next.old ≡ length bench.now.circuit.latches }
    requires state { length state.old ≡ length bench.now.circuit.latches }
    ensures next { next.new ≡ map (first_bit bench.now) (next_nets bench.now.circuit) }
    ensures state { state.new ≡ map (taken_bit (stuck_at_or_none fault) (first_bit bench.now)) shown.now.latches.items }
{
    read_latches(bench, 0, &shown.latches, fault, next, state);
}
