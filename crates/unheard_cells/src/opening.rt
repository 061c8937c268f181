//! Opens what a netlist is tried with.
ghost use Rattle.std.specs.Prelude.{◌≡◌, ◌*◌, ◌≤◌, length, IfOk};
ghost use Rattle.fault_secure.specs.Circuit.{nets};
ghost use Rattle.fault_secure.specs.CodePlan.{IsPlanOf};
ghost use Rattle.lane_sim.specs.Points.{ArePointsOf};
ghost use Rattle.tsc_net.specs.Limits.{most_nets};
ghost use Rattle.tsc_net.specs.PlanView.{net_numbers};
ghost use Rattle.unheard_cells.specs.There.{watched_nets};
ghost use Rattle.unheard_cells.specs.Trial.{IsTrialOf};

use crate::spans::{Span, node_spans};
use crate::trial::Trial;
use crate::watched::{near_lists, shown_nets};
use lane_sim::{FaultBench, Points};
use std::alloc::{AllocError, Global};
use tsc_io::Items;
use tsc_net::{Netlist, Nets, Plan};

/// What a netlist is tried with, where these nets are watched. It takes all the memory that it will ever have.
///
/// # Errors
///
/// Want of memory.
pub(crate) fn trial_of<'a>(
    alloc: Global,
    net: &'a Netlist,
    plan: &Plan,
    watch: Nets,
) -> Result<Trial<'a>, AllocError>
    requires plan { IsPlanOf net.now.circuit plan.now }
    requires latches { length net.now.circuit.latches ≤ 64 }
    requires nets { nets net.now.circuit ≤ most_nets }
    requires watch { net_numbers watch ≡ watched_nets net.now.circuit plan.now }
    ensures trial { IfOk result (IsTrialOf net.now.circuit plan.now) }
{
    // What the netlist keeps is known from here on.
    let _nets = net.nets();
    let shown = shown_nets(alloc, net, plan)?;
    let near = near_lists(alloc, plan, shown.as_slice())?;
    let spans = node_spans(alloc, net, shown.as_slice())?;
    open_trial(alloc, net, watch, near, spans)
}

/// Opens the bench and its points.
///
/// # Errors
///
/// Want of memory.
fn open_trial<'a>(
    alloc: Global,
    net: &'a Netlist,
    watch: Nets,
    near: Items<Nets>,
    spans: Vec<Span>,
) -> Result<Trial<'a>, AllocError>
    requires latches { length net.now.circuit.latches ≤ 64 }
    requires nets { nets net.now.circuit ≤ most_nets }
    ensures circuit { IfOk result (λ trial. trial.bench.circuit ≡ net.now.circuit) }
    ensures points { IfOk result (λ trial. ArePointsOf net.now.circuit trial.points) }
    ensures watch { IfOk result (λ trial. trial.watch ≡ watch) }
    ensures near { IfOk result (λ trial. trial.near ≡ near) }
    ensures spans { IfOk result (λ trial. trial.spans.items ≡ spans.items) }
{
    let points = Points::new(alloc, net)?;
    let bench = FaultBench::open(alloc, net)?;
    Ok(Trial {
        bench,
        points,
        watch,
        near,
        spans,
    })
}

/// Sixteen words of zeros for each of so many nets.
///
/// # Errors
///
/// Want of memory.
pub(crate) fn zero_lanes(alloc: Global, count: usize) -> Result<Vec<u64>, AllocError>
    requires few { count ≤ 130 }
    ensures sized { IfOk result (λ lanes. length lanes.items ≡ count * 16) }
{
    vec![in alloc; 0; count * 16]
}
