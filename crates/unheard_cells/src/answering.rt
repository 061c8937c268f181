//! The first reason of all points.
ghost use Rattle.std.specs.Prelude.{◌≤◌, length, IfOk};
ghost use Rattle.fault_secure.specs.Circuit.{nets};
ghost use Rattle.fault_secure.specs.CodePlan.{IsPlanOf};
ghost use Rattle.fault_secure.specs.Exposing.{point_count};
ghost use Rattle.tsc_net.specs.Limits.{most_nets};
ghost use Rattle.unheard_cells.specs.PointReason.{IsPointAnswer};

use crate::batches::first_reason;
use crate::opening::{trial_of, zero_lanes};
use crate::reason::PointReason;
use crate::watched::watched_nets;
use lane_sim::width_of;
use std::alloc::{AllocError, Global};
use tsc_net::{Netlist, Plan};

/// Whether the netlist is heard at each listed state and input, whichever one cell fails: none where it is, else the first reason. Points
/// come by state, then by the input as a binary number; at a point a false alarm comes before a cell that fails unheard, and the least
/// such cell is answered. For each cell its net is held at 0 and at 1, and what that changes is settled again, at 1,024 points at once; a node
/// on which no output and no next bit depends isn't tried.
///
/// # Errors
///
/// Want of memory.
pub fn point_reason(
    alloc: Global,
    net: &Netlist,
    plan: &Plan,
) -> Result<Option<PointReason>, AllocError>
    requires plan { IsPlanOf net.now.circuit plan.now }
    requires latches { length net.now.circuit.latches ≤ 64 }
    requires nets { nets net.now.circuit ≤ most_nets }
    requires inputs { net.now.circuit.inputs ≤ 20 }
    requires few { point_count net.now.circuit plan.now ≤ 1048576 }
    ensures answer { IfOk result (IsPointAnswer net.now.circuit plan.now) }
{
    let count = plan.listed_states() * width_of(net.inputs());
    let watch = watched_nets(alloc, net, plan)?;
    let mut right = zero_lanes(alloc, watch.len())?;
    let mut wrong = zero_lanes(alloc, watch.len())?;
    let mut trial = trial_of(alloc, net, plan, watch)?;
    let found = first_reason(&mut trial, net, plan, &mut right, &mut wrong, count);
    trial.close();
    Ok(found)
}
