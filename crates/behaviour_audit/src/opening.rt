//! Opens what a netlist is tried with.
ghost use Rattle.std.specs.Prelude.{◌≡◌, ◌≤◌, length, IfOk};
ghost use Rattle.fault_secure.specs.Circuit.{nets};
ghost use Rattle.fault_secure.specs.CodePlan.{IsPlanOf, monitored};
ghost use Rattle.tsc_net.specs.PlanView.{net_numbers};
ghost use Rattle.tsc_net.specs.Limits.{most_nets};
ghost use Rattle.tsc_net.specs.SourceView.{logic_of};
ghost use Rattle.behaviour_audit.specs.Meaning.{FitsABench};
ghost use Rattle.behaviour_audit.specs.Trial.{IsMatch, IsWatchOf, IsTrialOf, IsRoomOf};

use crate::lanes::zero_lanes;
use crate::reference::reference_of;
use crate::room::Room;
use crate::trial::{Audited, Trial};
use crate::watch::{Watch, watch_of, zeros};
use monitored_nets::monitored_nets;
use std::alloc::{AllocError, Global};
use tsc_net::{Netlist, Plan};

/// Room for a word, for the outputs that a source chooses and for those that it leaves free, at one point and at 64 of them.
///
/// # Errors
///
/// Want of memory.
pub(crate) fn room_of(alloc: Global, audited: &Audited) -> Result<Room, AllocError>
    requires plan { IsPlanOf audited.now.net.now.circuit audited.now.plan.now }
    ensures room { IfOk result (IsRoomOf audited.now) }
{
    let Audited { net, plan, .. } = *audited;
    let nets = monitored_nets(alloc, net, plan)?;
    let word = zeros(alloc, nets.len())?;
    let chosen = zeros(alloc, plan.outputs)?;
    let free = zeros(alloc, plan.outputs)?;
    let lanes = zero_lanes(alloc, nets.len())?;
    let source_lanes = zero_lanes(alloc, plan.outputs)?;
    let free_lanes = zero_lanes(alloc, plan.outputs)?;
    Ok(Room {
        word,
        chosen,
        free,
        lanes,
        source_lanes,
        free_lanes,
    })
}

/// The benches of the netlist and of its source.
///
/// # Errors
///
/// Want of memory.
pub(crate) fn trial_of<'a>(alloc: Global, audited: &Audited<'a>) -> Result<Trial<'a>, AllocError>
    requires fit { IsMatch (logic_of audited.now.source.now) audited.now.net.now.circuit audited.now.plan.now }
    requires nets { nets audited.now.net.now.circuit ≤ most_nets }
    requires source { FitsABench (logic_of audited.now.source.now) }
    ensures trial { IfOk result (IsTrialOf audited.now) }
{
    let reference = reference_of(alloc, audited.source)?;
    match watch_monitored(alloc, audited.net, audited.plan) {
        Ok(watch) => Ok(Trial { watch, reference }),
        Err(error) => {
            reference.close();
            Err(error)
        }
    }
}

/// A bench of the netlist that watches the monitored nets.
fn watch_monitored<'a>(
    alloc: Global,
    net: &'a Netlist,
    plan: &Plan,
) -> Result<Watch<'a>, AllocError>
    requires plan { IsPlanOf net.now.circuit plan.now }
    requires latches { length net.now.circuit.latches ≤ 64 }
    requires nets { nets net.now.circuit ≤ most_nets }
    ensures watch { IfOk result (IsWatchOf net.now.circuit) }
    ensures nets { IfOk result (λ watch. net_numbers watch.nets ≡ monitored net.now.circuit plan.now) }
{
    // A checked netlist reads and shows its own nets.
    let _checked = net.nets();
    let watched = monitored_nets(alloc, net, plan)?;
    watch_of(alloc, net, watched)
}
