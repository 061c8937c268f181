//! The first reason of the points of a batch, and of all batches.
ghost use Rattle.std.specs.Prelude.{◌≡◌, ◌+◌, ◌-◌, ◌%◌, ◌≤◌, IfSome};
ghost use Rattle.fault_secure.specs.Exposing.{point_count};
ghost use Rattle.lane_sim.specs.First.{IsFirstIn};
ghost use Rattle.unheard_cells.specs.There.{IsFalseAlarmThere};
ghost use Rattle.unheard_cells.specs.Trial.{reason_of, ArePointsFrom, IsFirstAnswer, IsRoom, IsSettled, IsTrialOf};

use crate::cells::{FoundCell, first_of_cells};
use crate::comparing::first_agreeing;
use crate::reason::PointReason;
use crate::trial::{Trial, put_batch, settle_batch};
use lane_sim::point_at;
use tsc_net::{Netlist, Plan};

/// The reason of the first of so many points that has one, batch after batch. The lanes of the watched nets are written to `right` without a
/// fault, and to `wrong` with a stem held.
pub(crate) fn first_reason(
    trial: &mut Trial,
    net: &Netlist,
    plan: &Plan,
    right: &mut [u64],
    wrong: &mut [u64],
    count: usize,
) -> Option<PointReason>
    requires trial { IsTrialOf net.now.circuit plan.now trial.old }
    requires right { IsRoom net.now.circuit plan.now right.old }
    requires wrong { IsRoom net.now.circuit plan.now wrong.old }
    requires inputs { net.now.circuit.inputs ≤ 20 }
    requires few { count ≤ 1048576 }
    requires places { count ≤ point_count net.now.circuit plan.now }
    ensures first { IsFirstAnswer net.now.circuit plan.now 0 count result }
{
    for batch in 0..(count + 1023) / 1024 {
        let first = batch * 1024;
        let past = (first + 1024).min(count);
        let found = reason_in_batch(trial, net, plan, right, wrong, first, past);
        if found.is_some() {
            return found;
        }
    }
    None
}

/// The reason of the first point from `first` on and below `past` that has one.
fn reason_in_batch(
    trial: &mut Trial,
    net: &Netlist,
    plan: &Plan,
    right: &mut [u64],
    wrong: &mut [u64],
    first: usize,
    past: usize,
) -> Option<PointReason>
    requires trial { IsTrialOf net.now.circuit plan.now trial.old }
    requires right { IsRoom net.now.circuit plan.now right.old }
    requires wrong { IsRoom net.now.circuit plan.now wrong.old }
    requires inputs { net.now.circuit.inputs ≤ 20 }
    requires whole { first % 64 ≡ 0 }
    requires order { first ≤ past }
    requires batch { past ≤ first + 1024 }
    requires few { past ≤ 1048576 }
    requires places { past ≤ point_count net.now.circuit plan.now }
    ensures first { IsFirstAnswer net.now.circuit plan.now first past result }
    ensures trial { IsTrialOf net.now.circuit plan.now trial.new }
    ensures right { IsRoom net.now.circuit plan.now right.new }
    ensures wrong { IsRoom net.now.circuit plan.now wrong.new }
{
    put_batch(trial, net, plan, first, past);
    settle_batch(trial, net, plan, right);
    settled_reason(trial, net, plan, right, wrong, first, past)
}

/// The reason of a batch that is settled.
fn settled_reason(
    trial: &mut Trial,
    net: &Netlist,
    plan: &Plan,
    right: &[u64],
    wrong: &mut [u64],
    first: usize,
    past: usize,
) -> Option<PointReason>
    requires settled { IsSettled net.now.circuit plan.now trial.old right.now }
    requires room { IsRoom net.now.circuit plan.now wrong.old }
    requires inputs { net.now.circuit.inputs ≤ 20 }
    requires order { first ≤ past }
    requires batch { past ≤ first + 1024 }
    requires few { past ≤ 1048576 }
    requires put { ArePointsFrom net.now.circuit plan.now trial.old.points first (past - first) }
    ensures first { IsFirstAnswer net.now.circuit plan.now first past result }
    ensures settled { IsSettled net.now.circuit plan.now trial.new right.now }
    ensures room { IsRoom net.now.circuit plan.now wrong.new }
{
    // That there is no ring is known from here on.
    let _order = net.order();
    let many = past - first;
    let quiet = first_false_alarm(trial, net, plan, right, many);
    let bound = quiet.unwrap_or(many);
    let found = first_of_cells(trial, net, plan, right, wrong, bound);
    reason_of(net.inputs(), first, quiet, found)
}

/// The first of the first `many` points at which the rails agree without a fault.
fn first_false_alarm(
    trial: &Trial,
    net: &Netlist,
    plan: &Plan,
    right: &[u64],
    many: usize,
) -> Option<usize>
    requires settled { IsSettled net.now.circuit plan.now trial.now right.now }
    requires many { many ≤ 1024 }
    ensures first { IsFirstIn (IsFalseAlarmThere net.now.circuit plan.now trial.now.points) 0 many result }
{
    // That there is no ring is known from here on.
    let _order = net.order();
    let _width = plan.states.width();
    let _watch = trial.watch.len();
    first_agreeing(right, many)
}

/// The reason of what was found in the batch that begins at `first`: a cell, or else a false alarm.
fn reason_of(
    inputs: usize,
    first: usize,
    quiet: Option<usize>,
    found: Option<FoundCell>,
) -> Option<PointReason>
    requires few { inputs ≤ 20 }
    requires first { first ≤ 1048576 }
    requires quiet { IfSome quiet (λ p. p ≤ 1024) }
    requires found { IfSome found (λ cell. cell.point ≤ 1024) }
    ensures reason { result ≡ reason_of inputs first quiet found }
{
    match found {
        Some(found) => {
            let at = point_at(inputs, first + found.point);
            Some(PointReason::Alarm {
                net: found.cell,
                value: found.held,
                state: at.state,
                input: at.input,
            })
        }
        None => match quiet {
            Some(point) => {
                let at = point_at(inputs, first + point);
                Some(PointReason::Quiet {
                    state: at.state,
                    input: at.input,
                })
            }
            None => None,
        },
    }
}
