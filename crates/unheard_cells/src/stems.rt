//! The first point at which the held stem of a cell is unheard.
ghost use Rattle.std.specs.Prelude.{◌≡◌, ◌*◌, ◌<◌, ◌≤◌, length};
ghost use Rattle.fault_secure.specs.StuckAt.{StuckAt};
ghost use Rattle.fault_secure.specs.FailingCell.{IsCell};
ghost use Rattle.lane_sim.specs.FaultBench.{HaveLanesUnder};
ghost use Rattle.lane_sim.specs.First.{IsFirstIn};
ghost use Rattle.unheard_cells.specs.Spans.{IsSpanOfCell};
ghost use Rattle.unheard_cells.specs.There.{earlier, near_count, near_nets, shown_nets, IsFirstHeld, IsUnheardThere};
ghost use Rattle.unheard_cells.specs.Trial.{IsRoom, IsSettled};

use crate::comparing::first_unheard;
use crate::spans::{Span, span_of};
use crate::trial::Trial;
use tsc_net::{Fault, NetId, Netlist, Plan};

/// A point of a bench at which a stem, held at a bit, is unheard.
#[derive(Clone, Copy)]
pub(crate) struct HeldStem {
    /// The bit.
    pub held: bool,
    /// The point.
    pub point: usize,
}

/// The first of the first `many` points at which a cell's stem is unheard, held at one of the two bits. `right` has the lanes of the watched
/// nets without a fault, and `wrong` is written over.
pub(crate) fn first_of_cell(
    trial: &mut Trial,
    net: &Netlist,
    plan: &Plan,
    right: &[u64],
    wrong: &mut [u64],
    cell: NetId,
    many: usize,
) -> Option<HeldStem>
    requires settled { IsSettled net.now.circuit plan.now trial.old right.now }
    requires room { IsRoom net.now.circuit plan.now wrong.old }
    requires cell { IsCell net.now.circuit cell.number }
    requires many { many ≤ 1024 }
    ensures first { IsFirstHeld (IsUnheardThere net.now.circuit plan.now trial.old.points cell.number) many result }
    ensures settled { IsSettled net.now.circuit plan.now trial.new right.now }
    ensures points { trial.new.points ≡ trial.old.points }
    ensures room { IsRoom net.now.circuit plan.now wrong.new }
{
    // That there is no ring is known from here on.
    let _order = net.order();
    let _width = plan.states.width();
    let span = span_of(trial, net, plan, cell);
    if span.past <= span.low {
        return None;
    }
    // That the nets of the span are few is known from here on.
    let _room = right.len();
    let room = (2 + (span.past - span.low)) * 16;
    first_in_span(
        trial,
        net,
        plan,
        right,
        &mut wrong[..room],
        cell,
        span,
        many,
    )
}

/// The same, where the cell changes nothing that is seen from outside except what stands in a span.
fn first_in_span(
    trial: &mut Trial,
    net: &Netlist,
    plan: &Plan,
    right: &[u64],
    wrong: &mut [u64],
    cell: NetId,
    span: Span,
    many: usize,
) -> Option<HeldStem>
    requires settled { IsSettled net.now.circuit plan.now trial.old right.now }
    requires room { length wrong.old ≡ near_count span * 16 }
    requires cell { IsCell net.now.circuit cell.number }
    requires span { IsSpanOfCell net.now.circuit (shown_nets net.now.circuit plan.now) cell.number span }
    requires some { span.low < span.past }
    requires many { many ≤ 1024 }
    ensures first { IsFirstHeld (IsUnheardThere net.now.circuit plan.now trial.old.points cell.number) many result }
    ensures settled { IsSettled net.now.circuit plan.now trial.new right.now }
    ensures points { trial.new.points ≡ trial.old.points }
    ensures room { length wrong.new ≡ length wrong.old }
{
    let low = first_of_stem(trial, net, plan, right, wrong, cell, false, span, many);
    let bound = low.unwrap_or(many);
    let high = first_of_stem(trial, net, plan, right, wrong, cell, true, span, bound);
    earlier(low, high)
}

/// The first of the first `many` points at which the stem of a cell is unheard, held at a bit.
fn first_of_stem(
    trial: &mut Trial,
    net: &Netlist,
    plan: &Plan,
    right: &[u64],
    wrong: &mut [u64],
    cell: NetId,
    held: bool,
    span: Span,
    many: usize,
) -> Option<usize>
    requires settled { IsSettled net.now.circuit plan.now trial.old right.now }
    requires room { length wrong.old ≡ near_count span * 16 }
    requires cell { IsCell net.now.circuit cell.number }
    requires span { IsSpanOfCell net.now.circuit (shown_nets net.now.circuit plan.now) cell.number span }
    requires some { span.low < span.past }
    requires many { many ≤ 1024 }
    ensures first { IsFirstIn (IsUnheardThere net.now.circuit plan.now trial.old.points cell.number held) 0 many result }
    ensures settled { IsSettled net.now.circuit plan.now trial.new right.now }
    ensures points { trial.new.points ≡ trial.old.points }
    ensures room { length wrong.new ≡ length wrong.old }
{
    hold_stem(trial, net, plan, right, wrong, cell, held, span);
    first_held(trial, net, plan, right, wrong, cell, held, span, many)
}

/// Writes the lanes of the rails and of the nets of a span with the stem of a cell held at a bit.
fn hold_stem(
    trial: &mut Trial,
    net: &Netlist,
    plan: &Plan,
    right: &[u64],
    wrong: &mut [u64],
    cell: NetId,
    held: bool,
    span: Span,
)
    requires settled { IsSettled net.now.circuit plan.now trial.old right.now }
    requires room { length wrong.old ≡ near_count span * 16 }
    requires cell { IsCell net.now.circuit cell.number }
    requires span { IsSpanOfCell net.now.circuit (shown_nets net.now.circuit plan.now) cell.number span }
    requires some { span.low < span.past }
    ensures held { HaveLanesUnder net.now.circuit (StuckAt.Stem cell.number held) trial.old.points (near_nets net.now.circuit plan.now span) (near_count span) wrong.new }
    ensures settled { IsSettled net.now.circuit plan.now trial.new right.now }
    ensures points { trial.new.points ≡ trial.old.points }
    ensures room { length wrong.new ≡ length wrong.old }
{
    // What a checked netlist keeps is known from here on.
    let _nets = net.nets();
    let _width = plan.states.width();
    let fault = Fault::Stem {
        net: cell,
        value: held,
    };
    let near = trial.near.get(span.low).as_slice();
    let count = wrong.len() / 16;
    trial.bench.write_lanes(Some(fault), &near[..count], wrong);
}

/// The first of the first `many` points at which the stem of a cell is unheard, where the lanes without it held are
/// written, and those of the rails and of the nets of a span with it held.
fn first_held(
    trial: &Trial,
    net: &Netlist,
    plan: &Plan,
    right: &[u64],
    wrong: &[u64],
    cell: NetId,
    held: bool,
    span: Span,
    many: usize,
) -> Option<usize>
    requires settled { IsSettled net.now.circuit plan.now trial.now right.now }
    requires held { HaveLanesUnder net.now.circuit (StuckAt.Stem cell.number held) trial.now.points (near_nets net.now.circuit plan.now span) (near_count span) wrong.now }
    requires room { length wrong.now ≡ near_count span * 16 }
    requires cell { IsCell net.now.circuit cell.number }
    requires span { IsSpanOfCell net.now.circuit (shown_nets net.now.circuit plan.now) cell.number span }
    requires some { span.low < span.past }
    requires many { many ≤ 1024 }
    ensures first { IsFirstIn (IsUnheardThere net.now.circuit plan.now trial.now.points cell.number held) 0 many result }
{
    // That there is no ring is known from here on.
    let _order = net.order();
    let _width = plan.states.width();
    first_unheard(right, wrong, span.low, wrong.len() / 16, many)
}

/// The second point, if there is one, else the first one; the stem is held at 0 at the first one and at 1 at the second.
fn earlier(low: Option<usize>, high: Option<usize>) -> Option<HeldStem>
    ensures earlier { result ≡ earlier low high }
{
    match high {
        Some(point) => Some(HeldStem { held: true, point }),
        None => match low {
            Some(point) => Some(HeldStem { held: false, point }),
            None => None,
        },
    }
}
