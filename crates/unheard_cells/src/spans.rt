//! Where among the nets that are seen from outside those stand that a cell can change.
ghost use Rattle.std.specs.Prelude.{◌≡◌, ℕ, ◌<◌, ◌≤◌, ◌+◌, length, All, IfOk, OnOk, slice_index_or};
ghost use Rattle.fault_secure.specs.Circuit.{bit, nets};
ghost use Rattle.fault_secure.specs.CodePlan.{IsPlanOf};
ghost use Rattle.fault_secure.specs.FailingCell.{IsCell};
ghost use Rattle.tsc_net.specs.PlanView.{net_numbers};
ghost use Rattle.unheard_cells.specs.Spans.{widened, widened_if, AreSpansOf, IsSpanOfCell};
ghost use Rattle.unheard_cells.specs.There.{shown_nets};
ghost use Rattle.unheard_cells.specs.Trial.{IsTrialOf};

use crate::trial::Trial;
use net_cones::cone_marks;
use std::alloc::{AllocError, Global};
use tsc_net::{NetId, Netlist, Plan};

/// Places of a list: those from `low` on and below `past`.
#[derive(Clone, Copy)]
pub(crate) struct Span {
    /// The first place.
    pub low: usize,
    /// One more than the last place, or 0 where there is none.
    pub past: usize,
}

/// A span for each node: the nets of the list that depend on the node stand in it.
///
/// # Errors
///
/// Want of memory.
pub(crate) fn node_spans(
    alloc: Global,
    net: &Netlist,
    list: &[NetId],
) -> Result<Vec<Span>, AllocError>
    requires within { All (λ root. root.number < nets net.now.circuit) list.now }
    ensures spans { IfOk result (λ spans. AreSpansOf net.now.circuit (net_numbers list.now) (length list.now) spans.items) }
{
    let mut spans = vec![in alloc; Span { low: 0, past: 0 }; net.nodes()]?;
    for place in 0..list.len() {
        add_place(alloc, net, list, place, &mut spans)?;
    }
    Ok(spans)
}

/// Widens the spans of the nodes on which the net at a place depends.
///
/// # Errors
///
/// Want of memory.
fn add_place(
    alloc: Global,
    net: &Netlist,
    list: &[NetId],
    place: usize,
    spans: &mut [Span],
) -> Result<(), AllocError>
    requires within { All (λ root. root.number < nets net.now.circuit) list.now }
    requires place { place < length list.now }
    requires spans { AreSpansOf net.now.circuit (net_numbers list.now) place spans.old }
    ensures spans { OnOk result (AreSpansOf net.now.circuit (net_numbers list.now) (place + 1) spans.new) }
    ensures sized { length spans.new ≡ length spans.old }
{
    let marks = cone_marks(alloc, net, &[list[place]])?;
    widen_marked(&marks, place, spans);
    Ok(())
}

/// Widens the spans that have a mark, to a place after all of theirs.
fn widen_marked(marks: &[bool], place: usize, spans: &mut [Span])
    requires sized { length marks.now ≡ length spans.old }
    requires place { place < 18446744073709551615 }
    ensures widened { (q : ℕ) (d : Span) → q < length spans.old → slice_index_or spans.new q d ≡ widened_if (bit marks.now q) place (slice_index_or spans.old q d) }
    ensures sized { length spans.new ≡ length spans.old }
{
    for node in 0..spans.len() {
        if marks[node] {
            spans[node] = widen(spans[node], place);
        }
    }
}

/// The span with a place after all of its own.
fn widen(span: Span, place: usize) -> Span
    requires place { place < 18446744073709551615 }
    ensures widened { result ≡ widened place span }
{
    let low = if span.past == 0 { place } else { span.low };
    Span {
        low,
        past: place + 1,
    }
}

/// Where what is seen from outside stands that a cell can change: of a latch it is all.
pub(crate) fn span_of(trial: &Trial, net: &Netlist, plan: &Plan, cell: NetId) -> Span
    requires trial { IsTrialOf net.now.circuit plan.now trial.now }
    requires cell { IsCell net.now.circuit cell.number }
    ensures span { IsSpanOfCell net.now.circuit (shown_nets net.now.circuit plan.now) cell.number result }
{
    let first = net.inputs() + net.latches();
    let at = cell.number as usize;
    if at < first {
        return Span {
            low: 0,
            past: trial.near.len(),
        };
    }
    trial.spans[at - first]
}
