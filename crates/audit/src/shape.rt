//! Whether a netlist fits its source: as many inputs, outputs and states; and how many points are tried.
ghost use Rattle.std.specs.Prelude.{◌*◌, ◌^◌, ◌<◌, ◌≤◌, IfSome, IsNone, IsTrue, IsFalse, ◌↔◌};
ghost use Rattle.fault_secure.specs.Logic.{inputs_of};
ghost use Rattle.tsc_net.specs.SourceView.{logic_of};
ghost use Rattle.audit.specs.Verdict.{audit_points, FitsSource, HasOther};

use crate::verdict::Shape;
use tsc_net::{Netlist, Plan, SourceMeaning};

/// The most points that an audit tries.
const MOST_POINTS: usize = 1_048_576;

/// What the netlist has another number of than its source, if there is such: the inputs, then the outputs, then the states.
pub fn shape_reason(source: &SourceMeaning, net: &Netlist, plan: &Plan) -> Option<Shape>
    ensures other { IfSome result (HasOther (logic_of source.now) net.now.circuit plan.now) }
    ensures fits { IsNone result → FitsSource (logic_of source.now) net.now.circuit plan.now }
{
    if net.inputs() != source.inputs() {
        Some(Shape::Inputs)
    } else if plan.outputs != source.outputs() {
        Some(Shape::Outputs)
    } else if plan.listed_states() != source.states() {
        Some(Shape::States)
    } else {
        None
    }
}

/// Whether the source has more points than are tried.
pub fn has_too_many_points(source: &SourceMeaning) -> bool
    ensures many { IsTrue result ↔ (1048576 < audit_points (logic_of source.now)) }
    ensures few { IsFalse result → inputs_of (logic_of source.now) ≤ 20 }
{
    are_too_many(source.states(), source.inputs())
}

/// Whether there are more than 1,048,576 points of so many states and inputs.
fn are_too_many(states: usize, inputs: usize) -> bool
    requires some { 0 < states }
    requires few { states < 4097 }
    ensures many { IsTrue result ↔ (1048576 < states * 2 ^ inputs) }
    ensures few { IsFalse result → inputs ≤ 20 }
{
    inputs > 20 || states << inputs > MOST_POINTS
}
