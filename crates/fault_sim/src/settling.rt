//! The faults that may act, and how a bench is settled for one step.
ghost use Rattle.std.specs.Prelude.{◌≡◌, List, Bool, length, IsSome};
ghost use Rattle.fault_secure.specs.Circuit.{bit};
ghost use Rattle.fault_secure.specs.StuckAt.{present};
ghost use Rattle.fault_secure.specs.Settle.{Settles};
ghost use Rattle.fault_secure.specs.OneRun.{HasOneValuation};
ghost use Rattle.tsc_net.specs.When.{has_step};
ghost use Rattle.tsc_net.specs.Fault.{stuck_at_or_none};
ghost use Rattle.lane_sim.specs.Points.{ArePointsOf};
ghost use Rattle.fault_sim.specs.Sim.{is_none_or_listed, ShowsFirst};

use lane_sim::{Bench, Points};
use tsc_net::{Bits, Fault, Netlist, When, is_listed};

/// Whether there is no fault, or a listed one.
pub(crate) fn is_none_or_listed(net: &Netlist, fault: Option<Fault>) -> bool
    ensures listed { result ≡ is_none_or_listed net.now.circuit (stuck_at_or_none fault) }
{
    match fault {
        Some(fault) => is_listed(net, &fault),
        None => true,
    }
}

/// The fault where it is present at the step.
pub(crate) fn fault_at(when: &When, step: u64, fault: Option<Fault>) -> Option<Fault>
    ensures fault { stuck_at_or_none result ≡ present (has_step when.now step) (stuck_at_or_none fault) }
{
    if_present(when.has(step), fault)
}

/// The fault where it is present.
pub(crate) fn if_present(is_present: bool, fault: Option<Fault>) -> Option<Fault>
    ensures fault { stuck_at_or_none result ≡ present is_present (stuck_at_or_none fault) }
{
    if is_present { fault } else { None }
}

/// Settles a bench at one point, under the fault if there is one.
pub(crate) fn settle(
    bench: &mut Bench,
    points: &mut Points,
    state: &Bits,
    input: &Bits,
    fault: Option<Fault>,
)
    requires points { ArePointsOf bench.old.circuit points.old }
    requires input { length input.now ≡ bench.old.circuit.inputs }
    requires state { length state.now ≡ length bench.old.circuit.latches }
    ensures one { HasOneValuation bench.old.circuit (stuck_at_or_none fault) (bit input.now) (bit state.now) }
    ensures shows { (v : List Bool) → Settles bench.old.circuit (stuck_at_or_none fault) (bit input.now) (bit state.now) v → ShowsFirst bench.new v }
    ensures settled { IsSome bench.new.lanes }
    ensures points { ArePointsOf bench.old.circuit points.new }
    ensures circuit { bench.new.circuit ≡ bench.old.circuit }
    ensures watched { bench.new.watched ≡ bench.old.watched }
    ensures rows { bench.new.rows ≡ bench.old.rows }
{
    points.put(0, state.as_slice(), input);
    bench.settle_first(points, fault.as_ref());
}
