//! Two latches, each of which reads the other, step by step.
ghost use Rattle.std.specs.Prelude.{◌≡◌, ◌+◌, ◌-◌, ◌<◌, ◌≤◌, ◌^◌, length, IfSome};
ghost use Rattle.fault_secure.specs.CodePlan.{IsPlanOf};

mod outcomes;

use fault_sim::{Sim, StepView};
use shared_tests::net_and_plan_of;
use std::alloc::Global;
use std::test::Fail;
use tsc_bits::number_of;
use tsc_net::{Bits, Fault, NetId, PlannedNetlist, Span, When};

/// The nets: 0 the input, 1 and 2 the latches. The first latch is the output, the second its check, and the second and the input stand for the rails.
const RING: &[u8] =
    b".inputs i\n.outputs p q i\n#tsc 2 mofn\n#tsc check q\n#tsc state 01\n#tsc state 10\n.latch q p 0\n.latch p q 1\n";

/// A simulation of the latches, with a fault that is present at these steps.
#[tactic(auto, using(fault_sim::proofs::PlanNets::plan_nets))]
fn opened<'a>(alloc: Global, read: &'a PlannedNetlist, fault: Fault, steps: Span) -> Option<Sim<'a>>
    requires plan { IsPlanOf read.now.net.circuit read.now.plan }
    requires steps { steps.first ≤ steps.last }
    ensures circuit { IfSome result (λ sim. sim.bench.circuit ≡ read.now.net.circuit) }
    ensures first { IfSome result (λ sim. sim.step ≡ 0) }
{
    let mut when = When::new(alloc);
    when.push(steps).ok()?;
    if read.net.nets() > 1000 {
        return None;
    }
    match Sim::open(alloc, &read.net, &read.plan, Some(fault), when) {
        Ok(sim) => Some(sim),
        Err(_) => None,
    }
}

/// What a step shows: the outputs, the checks, the nets at the two latch inputs, and the rails.
type View = (u64, u64, u64, bool, bool);

/// What a step shows with these bits at the latch inputs.
fn view_of(step: StepView, next: &[bool]) -> View
    requires few { length next.now ≤ 64 }
{
    (
        step.outputs,
        step.checks,
        number_of(next),
        step.rail1,
        step.rail2,
    )
}

/// What one step shows.
fn one_step(sim: &mut Sim, input: &Bits) -> View
    requires input { length input.now ≡ sim.old.bench.circuit.inputs }
    requires steps { sim.old.step < 2 ^ 64 - 1 }
    requires latches { length sim.old.bench.circuit.latches ≡ 2 }
    ensures circuit { sim.new.bench.circuit ≡ sim.old.bench.circuit }
    ensures step { sim.new.step ≡ sim.old.step + 1 }
{
    let view = sim.step(input);
    view_of(view, sim.next())
}

/// What two steps show.
fn two_steps(mut sim: Sim, input: &Bits) -> (View, View)
    requires input { length input.now ≡ sim.bench.circuit.inputs }
    requires first { sim.step ≡ 0 }
    requires latches { length sim.bench.circuit.latches ≡ 2 }
{
    let first = one_step(&mut sim, input);
    let second = one_step(&mut sim, input);
    sim.close();
    (first, second)
}

/// A fault, the first and the last step at which it is present, and what two steps show with the input 1.
type Row = (Fault, u64, u64, View, View);

/// What is shown at the first step, with the state 01, where nothing is wrong.
const RIGHT: View = (0, 1, 2, true, true);

/// What is shown with the state 11.
const BOTH: View = (1, 1, 3, true, true);

/// What is shown with the state 10.
const FIRST_ONE: View = (1, 0, 1, false, true);

/// What is shown with the state 00.
const NEITHER: View = (0, 0, 0, false, true);

/// The pin of the first latch is held at 0, that of the second at 1, and a latch's own net at 1. A held pin shows a step later.
static ROWS: [Row; 5] = [
    (
        Fault::Pin {
            driver: NetId { number: 1 },
            index: 0,
            value: false,
        },
        0,
        0,
        RIGHT,
        NEITHER,
    ),
    (
        Fault::Pin {
            driver: NetId { number: 1 },
            index: 0,
            value: false,
        },
        1,
        u64::MAX,
        RIGHT,
        FIRST_ONE,
    ),
    (
        Fault::Pin {
            driver: NetId { number: 2 },
            index: 0,
            value: true,
        },
        0,
        0,
        RIGHT,
        BOTH,
    ),
    (
        Fault::Stem {
            net: NetId { number: 1 },
            value: true,
        },
        0,
        0,
        BOTH,
        BOTH,
    ),
    (
        Fault::Stem {
            net: NetId { number: 2 },
            value: true,
        },
        1,
        u64::MAX,
        RIGHT,
        BOTH,
    ),
];

/// Whether two steps with the input 1 show what the row says.
fn is_right(alloc: Global, read: &PlannedNetlist, row: &Row) -> Option<bool>
    requires plan { IsPlanOf read.now.net.circuit read.now.plan }
{
    let (fault, first, last, one, two) = row;
    let input = Bits::from_slice(alloc, &[true]).ok()?;
    if read.net.inputs() != 1 || read.net.latches() != 2 || *first > *last {
        return None;
    }
    let steps = Span {
        first: *first,
        last: *last,
    };
    let sim = opened(alloc, read, *fault, steps)?;
    Some(two_steps(sim, &input) == (*one, *two))
}

/// The latches, as a netlist with its plan.
fn ring(alloc: Global) -> Option<PlannedNetlist>
    ensures plan { IfSome result (λ read. IsPlanOf read.net.circuit read.plan) }
{
    net_and_plan_of(alloc, RING)
}

/// The place of the first row that isn't right, if there is one.
fn first_wrong(alloc: Global, read: &PlannedNetlist, rows: &[Row]) -> Option<Option<usize>>
    requires plan { IsPlanOf read.now.net.circuit read.now.plan }
{
    for (place, row) in rows.iter().enumerate() {
        if !is_right(alloc, read, row)? {
            return Some(Some(place));
        }
    }
    Some(None)
}

/// The place of the first row that isn't right of the latches.
fn first_wrong_of_ring(alloc: Global) -> Option<Option<usize>> {
    let read = ring(alloc)?;
    first_wrong(alloc, &read, &ROWS)
}

#[test]
fn steps_of_latches(rt: HostRuntime) -> Result<(), Fail> {
    assert_eq!(rt; first_wrong_of_ring(rt.alloc()), Some(None));
    Ok(())
}
