//! What steps of the two latches would show and leave.
ghost use Rattle.std.specs.Prelude.{◌≡◌, ◌≤◌, ◌^◌, length, All, IfOk};
ghost use Rattle.fault_secure.specs.CodePlan.{IsPlanOf};

use super::{opened, ring};
use fault_sim::{Outcome, Sim, blank_outcomes};
use std::alloc::{AllocError, Global};
use std::test::Fail;
use tsc_io::Items;
use tsc_net::{Bits, Fault, NetId, PlannedNetlist, Span};

/// The output, the second rail, and the state that a step leaves.
type Seen = (u64, bool, u64);

/// From each state over the inputs 0 and 1, where nothing is wrong: the latches exchange their bits.
static RIGHT: [Seen; 8] = [
    (0, false, 0),
    (0, true, 0),
    (0, false, 2),
    (0, true, 2),
    (1, false, 1),
    (1, true, 1),
    (1, false, 3),
    (1, true, 3),
];

/// The same where the pin of the first latch is held at 0.
static HELD: [Seen; 8] = [
    (0, false, 0),
    (0, true, 0),
    (0, false, 0),
    (0, true, 0),
    (1, false, 1),
    (1, true, 1),
    (1, false, 1),
    (1, true, 1),
];

fn seen_of(outcome: Outcome) -> Seen {
    (outcome.view.outputs, outcome.view.rail2, outcome.state)
}

/// The inputs 0 and 1.
fn both_inputs(alloc: Global) -> Result<Items<Bits>, AllocError>
    ensures bits { IfOk result (All (λ input. length input ≡ 1)) }
    ensures two { IfOk result (λ inputs. length inputs ≡ 2) }
{
    let mut inputs = Items::new(alloc);
    inputs.push(Bits::from_slice(alloc, &[false])?)?;
    inputs.push(Bits::from_slice(alloc, &[true])?)?;
    Ok(inputs)
}

/// Whether steps from the four states, with the fault or without it, are what is wanted.
fn is_seen(
    alloc: Global,
    sim: &mut Sim,
    with_fault: bool,
    inputs: &[Bits],
    wanted: &[Seen],
) -> Result<bool, AllocError>
    requires inputs { All (λ input. length input ≡ 1) inputs.now }
    requires two { length inputs.now ≡ 2 }
    requires one { sim.old.bench.circuit.inputs ≡ 1 }
    requires few { length sim.old.bench.circuit.latches ≤ 64 }
    requires states { 4 ≤ 2 ^ length sim.old.bench.circuit.latches }
    ensures circuit { sim.new.bench.circuit ≡ sim.old.bench.circuit }
{
    let mut list = blank_outcomes(alloc, 9)?;
    sim.outcomes_into(with_fault, 4, inputs, &mut list);
    let mut same = list.len() == wanted.len();
    for (outcome, seen) in list.as_slice().iter().zip(wanted) {
        same = same && seen_of(*outcome) == *seen;
    }
    Ok(same)
}

/// Whether steps without the fault and with it are right.
fn both_are_seen(alloc: Global, sim: &mut Sim) -> Result<bool, AllocError>
    requires one { sim.old.bench.circuit.inputs ≡ 1 }
    requires few { length sim.old.bench.circuit.latches ≤ 64 }
    requires states { 4 ≤ 2 ^ length sim.old.bench.circuit.latches }
{
    let inputs = both_inputs(alloc)?;
    let right = is_seen(alloc, sim, false, inputs.as_slice(), &RIGHT)?;
    let held = is_seen(alloc, sim, true, inputs.as_slice(), &HELD)?;
    Ok(right && held)
}

/// Whether the pin of the first latch, held at 0, changes what is left and nothing else.
fn are_seen(alloc: Global, read: &PlannedNetlist) -> Option<bool>
    requires plan { IsPlanOf read.now.net.circuit read.now.plan }
{
    if read.net.inputs() != 1 || read.net.latches() != 2 {
        return None;
    }
    let pin = Fault::Pin {
        driver: NetId { number: 1 },
        index: 0,
        value: false,
    };
    let mut sim = opened(alloc, read, pin, Span { first: 7, last: 7 })?;
    let seen = both_are_seen(alloc, &mut sim);
    sim.close();
    seen.ok()
}

/// Whether all outcomes of the two latches are seen.
fn ring_is_seen(alloc: Global) -> Option<bool> {
    let read = ring(alloc)?;
    are_seen(alloc, &read)
}

#[test]
fn outcomes_of_latches(rt: HostRuntime) -> Result<(), Fail> {
    assert_eq!(rt; ring_is_seen(rt.alloc()), Some(true));
    Ok(())
}
