//! Steps that are worked out 1,024 at once. Each step has a place: those from the state 0 come first, input by input, then
//! those from the state 1, and so on. The places of a batch are those with the same quotient by 1,024. States are numbers here, so there
//! are at most 64 latches.
ghost use Rattle.std.specs.Prelude.{◌≡◌, ◌≢◌, ℕ, ◌+◌, ◌*◌, ◌/◌, ◌%◌, ◌<◌, ◌≤◌, ◌^◌, length, map, All, IsSome};
ghost use Rattle.tsc_bits.specs.Bits.{binary, bits_of};
ghost use Rattle.tsc_net.specs.Fault.{stuck_at_or_none};
ghost use Rattle.lane_sim.specs.Points.{ArePointsOf, KeepsOthers};
ghost use Rattle.fault_secure.specs.CodePlan.{next_nets};
ghost use Rattle.fault_sim.specs.Sim.{watched_nets, number_at, point_bit, IsViewOf};
ghost use Rattle.fault_sim.specs.Shown.{IsShownOf, taken_bit};
ghost use Rattle.fault_sim.specs.Batch.{ArePlaceOutcomes, input_of, IsPoint, ShowsBatch};

use crate::outcome::{Outcome, OutcomeList};
use crate::shown::{Shown, next_number, state_number, view_of};
use lane_sim::{Bench, Points};
use tsc_net::{Bits, Fault};

/// Puts into a list, over what is there, the outcomes of the steps at as many places, under the fault if there is one.
pub(crate) fn put_outcomes(
    bench: &mut Bench,
    points: &mut Points,
    shown: &Shown,
    fault: Option<Fault>,
    inputs: &[Bits],
    list: &mut OutcomeList,
)
    requires few { length bench.old.circuit.latches ≤ 64 }
    requires points { ArePointsOf bench.old.circuit points.old }
    requires shown { IsShownOf bench.old.circuit shown.now.plan.now shown.now }
    requires watched { bench.old.watched ≡ watched_nets bench.old.circuit shown.now.plan.now }
    requires inputs { All (λ input. length input ≡ bench.old.circuit.inputs) inputs.now }
    requires states { length list.old ≤ 2 ^ length bench.old.circuit.latches * length inputs.now }
    ensures outcomes { ArePlaceOutcomes bench.old.circuit shown.now.plan.now (stuck_at_or_none fault) inputs.now (length list.old) list.new }
    ensures points { ArePointsOf bench.old.circuit points.new }
    ensures circuit { bench.new.circuit ≡ bench.old.circuit }
    ensures watched { bench.new.watched ≡ bench.old.watched }
    ensures rows { bench.new.rows ≡ bench.old.rows }
{
    let count = list.len();
    for place in 0..count {
        settle_for(bench, points, fault, inputs, place, count);
        let outcome = outcome_at(bench, shown, place % 1024, fault);
        list.replace(place, outcome);
    }
}

/// Settles the batch of a place where it is the first one there; else that was done before.
fn settle_for(
    bench: &mut Bench,
    points: &mut Points,
    fault: Option<Fault>,
    inputs: &[Bits],
    place: usize,
    count: usize,
)
    requires few { length bench.old.circuit.latches ≤ 64 }
    requires points { ArePointsOf bench.old.circuit points.old }
    requires inputs { All (λ input. length input ≡ bench.old.circuit.inputs) inputs.now }
    requires states { count ≤ 2 ^ length bench.old.circuit.latches * length inputs.now }
    requires place { place < count }
    requires before { place % 1024 ≢ 0 → ShowsBatch bench.old (stuck_at_or_none fault) inputs.now count place }
    ensures batch { ShowsBatch bench.new (stuck_at_or_none fault) inputs.now count place }
    ensures points { ArePointsOf bench.old.circuit points.new }
    ensures circuit { bench.new.circuit ≡ bench.old.circuit }
    ensures watched { bench.new.watched ≡ bench.old.watched }
    ensures rows { bench.new.rows ≡ bench.old.rows }
{
    if place % 1024 == 0 {
        settle_batch(bench, points, fault, inputs, place, count);
    }
}

/// Settles a bench at the places of a batch, under the fault if there is one.
fn settle_batch(
    bench: &mut Bench,
    points: &mut Points,
    fault: Option<Fault>,
    inputs: &[Bits],
    first: usize,
    count: usize,
)
    requires few { length bench.old.circuit.latches ≤ 64 }
    requires points { ArePointsOf bench.old.circuit points.old }
    requires inputs { All (λ input. length input ≡ bench.old.circuit.inputs) inputs.now }
    requires states { count ≤ 2 ^ length bench.old.circuit.latches * length inputs.now }
    requires place { first < count }
    requires first { first % 1024 ≡ 0 }
    ensures batch { ShowsBatch bench.new (stuck_at_or_none fault) inputs.now count first }
    ensures points { ArePointsOf bench.old.circuit points.new }
    ensures circuit { bench.new.circuit ≡ bench.old.circuit }
    ensures watched { bench.new.watched ≡ bench.old.watched }
    ensures rows { bench.new.rows ≡ bench.old.rows }
{
    put_batch(points, inputs, first, count);
    bench.settle(points, fault.as_ref());
}

/// Puts the places from `first` on, one for each point.
fn put_batch(points: &mut Points, inputs: &[Bits], first: usize, count: usize)
    requires few { points.old.latches ≤ 64 }
    requires inputs { All (λ input. length input ≡ points.old.inputs) inputs.now }
    requires states { count ≤ 2 ^ points.old.latches * length inputs.now }
    requires place { first < count }
    ensures put { (p : ℕ) → p < 1024 → first + p < count
        → IsPoint points.new p (input_of inputs.now (first + p)) (bits_of points.old.latches ((first + p) / length inputs.now)) }
    ensures inputs { points.new.inputs ≡ points.old.inputs }
    ensures latches { points.new.latches ≡ points.old.latches }
{
    for point in 0..(count - first).min(1024) {
        put_place(points, inputs, first + point, point);
    }
}

/// Puts a place at a point.
fn put_place(points: &mut Points, inputs: &[Bits], place: usize, point: usize)
    requires few { points.old.latches ≤ 64 }
    requires inputs { All (λ input. length input ≡ points.old.inputs) inputs.now }
    requires place { place < 2 ^ points.old.latches * length inputs.now }
    requires point { point < 1024 }
    ensures put { IsPoint points.new point (input_of inputs.now place) (bits_of points.old.latches (place / length inputs.now)) }
    ensures others { KeepsOthers point points.old points.new }
    ensures inputs { points.new.inputs ≡ points.old.inputs }
    ensures latches { points.new.latches ≡ points.old.latches }
{
    let width = inputs.len();
    points.put_numbered(point, (place / width) as u64, &inputs[place % width]);
}

/// The outcome at a point of a settled bench.
fn outcome_at(bench: &Bench, shown: &Shown, point: usize, fault: Option<Fault>) -> Outcome
    requires point { point < 1024 }
    requires few { length bench.now.circuit.latches ≤ 64 }
    requires shown { IsShownOf bench.now.circuit shown.now.plan.now shown.now }
    requires watched { bench.now.watched ≡ watched_nets bench.now.circuit shown.now.plan.now }
    requires settled { IsSome bench.now.lanes }
    ensures view { IsViewOf bench.now.circuit shown.now.plan.now (point_bit bench.now point) result.view }
    ensures next { result.next ≡ number_at (point_bit bench.now point) (next_nets bench.now.circuit) }
    ensures state { result.state ≡ binary (map (taken_bit (stuck_at_or_none fault) (point_bit bench.now point)) shown.now.latches.items) }
{
    Outcome {
        view: view_of(bench, shown, point),
        next: next_number(bench, shown, point),
        state: state_number(bench, shown, point, fault),
    }
}
