//! The first places at which faults are exposed.
ghost use Rattle.std.specs.Prelude.{◌≡◌, ◌+◌, ◌-◌, ◌%◌, ◌<◌, ◌≤◌, ◌^◌, length, Some, IfSome, IsTrue};
ghost use Rattle.std.specs.Option.{option_map};
ghost use Rattle.fault_secure.specs.CodePlan.{IsPlanOf};
ghost use Rattle.fault_secure.specs.Listed.{listed_faults};
ghost use Rattle.fault_secure.specs.StuckAt.{is_listed};
ghost use Rattle.tsc_net.specs.Fault.{stuck_at};
ghost use Rattle.vectors.specs.Vectors.{ExposesAt};
ghost use Rattle.lane_sim.specs.First.{IsFirstIn};
ghost use Rattle.net_cones.specs.Cones.{MarksCone};
ghost use Rattle.vectors.specs.Trial.{IsTrialOf, ArePointsFrom, AreAllFirst, AreFirst, held_bit};
ghost use Rattle.vectors.specs.Unheard.{rails, IsKnown};
ghost use Rattle.fault_secure.specs.Exposing.{point_count};

use crate::exposing::exposing_fault;
use crate::places::Places;
use crate::putting::put_batch;
use crate::trial::Trial;
use crate::unheard::Unheard;
use tsc_net::{Fault, Faults, Netlist, Plan};

/// Puts for each fault the first place below `count` at which it is exposed, if there is one.
pub(crate) fn find_places(
    trial: &mut Trial,
    net: &Netlist,
    plan: &Plan,
    faults: &Faults,
    count: usize,
    unheard: &mut Unheard,
    places: &mut Places,
)
    requires trial { IsTrialOf net.now.circuit trial.old }
    requires plan { IsPlanOf net.now.circuit plan.now }
    requires inputs { net.now.circuit.inputs ≤ 16 }
    requires few { count ≤ 65536 }
    requires count { count ≤ point_count net.now.circuit plan.now }
    requires faults { faults.now ≡ listed_faults net.now.circuit }
    requires marks { MarksCone net.now.circuit (rails plan.now) unheard.old.heard.items }
    requires none { AreAllFirst net.now.circuit plan.now 0 places.old }
    ensures found { AreAllFirst net.now.circuit plan.now count places.new }
{
    for batch in 0..(count + 1023) / 1024 {
        let first = batch * 1024;
        let past = (first + 1024).min(count);
        find_in_batch(trial, net, plan, faults, first, past, unheard, places);
    }
}

/// Puts it for the faults that were exposed at no place below `first`, where they are exposed below `past`.
fn find_in_batch(
    trial: &mut Trial,
    net: &Netlist,
    plan: &Plan,
    faults: &Faults,
    first: usize,
    past: usize,
    unheard: &mut Unheard,
    places: &mut Places,
)
    requires trial { IsTrialOf net.now.circuit trial.old }
    requires plan { IsPlanOf net.now.circuit plan.now }
    requires inputs { net.now.circuit.inputs ≤ 16 }
    requires whole { first % 64 ≡ 0 }
    requires order { first ≤ past }
    requires batch { past ≤ first + 1024 }
    requires few { past ≤ 65536 }
    requires count { past ≤ point_count net.now.circuit plan.now }
    requires faults { faults.now ≡ listed_faults net.now.circuit }
    requires marks { MarksCone net.now.circuit (rails plan.now) unheard.old.heard.items }
    requires found { AreAllFirst net.now.circuit plan.now first places.old }
    ensures found { AreAllFirst net.now.circuit plan.now past places.new }
    ensures marks { MarksCone net.now.circuit (rails plan.now) unheard.new.heard.items }
    ensures trial { IsTrialOf net.now.circuit trial.new }
{
    put_batch(trial, net, plan, first, past);
    trial.settle();
    unheard.begin();
    try_holding(
        trial, net, plan, faults, false, first, past, unheard, places,
    );
    try_holding(trial, net, plan, faults, true, first, past, unheard, places);
}

/// Puts it for the faults of a pass, which hold this bit. Along a chain of gates one fault after another changes nothing further on then,
/// since all hold the same bit there.
fn try_holding(
    trial: &mut Trial,
    net: &Netlist,
    plan: &Plan,
    faults: &Faults,
    held: bool,
    first: usize,
    past: usize,
    unheard: &mut Unheard,
    places: &mut Places,
)
    requires trial { IsTrialOf net.now.circuit trial.old }
    requires plan { IsPlanOf net.now.circuit plan.now }
    requires settled { trial.old.bench.points ≡ Some trial.old.points }
    requires order { first ≤ past }
    requires batch { past ≤ first + 1024 }
    requires few { past ≤ 65536 }
    requires put { ArePointsFrom net.now.circuit plan.now trial.old.points first (past - first) }
    requires faults { faults.now ≡ listed_faults net.now.circuit }
    requires known { IsKnown net.now.circuit plan.now trial.old.points (past - first) unheard.old }
    requires found { AreFirst net.now.circuit plan.now held 0 past first places.old }
    ensures found { AreFirst net.now.circuit plan.now held (length (listed_faults net.now.circuit)) past first places.new }
    ensures known { IsKnown net.now.circuit plan.now trial.new.points (past - first) unheard.new }
    ensures trial { trial.new ≡ trial.old }
{
    for number in 0..faults.len() {
        try_fault(
            trial, net, plan, faults, held, first, past, unheard, places, number,
        );
    }
}

/// Puts it for the fault of a number, if it is one of the pass.
fn try_fault(
    trial: &mut Trial,
    net: &Netlist,
    plan: &Plan,
    faults: &Faults,
    held: bool,
    first: usize,
    past: usize,
    unheard: &mut Unheard,
    places: &mut Places,
    number: usize,
)
    requires trial { IsTrialOf net.now.circuit trial.old }
    requires plan { IsPlanOf net.now.circuit plan.now }
    requires settled { trial.old.bench.points ≡ Some trial.old.points }
    requires order { first ≤ past }
    requires batch { past ≤ first + 1024 }
    requires few { past ≤ 65536 }
    requires put { ArePointsFrom net.now.circuit plan.now trial.old.points first (past - first) }
    requires faults { faults.now ≡ listed_faults net.now.circuit }
    requires known { IsKnown net.now.circuit plan.now trial.old.points (past - first) unheard.old }
    requires number { number < length (listed_faults net.now.circuit) }
    requires found { AreFirst net.now.circuit plan.now held number past first places.old }
    ensures found { AreFirst net.now.circuit plan.now held (number + 1) past first places.new }
    ensures known { IsKnown net.now.circuit plan.now trial.new.points (past - first) unheard.new }
    ensures trial { trial.new ≡ trial.old }
{
    let fault = faults.get(number);
    if held_bit(fault) != held {
        return;
    }
    let found = places.get(number);
    let place = place_of(trial, net, plan, fault, first, past, unheard, found);
    places.put(number, place);
}

/// The bit at which a fault holds its stem or its pin.
fn held_bit(fault: Fault) -> bool
    ensures bit { result ≡ held_bit (stuck_at fault) }
{
    match fault {
        Fault::Stem { net: _, value } => value,
        Fault::Pin {
            driver: _,
            index: _,
            value,
        } => value,
    }
}

/// The place that was found for a fault, or else the first one from `first` on and below `past` at which it is exposed.
fn place_of(
    trial: &mut Trial,
    net: &Netlist,
    plan: &Plan,
    fault: Fault,
    first: usize,
    past: usize,
    unheard: &mut Unheard,
    found: Option<usize>,
) -> Option<usize>
    requires trial { IsTrialOf net.now.circuit trial.old }
    requires plan { IsPlanOf net.now.circuit plan.now }
    requires settled { trial.old.bench.points ≡ Some trial.old.points }
    requires fault { IsTrue (is_listed net.now.circuit (stuck_at fault)) }
    requires order { first ≤ past }
    requires batch { past ≤ first + 1024 }
    requires put { ArePointsFrom net.now.circuit plan.now trial.old.points first (past - first) }
    requires found { IsFirstIn (ExposesAt net.now.circuit plan.now (stuck_at fault)) 0 first found }
    requires known { IsKnown net.now.circuit plan.now trial.old.points (past - first) unheard.old }
    ensures found { IsFirstIn (ExposesAt net.now.circuit plan.now (stuck_at fault)) 0 past result }
    ensures known { IsKnown net.now.circuit plan.now trial.new.points (past - first) unheard.new }
    ensures trial { trial.new ≡ trial.old }
{
    if found.is_some() {
        return found;
    }
    let settling = exposing_fault(net, fault);
    let point = unheard.first_agreement(trial, net, plan, settling, past - first);
    place_from(first, point)
}

/// The place of a point of the batch that begins at `first`, if there is one.
fn place_from(first: usize, point: Option<usize>) -> Option<usize>
    requires room { IfSome point (λ point. first + point < 2 ^ 64) }
    ensures place { result ≡ option_map (λ point. first + point) point }
{
    match point {
        Some(point) => Some(first + point),
        None => None,
    }
}
