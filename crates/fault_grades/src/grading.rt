//! The grades of all listed faults.
ghost use Rattle.std.specs.Prelude.{◌≡◌, ℕ, ◌^◌, ◌<◌, ◌≤◌, take, length, slice_index_or, All, IfOk};
ghost use Rattle.fault_secure.specs.Circuit.{nets};
ghost use Rattle.fault_secure.specs.Listed.{listed_faults};
ghost use Rattle.tsc_net.specs.Limits.{most_nets};
ghost use Rattle.fault_sim.specs.PlanNets.{HasPlanNets};
ghost use Rattle.grading_laws.specs.Counts.{AreGrades};
ghost use Rattle.fault_grades.specs.Batch.{HasNets, HasRoom, AreGraded};

use crate::batch::{Room, room_for};
use crate::grade::{Grade, GradeList};
use crate::round::grade_round;
use fault_lanes::FaultLanes;
use sim_text::StepLines;
use std::alloc::{AllocError, Global};
use tsc_net::{Faults, NetId, Netlist, Plan};

/// The grades of the listed faults of a netlist over the steps: each is present at every step, in a run beside the run without a fault.
///
/// At most 1,023 faults run at once, and a batch ends when all of them are decided. All faults run over the first 16 steps, those that are
/// undecided then over 128, and so on, each time from the first step on. Memory is 8 bytes per fault beside the bench, and doesn't grow with
/// the steps.
///
/// # Errors
///
/// Want of memory.
pub fn grade_faults(
    alloc: Global,
    net: &Netlist,
    plan: &Plan,
    faults: &Faults,
    steps: &StepLines,
) -> Result<GradeList, AllocError>
    requires plan { HasPlanNets net.now.circuit plan.now }
    requires nets { nets net.now.circuit ≤ most_nets }
    requires faults { faults.now ≡ listed_faults net.now.circuit }
    requires inputs { All (λ input. length input ≡ net.now.circuit.inputs) steps.now }
    requires short { length steps.now < 2 ^ 32 }
    ensures grades { IfOk result (AreGrades net.now.circuit plan.now steps.now) }
{
    let mut items = vec![in alloc; Grade::Unseen; faults.len()]?;
    let mut room = room_for(alloc, net.inputs())?;
    let mut bench = FaultLanes::open(alloc, net)?;
    grade_all(&mut bench, net, plan, faults, steps, &mut room, &mut items);
    Ok(GradeList { items })
}

/// Grades all faults, which are undecided before, in rounds over more and more steps.
fn grade_all(
    bench: &mut FaultLanes,
    net: &Netlist,
    plan: &Plan,
    faults: &Faults,
    steps: &StepLines,
    room: &mut Room,
    grades: &mut [Grade],
)
    requires net { bench.old.circuit ≡ net.now.circuit }
    requires plan { HasPlanNets net.now.circuit plan.now }
    requires faults { faults.now ≡ listed_faults net.now.circuit }
    requires inputs { All (λ input. length input ≡ net.now.circuit.inputs) steps.now }
    requires short { length steps.now < 2 ^ 32 }
    requires room { HasRoom net.now.circuit.inputs room.old }
    requires sized { length grades.old ≡ length faults.now }
    requires unseen { (place : ℕ) → slice_index_or grades.old place Grade.Unseen ≡ Grade.Unseen }
    ensures graded { AreGraded net.now.circuit plan.now faults.now steps.now grades.new }
{
    // That there is no ring is known from here on.
    let _order = net.order();
    let outputs = outputs_of(net, plan);
    let mut done = 0;
    while done < steps.len() {
        let limit = next_limit(done, steps.len());
        grade_round(bench, plan, outputs, faults, steps, limit, room, grades);
        done = limit;
    }
}

/// The plan's outputs.
fn outputs_of<'a>(net: &'a Netlist, plan: &Plan) -> &'a [NetId]
    requires plan { HasPlanNets net.now.circuit plan.now }
    ensures nets { HasNets net.now.circuit plan.now result.now }
{
    // That outputs are nets is known from here on.
    let _nets = net.nets();
    &net.outputs()[..plan.outputs]
}

/// The limit of the next round: 16 steps, and then eight times as many, at most all.
fn next_limit(done: usize, many: usize) -> usize
    requires some { done < many }
    ensures more { done < result }
    ensures most { result ≤ many }
{
    if done == 0 {
        many.min(16)
    } else if done < many / 8 {
        done * 8
    } else {
        many
    }
}
