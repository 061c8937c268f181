//! One round: what is undecided is graded over more steps, one batch after another, each from the first step on.
ghost use Rattle.std.specs.Prelude.{◌≡◌, ℕ, ◌+◌, ◌^◌, ◌<◌, ◌≤◌, take, length, slice_index_or, All};
ghost use Rattle.fault_secure.specs.Circuit.{nets};
ghost use Rattle.fault_secure.specs.StuckAt.{fault_cell};
ghost use Rattle.fault_secure.specs.Settle.{Acyclic};
ghost use Rattle.fault_grades.specs.Grade.{grade_at, IsGradeOf};
ghost use Rattle.fault_grades.specs.Batch.{HasNets, HasRoom, kept_fault, AreGraded, AreGradedTo};

use crate::batch::{Room, next_batch, write_grades};
use crate::grade::Grade;
use crate::stepping::run_batch;
use fault_lanes::FaultLanes;
use grading_laws::{decided_faults_stay, grades_are_worked_out};
use sim_text::StepLines;
use tsc_net::{Faults, NetId, Plan};

/// Grades all undecided faults over the steps below a limit.
pub(crate) fn grade_round(
    bench: &mut FaultLanes,
    plan: &Plan,
    outputs: &[NetId],
    faults: &Faults,
    steps: &StepLines,
    limit: usize,
    room: &mut Room,
    grades: &mut [Grade],
)
    requires acyclic { Acyclic bench.old.circuit }
    requires nets { HasNets bench.old.circuit plan.now outputs.now }
    requires faults { All (λ fault. fault_cell fault < nets bench.old.circuit) faults.now }
    requires steps { All (λ bits. length bits ≡ bench.old.circuit.inputs) steps.now }
    requires limit { limit ≤ length steps.now }
    requires short { limit < 2 ^ 32 }
    requires room { HasRoom bench.old.circuit.inputs room.old }
    requires sized { length grades.old ≡ length faults.now }
    ensures graded { (before : ℕ) → before ≤ limit → AreGraded bench.old.circuit plan.now faults.now (take before steps.now) grades.old → AreGraded bench.old.circuit plan.now faults.now (take limit steps.now) grades.new }
    ensures circuit { bench.new.circuit ≡ bench.old.circuit }
    ensures room { HasRoom bench.old.circuit.inputs room.new }
{
    let mut from = 0;
    while from < grades.len() {
        from = grade_batch(
            bench, plan, outputs, faults, steps, limit, from, room, grades,
        );
    }
}

/// Grades the next undecided faults from a place on, and answers the place up to which all are graded then.
fn grade_batch(
    bench: &mut FaultLanes,
    plan: &Plan,
    outputs: &[NetId],
    faults: &Faults,
    steps: &StepLines,
    limit: usize,
    from: usize,
    room: &mut Room,
    grades: &mut [Grade],
) -> usize
    requires acyclic { Acyclic bench.old.circuit }
    requires nets { HasNets bench.old.circuit plan.now outputs.now }
    requires faults { All (λ fault. fault_cell fault < nets bench.old.circuit) faults.now }
    requires steps { All (λ bits. length bits ≡ bench.old.circuit.inputs) steps.now }
    requires limit { limit ≤ length steps.now }
    requires short { limit < 2 ^ 32 }
    requires from { from < length grades.old }
    requires room { HasRoom bench.old.circuit.inputs room.old }
    requires sized { length grades.old ≡ length faults.now }
    ensures graded { (before : ℕ) → before ≤ limit → AreGradedTo bench.old.circuit plan.now faults.now (take before steps.now) (take limit steps.now) from grades.old
        → AreGradedTo bench.old.circuit plan.now faults.now (take before steps.now) (take limit steps.now) result grades.new }
    ensures on { from < result }
    ensures end { result ≤ length grades.old }
    ensures sized { length grades.new ≡ length grades.old }
    ensures circuit { bench.new.circuit ≡ bench.old.circuit }
    ensures room { HasRoom bench.old.circuit.inputs room.new }
{
    grades_are_worked_out();
    decided_faults_stay();
    let batch = next_batch(faults, grades, from, &mut room.places, &mut room.faults);
    run_room(bench, plan, outputs, steps, limit, batch.count, room);
    write_grades(&room.places[..batch.count], &room.marks, grades);
    batch.next
}

/// Runs the first `count` faults of the room, in the lanes after lane 0.
fn run_room(
    bench: &mut FaultLanes,
    plan: &Plan,
    outputs: &[NetId],
    steps: &StepLines,
    limit: usize,
    count: usize,
    room: &mut Room,
)
    requires nets { HasNets bench.old.circuit plan.now outputs.now }
    requires few { count ≤ 1023 }
    requires faults { (at : ℕ) → at < count → fault_cell (kept_fault room.old.faults.items at) < nets bench.old.circuit }
    requires steps { All (λ bits. length bits ≡ bench.old.circuit.inputs) steps.now }
    requires limit { limit ≤ length steps.now }
    requires short { limit < 2 ^ 32 }
    requires room { HasRoom bench.old.circuit.inputs room.old }
    ensures grades { (at : ℕ) → at < count → IsGradeOf bench.old.circuit plan.now (kept_fault room.old.faults.items at) (take limit steps.now) (grade_at room.new.marks.items (at + 1)) }
    ensures places { room.new.places.items ≡ room.old.places.items }
    ensures circuit { bench.new.circuit ≡ bench.old.circuit }
    ensures room { HasRoom bench.old.circuit.inputs room.new }
{
    bench.load(&room.faults[..count]);
    room.marks.fill(Grade::Unseen);
    run_batch(
        bench,
        plan,
        outputs,
        steps,
        limit,
        count,
        &mut room.input,
        &mut room.marks,
    );
}
