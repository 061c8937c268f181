//! A batch of faults, one per lane, step by step.
ghost use Rattle.std.specs.Prelude.{◌≡◌, ℕ, ◌^◌, ◌<◌, ◌≤◌, take, length, slice_index_or, All};
ghost use Rattle.fault_secure.specs.Circuit.{nets};
ghost use Rattle.fault_secure.specs.StuckAt.{NoFault};
ghost use Rattle.fault_secure.specs.Settle.{Acyclic};
ghost use Rattle.lane_sim.specs.Lanes.{lane_bit};
ghost use Rattle.fault_lanes.specs.Bench.{fault_of, valuation_of, IsStep, StartsEach};
ghost use Rattle.fault_grades.specs.Grade.{grade_at, is_left, IsGradeOf, agree_in, wrong_in, marked};
ghost use Rattle.fault_grades.specs.Batch.{HasNets};

use crate::grade::Grade;
use crate::marks::{first_lanes, is_nowhere, mark_seen};
use crate::seen::{agreeing, wrong_lanes};
use fault_lanes::FaultLanes;
use lane_sim::{join, meet, signed};
use sim_text::StepLines;
use std::simd::Simd;
use tsc_net::{Bits, NetId, Plan};

/// Takes the steps below a limit in the first `count` lanes after lane 0, and grades them. It ends at the first step before which all of
/// them are decided.
pub(crate) fn run_batch(
    bench: &mut FaultLanes,
    plan: &Plan,
    outputs: &[NetId],
    steps: &StepLines,
    limit: usize,
    count: usize,
    input: &mut Bits,
    marks: &mut [Grade],
)
    requires nets { HasNets bench.old.circuit plan.now outputs.now }
    requires steps { All (λ bits. length bits ≡ bench.old.circuit.inputs) steps.now }
    requires limit { limit ≤ length steps.now }
    requires short { limit < 2 ^ 32 }
    requires few { count < 1024 }
    requires input { length input.old ≡ bench.old.circuit.inputs }
    requires first { StartsEach bench.old }
    requires right { fault_of bench.old 0 ≡ NoFault }
    requires sized { length marks.old ≡ 1024 }
    requires unseen { (lane : ℕ) → slice_index_or marks.old lane Grade.Unseen ≡ Grade.Unseen }
    ensures grades { (lane : ℕ) → 0 < lane → lane ≤ count → IsGradeOf bench.old.circuit plan.now (fault_of bench.old lane) (take limit steps.now) (grade_at marks.new lane) }
    ensures circuit { bench.new.circuit ≡ bench.old.circuit }
    ensures input { length input.new ≡ length input.old }
{
    let mut undecided = first_lanes(count);
    for step in 0..limit {
        if is_nowhere(undecided) {
            return;
        }
        steps.read(step, input);
        undecided = grade_step(bench, plan, outputs, input, step as u32, undecided, marks);
    }
}

/// Takes a step, and grades the undecided lanes in which it shows something. Answers which lanes are undecided then.
fn grade_step(
    bench: &mut FaultLanes,
    plan: &Plan,
    outputs: &[NetId],
    input: &Bits,
    step: u32,
    undecided: Simd<u64, 16>,
    marks: &mut [Grade],
) -> Simd<u64, 16>
    requires nets { HasNets bench.old.circuit plan.now outputs.now }
    requires input { length input.now ≡ bench.old.circuit.inputs }
    requires sized { length marks.old ≡ 1024 }
    ensures step { IsStep bench.old input.now bench.new }
    ensures acyclic { Acyclic bench.old.circuit }
    ensures grades { (lane : ℕ) → lane < 1024 → lane_bit undecided lane ≡ is_left (slice_index_or marks.old lane Grade.Unseen)
        → grade_at marks.new lane ≡ marked step (agree_in plan.now (valuation_of bench.new lane)) (wrong_in bench.old.circuit plan.now (valuation_of bench.new 0) (valuation_of bench.new lane)) (grade_at marks.old lane) }
    ensures undecided { (lane : ℕ) → lane < 1024 → lane_bit undecided lane ≡ is_left (slice_index_or marks.old lane Grade.Unseen) → lane_bit result lane ≡ is_left (slice_index_or marks.new lane Grade.Unseen) }
    ensures sized { length marks.new ≡ 1024 }
{
    bench.step(input);
    let agree = agreeing(bench, plan);
    let wrong = wrong_lanes(bench, outputs);
    let seen = meet(undecided, join(agree, wrong));
    mark_seen(marks, step, seen, agree);
    meet(undecided, signed(false, seen))
}
