//! Whether words are codewords, 64 of them at once: a place of the word is a lane.
ghost use Rattle.std.specs.Prelude.{◌≡◌, ◌+◌, ◌<◌, ◌≤◌, ◌++◌, ◌∷◌, [], length, IsTrue, All};
ghost use Rattle.tsc_bits.specs.Bits.{binary};
ghost use Rattle.tsc_bits.specs.Counting.{ones, zeros, odd};
ghost use Rattle.fault_secure.specs.CodePlan.{IsChecked, IsCodeword, bits_at, members, concat_places};
ghost use Rattle.lane_sim.specs.Lanes.{HasBits};
ghost use Rattle.code_lanes.specs.Lanes.{column, HasZerosWhere};

use crate::counting::{count_ones, counted_otherwise, write_binary};
use crate::lanes::negated;
use crate::parts::{checks_part, next_part, outputs_part};
use fault_secure::Code;
use tsc_net::Plan;

/// The points at which the word is no codeword of the plan. The word has the outputs, then the checks, then the nets at the latch inputs.
pub fn no_codewords(plan: &Plan, lanes: &[u64]) -> u64
    requires sized { length lanes.now ≡ (plan.now.outputs + length plan.now.checks) + plan.now.latches }
    ensures codewords { HasZerosWhere result (λ k. IsCodeword plan.now (column k lanes.now)) }
{
    // What the plan keeps is known from here on.
    let _width = plan.states.width();
    unchecked(plan, lanes) | weighed_otherwise(next_part(plan, lanes), plan.weight)
}

/// The points at which another number of the lanes have a 1.
fn weighed_otherwise(lanes: &[u64], weight: usize) -> u64
    requires few { length lanes.now ≤ 64 }
    requires weight { weight ≤ 64 }
    ensures weighed { HasZerosWhere result (λ k. ones (column k lanes.now) ≡ weight) }
{
    let mut digits = [0; 8];
    count_ones(&mut digits, lanes);
    counted_otherwise(&digits, weight as u64)
}

/// The points at which the check of the plan's code doesn't hold.
fn unchecked(plan: &Plan, lanes: &[u64]) -> u64
    requires sized { length lanes.now ≡ (plan.now.outputs + length plan.now.checks) + plan.now.latches }
    ensures checked { HasZerosWhere result (λ k. IsChecked plan.now.code plan.now (column k lanes.now)) }
{
    match plan.code {
        Code::Parity => even_groups(plan, lanes),
        Code::Berger => other_zeros(outputs_part(plan, lanes), checks_part(plan, lanes)),
        Code::MOutOfN => other_ones(outputs_part(plan, lanes), checks_part(plan, lanes)),
    }
}

/// The points at which the checks aren't the number of zeros of the outputs: checks and ones aren't as many as outputs.
fn other_zeros(outputs: &[u64], checks: &[u64]) -> u64
    requires outputs { length outputs.now ≤ 64 }
    requires checks { length checks.now ≤ 7 }
    ensures zeros { HasZerosWhere result (λ k. binary (column k checks.now) ≡ zeros (column k outputs.now)) }
{
    let mut digits = [0; 8];
    write_binary(&mut digits, checks);
    count_ones(&mut digits, outputs);
    counted_otherwise(&digits, outputs.len() as u64)
}

/// The points at which outputs and checks haven't as many ones as there are outputs.
fn other_ones(outputs: &[u64], checks: &[u64]) -> u64
    requires outputs { length outputs.now ≤ 64 }
    requires checks { length checks.now ≤ 64 }
    ensures ones { HasZerosWhere result (λ k. ones (column k outputs.now) + ones (column k checks.now) ≡ length outputs.now) }
{
    let mut digits = [0; 8];
    count_ones(&mut digits, outputs);
    count_ones(&mut digits, checks);
    counted_otherwise(&digits, outputs.len() as u64)
}

/// The points at which some group with its check is even.
fn even_groups(plan: &Plan, lanes: &[u64]) -> u64
    requires within { All (λ place. place < plan.now.outputs) (concat_places plan.now.groups) }
    requires sized { length lanes.now ≡ (plan.now.outputs + length plan.now.checks) + plan.now.latches }
    requires paired { length plan.now.groups ≡ length plan.now.checks }
    ensures odd { HasZerosWhere result (λ k. All (λ group. IsTrue (odd (bits_at (column k lanes.now) group))) (members plan.now)) }
{
    let mut even = 0;
    for group in 0..plan.groups.len() {
        let places = plan.groups.get(group).places.as_slice();
        even |= negated(oddness(lanes, places, plan.outputs + group));
    }
    even
}

/// The points at which the bits at the places and the check are odd in number.
fn oddness(lanes: &[u64], places: &[usize], check: usize) -> u64
    requires places { All (λ place. place < length lanes.now) places.now }
    requires check { check < length lanes.now }
    ensures odd { HasBits result (λ k. odd (bits_at (column k lanes.now) (places.now ++ check ∷ []))) }
{
    let mut odd = 0;
    for place in places {
        odd ^= lanes[*place];
    }
    odd ^ lanes[check]
}
