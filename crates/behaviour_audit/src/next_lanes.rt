//! Whether 64 steps arrive where the source allows: a net at a latch input is a lane.
ghost use Rattle.std.specs.Prelude.{◌≡◌, ℕ, ◌+◌, ◌/◌, ◌%◌, ◌<◌, ◌≤◌, ◌^◌, true, length, Some};
ghost use Rattle.tsc_bits.specs.Bits.{bit_worth, bits_of};
ghost use Rattle.fault_secure.specs.CodePlan.{IsWellMade};
ghost use Rattle.fault_secure.specs.Logic.{States, answering, next_of_rows};
ghost use Rattle.fault_secure.specs.FaultSecure.{state_at};
ghost use Rattle.code_lanes.specs.Lanes.{column};
ghost use Rattle.behaviour_audit.specs.Lanes.{HoldsAtZeros};
ghost use Rattle.behaviour_audit.specs.Points.{ArrivesAt};
ghost use Rattle.fault_secure.specs.Exposing.{listed_states};

use crate::free_next::named_next;
use crate::lanes::misfits;
use crate::row_lanes::answered_by;
use code_lanes::negated;
use lane_sim::state_word;
use tsc_net::{Machine, Plan};

/// The points at which the bits of the lanes aren't the word of this listed state.
pub(crate) fn other_words(plan: &Plan, state: usize, lanes: &[u64]) -> u64
    requires made { IsWellMade plan.now }
    requires state { state < listed_states plan.now }
    requires sized { length lanes.now ≡ plan.now.latches }
    ensures word { HoldsAtZeros result (λ k. state_at plan.now (column k lanes.now) ≡ Some state) }
{
    // What the plan keeps is known from here on.
    let _width = plan.states.width();
    misfits(lanes, u64::MAX, state_word(plan, state))
}

/// The points, of the 64 from the place `base` on, at which the bits of the lanes aren't the word of the state that a machine chooses as
/// the next one. Where a next state is free a point with another word is marked too.
fn wrong_next_states(machine: &Machine, plan: &Plan, base: usize, next: &[u64]) -> u64
    requires few { machine.now.table.inputs ≤ 20 }
    requires whole { base % 64 ≡ 0 }
    requires made { IsWellMade plan.now }
    requires states { listed_states plan.now ≡ machine.now.table.states }
    requires sized { length next.now ≡ plan.now.latches }
    ensures chosen { HoldsAtZeros result (λ k. state_at plan.now (column k next.now)
        ≡ Some (next_of_rows machine.now.table (answering machine.now.table ((base + k) / 2 ^ machine.now.table.inputs) (bits_of machine.now.table.inputs (base + k))))) }
{
    let mut wrong = 0;
    let mut answered = 0;
    for row in machine.rows() {
        let points = answered_by(row, machine.inputs(), base);
        wrong |= other_words_at(points, plan, row.next as usize, next);
        answered |= points;
    }
    wrong | other_words_at(negated(answered), plan, machine.reset() as usize, next)
}

/// The points, of those that are given, at which the bits of the lanes aren't the word of this listed state.
fn other_words_at(points: u64, plan: &Plan, state: usize, lanes: &[u64]) -> u64
    requires made { IsWellMade plan.now }
    requires state { state < listed_states plan.now }
    requires sized { length lanes.now ≡ plan.now.latches }
    ensures word { HoldsAtZeros result (λ k. bit_worth k points ≡ true → state_at plan.now (column k lanes.now) ≡ Some state) }
{
    if points == 0 {
        0
    } else {
        points & other_words(plan, state, lanes)
    }
}

/// The points, of the 64 from the place `base` on, at which the bits of the lanes aren't the word of a listed state that a machine allows
/// as the next one.
pub(crate) fn forbidden_next_states(
    machine: &Machine,
    plan: &Plan,
    base: usize,
    next: &[u64],
) -> u64
    requires few { machine.now.table.inputs ≤ 20 }
    requires whole { base % 64 ≡ 0 }
    requires made { IsWellMade plan.now }
    requires states { listed_states plan.now ≡ machine.now.table.states }
    requires sized { length next.now ≡ plan.now.latches }
    ensures arrives { HoldsAtZeros result (λ k. ArrivesAt (States machine.now.table) plan.now
        ((base + k) / 2 ^ machine.now.table.inputs) (bits_of machine.now.table.inputs (base + k)) (column k next.now)) }
{
    let wrong = wrong_next_states(machine, plan, base, next);
    if wrong == 0 || plan.version != 2 {
        return wrong;
    }
    wrong & (named_next(machine, base) | unlisted(plan, next))
}

/// The points at which the bits of the lanes are no listed state's word.
fn unlisted(plan: &Plan, lanes: &[u64]) -> u64
    requires made { IsWellMade plan.now }
    requires sized { length lanes.now ≡ plan.now.latches }
    ensures listed { HoldsAtZeros result (λ k. (state : ℕ) × (state_at plan.now (column k lanes.now) ≡ Some state)) }
{
    let mut others = u64::MAX;
    for state in 0..plan.listed_states() {
        others &= other_words(plan, state, lanes);
    }
    others
}
