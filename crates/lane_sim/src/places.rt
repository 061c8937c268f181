//! Puts the points at places, one after another. Each point is a listed state of a plan and an input.
ghost use Rattle.std.specs.Prelude.{◌≡◌, ℕ, ◌+◌, ◌*◌, ◌%◌, ◌<◌, ◌≤◌, ◌^◌, IsSome};
ghost use Rattle.fault_secure.specs.Exposing.{word_of_state};
ghost use Rattle.lane_sim.specs.Points.{KeepsOtherBlocks, point_input, point_state};
ghost use Rattle.lane_sim.specs.Places.{HasInputOf, HasStateOf};

use crate::place_lanes::places_with;
use crate::points::Points;
use crate::state_lanes::state_lanes;
use tsc_net::Plan;

/// Puts the points at the places from `first` on and below `past`, in order. What is at the points after them is left open. It takes
/// no memory.
pub fn put_places(points: &mut Points, plan: &Plan, first: usize, past: usize)
    requires plan { plan.now.latches ≡ points.old.latches }
    requires few { points.old.inputs ≤ 20 }
    requires whole { first % 64 ≡ 0 }
    requires order { first ≤ past }
    requires batch { past ≤ first + 1024 }
    requires places { past ≤ 1048576 }
    requires states { (q : ℕ) → q * 2 ^ points.old.inputs < past → IsSome (word_of_state plan.now q) }
    ensures input { (p : ℕ) → first + p < past → HasInputOf points.old.inputs points.new p (first + p) }
    ensures state { (p : ℕ) → first + p < past → HasStateOf plan.now points.old.inputs points.new p (first + p) }
    ensures inputs { points.new.inputs ≡ points.old.inputs }
    ensures latches { points.new.latches ≡ points.old.latches }
{
    put_inputs(points, first, past);
    put_states(points, plan, first, past);
}

/// Puts the inputs of the points at the places from `first` on and below `past`, in order. Which inputs are at the points after them is
/// left open. It takes no memory.
pub fn put_inputs(points: &mut Points, first: usize, past: usize)
    requires few { points.old.inputs ≤ 64 }
    requires whole { first % 64 ≡ 0 }
    requires order { first ≤ past }
    requires batch { past ≤ first + 1024 }
    ensures input { (p : ℕ) → first + p < past → HasInputOf points.old.inputs points.new p (first + p) }
    ensures states { (p l : ℕ) → p < 1024 → point_state points.new p l ≡ point_state points.old p l }
    ensures inputs { points.new.inputs ≡ points.old.inputs }
    ensures latches { points.new.latches ≡ points.old.latches }
{
    for block in 0..(past - first + 63) / 64 {
        put_block_inputs(points, block, first + block * 64);
    }
}

/// Puts the inputs at the points of a block: those of the 64 places from `base` on.
fn put_block_inputs(points: &mut Points, block: usize, base: usize)
    requires few { points.old.inputs ≤ 64 }
    requires block { block < 16 }
    requires whole { base % 64 ≡ 0 }
    ensures input { (p : ℕ) → p < 64 → HasInputOf points.old.inputs points.new (block * 64 + p) (base + p) }
    ensures blocks { KeepsOtherBlocks block points.old points.new }
    ensures states { (p l : ℕ) → p < 1024 → point_state points.new p l ≡ point_state points.old p l }
    ensures inputs { points.new.inputs ≡ points.old.inputs }
    ensures latches { points.new.latches ≡ points.old.latches }
{
    let inputs = points.inputs();
    for input in 0..inputs {
        let lane = places_with(inputs - 1 - input, base);
        points.put_input_lane(input, block, lane);
    }
}

/// Puts the states of the points at the places from `first` on and below `past`, in order.
fn put_states(points: &mut Points, plan: &Plan, first: usize, past: usize)
    requires plan { plan.now.latches ≡ points.old.latches }
    requires few { points.old.inputs ≤ 20 }
    requires order { first ≤ past }
    requires batch { past ≤ first + 1024 }
    requires places { past ≤ 1048576 }
    requires states { (q : ℕ) → q * 2 ^ points.old.inputs < past → IsSome (word_of_state plan.now q) }
    ensures state { (p : ℕ) → first + p < past → HasStateOf plan.now points.old.inputs points.new p (first + p) }
    ensures input { (p k : ℕ) → p < 1024 → point_input points.new p k ≡ point_input points.old p k }
    ensures inputs { points.new.inputs ≡ points.old.inputs }
    ensures latches { points.new.latches ≡ points.old.latches }
{
    for block in 0..(past - first + 63) / 64 {
        put_block_states(points, plan, block, first + block * 64, past);
    }
}

/// Puts the states at the points of a block: those of the 64 places from `base` on that are below `past`.
fn put_block_states(points: &mut Points, plan: &Plan, block: usize, base: usize, past: usize)
    requires plan { plan.now.latches ≡ points.old.latches }
    requires few { points.old.inputs ≤ 20 }
    requires block { block < 16 }
    requires some { base < past }
    requires places { past ≤ 1048576 }
    requires states { (q : ℕ) → q * 2 ^ points.old.inputs < past → IsSome (word_of_state plan.now q) }
    ensures state { (p : ℕ) → p < 64 → base + p < past → HasStateOf plan.now points.old.inputs points.new (block * 64 + p) (base + p) }
    ensures blocks { KeepsOtherBlocks block points.old points.new }
    ensures input { (p k : ℕ) → p < 1024 → point_input points.new p k ≡ point_input points.old p k }
    ensures inputs { points.new.inputs ≡ points.old.inputs }
    ensures latches { points.new.latches ≡ points.old.latches }
{
    let lanes = state_lanes(plan, points.inputs(), base, past);
    for latch in 0..plan.states.width() {
        points.put_latch_lane(latch, block, lanes[latch]);
    }
}
