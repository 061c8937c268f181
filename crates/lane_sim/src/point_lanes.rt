//! Points that are put 64 at once: the bits of one input, or of one latch, at the points of a block.
ghost use Rattle.std.specs.Prelude.{◌≡◌, ◌≢◌, ℕ, ◌+◌, ◌*◌, ◌/◌, ◌<◌, ◌≤◌, length};
ghost use Rattle.tsc_bits.specs.Bits.{bit_worth};
ghost use Rattle.lane_sim.specs.Points.{KeepsOtherBlocks, point_input, point_state, source_bit};

use crate::points::Points;

impl Points {
    /// Puts the bits of one input at the 64 points of a block, those from the place `64 * block` on. It takes no memory.
    pub fn put_input_lane(&mut self, input: usize, block: usize, lane: u64)
        requires input { input < self.old.inputs }
        requires block { block < 16 }
        ensures put { (p : ℕ) → p < 64 → point_input self.new (block * 64 + p) input ≡ bit_worth p lane }
        ensures blocks { KeepsOtherBlocks block self.old self.new }
        ensures others { (p k : ℕ) → p < 1024 → k ≢ input → point_input self.new p k ≡ point_input self.old p k }
        ensures states { (p l : ℕ) → p < 1024 → point_state self.new p l ≡ point_state self.old p l }
        ensures inputs { self.new.inputs ≡ self.old.inputs }
        ensures latches { self.new.latches ≡ self.old.latches }
    {
        put_lane(&mut self.words, input, block, lane);
    }

    /// Puts the bits of one latch at the 64 points of a block, those from the place `64 * block` on. It takes no memory.
    pub fn put_latch_lane(&mut self, latch: usize, block: usize, lane: u64)
        requires latch { latch < self.old.latches }
        requires block { block < 16 }
        ensures put { (p : ℕ) → p < 64 → point_state self.new (block * 64 + p) latch ≡ bit_worth p lane }
        ensures blocks { KeepsOtherBlocks block self.old self.new }
        ensures others { (p l : ℕ) → p < 1024 → l ≢ latch → point_state self.new p l ≡ point_state self.old p l }
        ensures input { (p k : ℕ) → p < 1024 → point_input self.new p k ≡ point_input self.old p k }
        ensures inputs { self.new.inputs ≡ self.old.inputs }
        ensures latches { self.new.latches ≡ self.old.latches }
    {
        put_lane(&mut self.words, self.inputs + latch, block, lane);
    }
}

/// Writes the bits of a net at the 64 points of a block.
fn put_lane(words: &mut [u64], net: usize, block: usize, lane: u64)
    requires block { block < 16 }
    requires room { net * 16 + 16 ≤ length words.old }
    ensures put { (p : ℕ) → p < 64 → source_bit words.new net (block * 64 + p) ≡ bit_worth p lane }
    ensures blocks { (other p : ℕ) → p < 1024 → p / 64 ≢ block → source_bit words.new other p ≡ source_bit words.old other p }
    ensures nets { (other p : ℕ) → p < 1024 → other ≢ net → source_bit words.new other p ≡ source_bit words.old other p }
{
    words[net * 16 + block] = lane;
}
