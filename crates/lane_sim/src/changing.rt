//! Rows that are written and compared with what was there.
ghost use Rattle.std.specs.Prelude.{◌≡◌, ◌≢◌, ℕ, ◌+◌, ◌*◌, ◌/◌, ◌%◌, ◌<◌, ◌≤◌, false, length};
ghost use Rattle.lane_sim.specs.Lanes.{HasLanes, lane_bit};
ghost use Rattle.lane_sim.specs.Points.{source_bit};
ghost use Rattle.lane_sim.specs.TwoPins.{differ};

use crate::lanes::{differ, load, load_part, store, store_part};
use std::simd::Simd;
use std::simd::num::SimdUint;

/// Whether the lanes have a 1 at a point. False says that they have none; what rests on true is time alone.
pub(crate) fn is_somewhere<const N: usize>(lanes: Simd<u64, N>) -> bool
    ensures none { result ≡ false → (p : ℕ) → lane_bit lanes.entry p ≡ false }
{
    lanes.reduce_or() != 0
}

/// Writes the lanes of a row, and says whether that changed them (false says that it didn't; what rests on true is time alone); the
/// block has sixteen words per row.
pub(crate) fn change(block: &mut [u64], row: usize, lanes: Simd<u64, 16>) -> bool
    requires room { row * 16 + 16 ≤ length block.old }
    ensures stored { (p : ℕ) → p < 1024 → source_bit block.new row p ≡ lane_bit lanes p }
    ensures others { (other p : ℕ) → p < 1024 → other ≢ row → source_bit block.new other p ≡ source_bit block.old other p }
    ensures same { result ≡ false → (p : ℕ) → p < 1024 → source_bit block.new row p ≡ source_bit block.old row p }
    ensures sized { length block.new ≡ length block.old }
{
    let before: Simd<u64, 16> = load(block, row);
    store(block, row, lanes);
    is_somewhere(differ(before, lanes))
}

/// Writes lanes of the row that starts at the word `start`, from the row's word `from` on, and says where that changed them; the
/// block has sixteen words per row.
pub(crate) fn change_part<const N: usize>(
    block: &mut [u64],
    start: usize,
    from: usize,
    lanes: Simd<u64, N>,
) -> Simd<u64, N>
    requires few { from + N ≤ 16 }
    requires start { start % 16 ≡ 0 }
    requires room { start + 16 ≤ length block.old }
    ensures changed { HasLanes N result (λ p. differ (source_bit block.old (start / 16) (from * 64 + p)) (lane_bit lanes.entry p)) }
    ensures stored { (p : ℕ) → p < N * 64 → source_bit block.new (start / 16) (from * 64 + p) ≡ lane_bit lanes.entry p }
    ensures others { (other p : ℕ) → p < 1024 → other ≢ start / 16 → source_bit block.new other p ≡ source_bit block.old other p }
    ensures before { (p : ℕ) → p < from * 64 → source_bit block.new (start / 16) p ≡ source_bit block.old (start / 16) p }
    ensures behind { (p : ℕ) → (from + N) * 64 ≤ p → p < 1024 → source_bit block.new (start / 16) p ≡ source_bit block.old (start / 16) p }
    ensures sized { length block.new ≡ length block.old }
{
    let before = load_part(block, start, from);
    store_part(block, start, from, lanes);
    differ(before, lanes)
}
