//! Lanes: bits, one for each point, in values of so many words. All the 1,024 points of a bench take sixteen words.
ghost use Rattle.std.specs.Prelude.{◌≡◌, ◌≢◌, ℕ, ◌+◌, ◌*◌, ◌/◌, ◌%◌, ◌<◌, ◌≤◌, ◌&&◌, ◌||◌, length};
ghost use Rattle.tsc_bits.specs.Bits.{bit_worth, same};
ghost use Rattle.lane_sim.specs.Lanes.{HasLanes, lane_bit};
ghost use Rattle.lane_sim.specs.Points.{source_bit};
ghost use Rattle.lane_sim.specs.TwoPins.{differ};

use std::simd::Simd;

/// The same bit at each point.
pub fn constant<const N: usize>(value: bool) -> Simd<u64, N>
    ensures lanes { HasLanes N result (λ p. value) }
{
    Simd::splat(word_of(value))
}

/// The word whose bits are all this one.
pub fn word_of(value: bool) -> u64
    ensures bits { (k : ℕ) → k < 64 → bit_worth k result ≡ value }
{
    if value { u64::MAX } else { 0 }
}

/// Both bits.
pub fn meet<const N: usize>(a: Simd<u64, N>, b: Simd<u64, N>) -> Simd<u64, N>
    ensures lanes { HasLanes N result (λ p. lane_bit a.entry p && lane_bit b.entry p) }
{
    a & b
}

/// One of the bits at least.
pub fn join<const N: usize>(a: Simd<u64, N>, b: Simd<u64, N>) -> Simd<u64, N>
    ensures lanes { HasLanes N result (λ p. lane_bit a.entry p || lane_bit b.entry p) }
{
    a | b
}

/// One of the bits and not the other.
pub fn differ<const N: usize>(a: Simd<u64, N>, b: Simd<u64, N>) -> Simd<u64, N>
    ensures lanes { HasLanes N result (λ p. differ (lane_bit a.entry p) (lane_bit b.entry p)) }
{
    a ^ b
}

/// Whether the bit is the one that is wanted.
pub fn signed<const N: usize>(wants: bool, a: Simd<u64, N>) -> Simd<u64, N>
    ensures lanes { HasLanes N result (λ p. same wants (lane_bit a.entry p)) }
{
    a ^ Simd::splat(word_of(!wants))
}

/// The first lanes of a net in a list that has sixteen words per net: those of an input or a latch output by its net, or of a row.
pub fn load<const N: usize>(words: &[u64], net: usize) -> Simd<u64, N>
    requires few { N ≤ 16 }
    requires room { net * 16 + 16 ≤ length words.now }
    ensures lanes { HasLanes N result (source_bit words.now net) }
{
    Simd::from_slice(&words[net * 16..])
}

/// Writes the first lanes of a row; the block has sixteen words per row.
pub fn store<const N: usize>(block: &mut [u64], row: usize, lanes: Simd<u64, N>)
    requires few { N ≤ 16 }
    requires room { row * 16 + 16 ≤ length block.old }
    ensures stored { (p : ℕ) → p < N * 64 → source_bit block.new row p ≡ lane_bit lanes.entry p }
    ensures others { (other p : ℕ) → p < N * 64 → other ≢ row → source_bit block.new other p ≡ source_bit block.old other p }
    ensures sized { length block.new ≡ length block.old }
{
    lanes.copy_to_slice(&mut block[row * 16..]);
}

/// Lanes of the net whose words start at `start`, from its word `from` on, in a list that has sixteen words per net.
pub fn load_part<const N: usize>(words: &[u64], start: usize, from: usize) -> Simd<u64, N>
    requires few { from + N ≤ 16 }
    requires start { start % 16 ≡ 0 }
    requires room { start + 16 ≤ length words.now }
    ensures lanes { HasLanes N result (λ p. source_bit words.now (start / 16) (from * 64 + p)) }
{
    Simd::from_slice(&words[start + from..])
}

/// Writes lanes of the row that starts at the word `start`, from the row's word `from` on; the block has sixteen words per row.
pub fn store_part<const N: usize>(block: &mut [u64], start: usize, from: usize, lanes: Simd<u64, N>)
    requires few { from + N ≤ 16 }
    requires start { start % 16 ≡ 0 }
    requires room { start + 16 ≤ length block.old }
    ensures stored { (p : ℕ) → p < N * 64 → source_bit block.new (start / 16) (from * 64 + p) ≡ lane_bit lanes.entry p }
    ensures others { (other p : ℕ) → p < 1024 → other ≢ start / 16 → source_bit block.new other p ≡ source_bit block.old other p }
    ensures before { (p : ℕ) → p < from * 64 → source_bit block.new (start / 16) p ≡ source_bit block.old (start / 16) p }
    ensures behind { (p : ℕ) → (from + N) * 64 ≤ p → p < 1024 → source_bit block.new (start / 16) p ≡ source_bit block.old (start / 16) p }
    ensures sized { length block.new ≡ length block.old }
{
    lanes.copy_to_slice(&mut block[start + from..]);
}
