//! Gates of at most two pins, in 1,024 lanes at once: by the number of their function, two words at a time.
ghost use Rattle.std.specs.Prelude.{◌≡◌, ◌≢◌, ℕ, ◌+◌, ◌*◌, ◌<◌, ◌≤◌, length, slice_index_or, All};
ghost use Rattle.tsc_net.specs.PlanView.{net_numbers};
ghost use Rattle.lane_sim.specs.Lanes.{HasLanes, lane_bit};
ghost use Rattle.lane_sim.specs.Points.{source_bit};
ghost use Rattle.lane_sim.specs.TwoPins.{table_bit};

use lane_sim::{constant, differ, load_part, meet, store_part};
use std::simd::Simd;
use tsc_cover::bit_at;
use tsc_net::NetId;

/// Writes the lanes of a function of two rows into a third one, which may be one of them.
pub(crate) fn settle_pair(table: u8, first: usize, second: usize, to: usize, words: &mut [u64])
    requires first { first * 16 + 16 ≤ length words.old }
    requires second { second * 16 + 16 ≤ length words.old }
    requires to { to * 16 + 16 ≤ length words.old }
    ensures here { (lane : ℕ) → lane < 1024 → source_bit words.new to lane ≡ table_bit table (source_bit words.old first lane) (source_bit words.old second lane) }
    ensures others { (other lane : ℕ) → lane < 1024 → other ≢ to → source_bit words.new other lane ≡ source_bit words.old other lane }
    ensures sized { length words.new ≡ length words.old }
{
    for part in 0..8 {
        let a = load_part(words, first * 16, part * 2);
        let b = load_part(words, second * 16, part * 2);
        store_part(words, to * 16, part * 2, pair_lanes(table, a, b));
    }
}

/// A function of two bits in each lane.
fn pair_lanes(table: u8, a: Simd<u64, 2>, b: Simd<u64, 2>) -> Simd<u64, 2>
    ensures lanes { HasLanes 2 result (λ p. table_bit table (lane_bit a p) (lane_bit b p)) }
{
    let table = u64::from(table);
    let without = differ(
        constant(bit_at(table, 0)),
        meet(a, constant(bit_at(table, 1))),
    );
    let with = differ(
        constant(bit_at(table, 2)),
        meet(a, constant(bit_at(table, 3))),
    );
    differ(without, meet(b, with))
}

/// The row that a pin reads, or another one where there is no such pin.
pub(crate) fn row_or(reads: &[NetId], pin: usize, or: usize) -> usize
    ensures row { result ≡ slice_index_or (net_numbers reads.now) pin or }
    ensures within { (many : ℕ) → All (λ read. read.number * 16 + 16 ≤ many) reads.now → or * 16 + 16 ≤ many → result * 16 + 16 ≤ many }
{
    if pin < reads.len() {
        reads[pin].number as usize
    } else {
        or
    }
}
