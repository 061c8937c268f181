//! Where covers are true, in 1,024 lanes at once.
ghost use Rattle.std.specs.Prelude.{◌≡◌, ℕ, ◌+◌, ◌*◌, ◌<◌, ◌≤◌, ◌&&◌, length, All};
ghost use Rattle.tsc_bits.specs.Bits.{bit_worth};
ghost use Rattle.tsc_cover.specs.Cover.{accepts, row_matches, literals, some_row_matches, truth};
ghost use Rattle.tsc_cover.specs.Row.{literal, literals_of_each};
ghost use Rattle.tsc_net.specs.PlanView.{net_numbers};
ghost use Rattle.lane_sim.specs.Lanes.{HasLanes, lane_bit};
ghost use Rattle.lane_sim.specs.Points.{source_bit};
ghost use Rattle.fault_lanes.specs.Settling.{bits_at};

use lane_sim::{constant, join, load, meet, signed};
use std::simd::Simd;
use tsc_cover::{Cover, Row01, bit_at};
use tsc_net::NetId;

/// The lanes in which a cover is true, where its pins read these rows.
pub(crate) fn cover_lanes(cover: &Cover, reads: &[NetId], words: &[u64]) -> Simd<u64, 16>
    requires wide { length reads.now ≡ cover.now.width }
    requires within { All (λ row. row.number * 16 + 16 ≤ length words.now) reads.now }
    ensures lanes { HasLanes 16 result (λ lane. truth cover.now (bits_at words.now (net_numbers reads.now) lane)) }
{
    // That it has few pins is known from here on.
    let _width = cover.width();
    signed(cover.on(), rows_lanes(cover.rows(), reads, words))
}

/// Where some row of a cover matches.
fn rows_lanes(rows: &[Row01], reads: &[NetId], words: &[u64]) -> Simd<u64, 16>
    requires few { length reads.now ≤ 64 }
    requires within { All (λ row. row.number * 16 + 16 ≤ length words.now) reads.now }
    ensures lanes { HasLanes 16 result (λ lane. some_row_matches (literals_of_each (length reads.now) rows.now) (bits_at words.now (net_numbers reads.now) lane)) }
{
    let mut some = constant(false);
    for row in rows {
        some = join(some, row_lanes(*row, reads, words));
    }
    some
}

/// Where a row of a cover matches.
fn row_lanes(row: Row01, reads: &[NetId], words: &[u64]) -> Simd<u64, 16>
    requires few { length reads.now ≤ 64 }
    requires within { All (λ row. row.number * 16 + 16 ≤ length words.now) reads.now }
    ensures lanes { HasLanes 16 result (λ lane. row_matches (literals (length reads.now) row.care row.value) (bits_at words.now (net_numbers reads.now) lane)) }
{
    let mut all = constant(true);
    for (pin, net) in reads.iter().enumerate() {
        all = meet_pin(all, row, reads.len() - 1 - pin, words, net.number as usize);
    }
    all
}

/// Where the lanes have a 1 and the row's literal at a pin, whose bit is worth `2^place` and which reads the row `from` of the
/// words, lets the bit pass.
fn meet_pin(
    all: Simd<u64, 16>,
    row: Row01,
    place: usize,
    words: &[u64],
    from: usize,
) -> Simd<u64, 16>
    requires place { place < 64 }
    requires room { from * 16 + 16 ≤ length words.now }
    ensures lanes { HasLanes 16 result (λ lane. lane_bit all lane && accepts (literal (bit_worth place row.care) (bit_worth place row.value)) (source_bit words.now from lane)) }
{
    if bit_at(row.care, place) {
        meet(all, signed(bit_at(row.value, place), load(words, from)))
    } else {
        all
    }
}
