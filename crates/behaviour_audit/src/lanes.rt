//! Lanes of nets, and the points at which they differ from others or from a number.
ghost use Rattle.std.specs.Prelude.{◌≡◌, ◌<◌, ◌≤◌, ◌⊎◌, true, length, map, All, IfOk, IsSome, slice_index};
ghost use Rattle.tsc_bits.specs.Bits.{bit_worth};
ghost use Rattle.tsc_net.specs.Order.{has_place};
ghost use Rattle.lane_sim.specs.Bench.{lane_of};
ghost use Rattle.code_lanes.specs.Lanes.{column};
ghost use Rattle.behaviour_audit.specs.Lanes.{ChosenOrFree, Fits, HoldsAtZeros};

use code_lanes::negated;
use lane_sim::{Bench, word_of};
use std::alloc::{AllocError, Global};
use tsc_cover::bit_at;
use tsc_io::Items;
use tsc_net::NetId;

/// A list of lanes.
pub(crate) type Lanes = Items<u64>;

/// A list of so many lanes, to be written over.
///
/// # Errors
///
/// Want of memory.
pub(crate) fn zero_lanes(alloc: Global, count: usize) -> Result<Lanes, AllocError>
    ensures sized { IfOk result (λ lanes. length lanes ≡ count) }
{
    let mut lanes = Lanes::new(alloc);
    for _ in 0..count {
        lanes.push(0)?;
    }
    Ok(lanes)
}

/// Reads the lanes of watched nets at the 64 points of a word.
pub(crate) fn read_lanes(bench: &Bench, nets: &[NetId], word: usize, lanes: &mut Lanes)
    requires word { word < 16 }
    requires settled { IsSome bench.now.lanes }
    requires watched { All (λ net. has_place bench.now.watched net.number ≡ true) nets.now }
    requires sized { length lanes.old ≡ length nets.now }
    ensures lanes { lanes.new ≡ map (λ net. slice_index (lane_of bench.now net.number) word) nets.now }
    ensures sized { length lanes.new ≡ length nets.now }
{
    for place in 0..nets.len() {
        lanes.replace(place, bench.lane(nets[place])[word]);
    }
}

/// The points at which two lists of lanes have different bits somewhere.
pub(crate) fn differing(lanes: &[u64], others: &[u64]) -> u64
    requires sized { length lanes.now ≡ length others.now }
    ensures same { HoldsAtZeros result (λ k. column k lanes.now ≡ column k others.now) }
{
    let mut wrong = 0;
    for place in 0..lanes.len() {
        wrong |= lanes[place] ^ others[place];
    }
    wrong
}

/// The points at which some lane has another bit than is chosen, where a lane of `free` doesn't tell that it is free. Under a plan of
/// another version than 2 nothing is.
pub(crate) fn differing_where_bound(version: u8, lanes: &[u64], chosen: &[u64], free: &[u64]) -> u64
    requires sized { length lanes.now ≡ length chosen.now }
    requires free { length lanes.now ≡ length free.now }
    ensures bound { HoldsAtZeros result (λ k. ChosenOrFree version (column k free.now) (column k chosen.now) (column k lanes.now)) }
{
    let mut wrong = 0;
    for place in 0..lanes.len() {
        wrong |= differing_bits(version, lanes[place], chosen[place], free[place]);
    }
    wrong
}

/// The points at which a lane has another bit than is chosen, and which isn't free.
fn differing_bits(version: u8, lane: u64, chosen: u64, free: u64) -> u64
    ensures bound { HoldsAtZeros result (λ k. ((version ≡ 2) × (bit_worth k free ≡ true)) ⊎ (bit_worth k lane ≡ bit_worth k chosen)) }
{
    if version == 2 {
        (lane ^ chosen) & negated(free)
    } else {
        lane ^ chosen
    }
}

/// The points at which some lane that is asked for has another bit than the number that is wanted. Of n lanes the first stands for
/// the bit that is worth `2^(n-1)`.
pub(crate) fn misfits(lanes: &[u64], asked: u64, wanted: u64) -> u64
    requires few { length lanes.now ≤ 64 }
    ensures fits { HoldsAtZeros result (λ k. Fits (length lanes.now) (column k lanes.now) asked wanted) }
{
    let mut wrong = 0;
    for place in 0..lanes.len() {
        let from_last = lanes.len() - 1 - place;
        wrong |= misfit(
            lanes[place],
            bit_at(asked, from_last),
            bit_at(wanted, from_last),
        );
    }
    wrong
}

/// The points at which a lane, if it is asked for, has another bit than the one that is wanted.
fn misfit(lane: u64, asked: bool, wanted: bool) -> u64
    ensures fits { HoldsAtZeros result (λ k. asked ≡ true → bit_worth k lane ≡ wanted) }
{
    if asked { lane ^ word_of(wanted) } else { 0 }
}
