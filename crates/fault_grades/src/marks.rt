//! Lanes of a batch, and the grades that they have so far.
ghost use Rattle.std.specs.Prelude.{◌≡◌, ◌≢◌, ℕ, ◌<◌, ◌≤◌, true, false, if◌then◌else◌, length, slice_index_or};
ghost use Rattle.lane_sim.specs.Lanes.{lane_bit};
ghost use Rattle.fault_grades.specs.Grade.{seen_grade};

use crate::grade::Grade;
use lane_sim::{first_point, with_bit};
use std::simd::Simd;
use tsc_cover::bit_at;

/// The first `count` lanes after lane 0.
pub(crate) fn first_lanes(count: usize) -> Simd<u64, 16>
    requires few { count < 1024 }
    ensures lanes { (lane : ℕ) → 0 < lane → lane ≤ count → lane_bit result lane ≡ true }
{
    let mut words = [0u64; 16];
    for index in 0..count {
        set_lane(&mut words, index + 1);
    }
    Simd::from_array(words)
}

/// Whether no lane has a 1. True says that none has; what rests on false is time alone.
pub(crate) fn is_nowhere(lanes: Simd<u64, 16>) -> bool
    ensures none { result ≡ true → (lane : ℕ) → lane < 1024 → lane_bit lanes lane ≡ false }
{
    match first_point(lanes, 1024) {
        None => true,
        Some(_) => false,
    }
}

/// Sets the bit of a lane.
fn set_lane(words: &mut [u64], lane: usize)
    requires lane { lane < 1024 }
    requires sized { length words.old ≡ 16 }
    ensures here { lane_bit words.new lane ≡ true }
    ensures others { (other : ℕ) → other ≢ lane → lane_bit words.new other ≡ lane_bit words.old other }
{
    words[lane / 64] = with_bit(words[lane / 64], lane % 64, true);
}

/// Gives each lane in which something is seen its grade: an alarm at this step where the rails agree, else a silent error.
pub(crate) fn mark_seen(marks: &mut [Grade], step: u32, seen: Simd<u64, 16>, agree: Simd<u64, 16>)
    requires sized { length marks.old ≡ 1024 }
    ensures marks { (lane : ℕ) → lane < 1024 → slice_index_or marks.new lane Grade.Unseen
        ≡ (if lane_bit seen lane then seen_grade step (lane_bit agree lane) else slice_index_or marks.old lane Grade.Unseen) }
{
    match first_point(seen, 1024) {
        None => {}
        Some(first) => mark_from(marks, step, first, &seen.to_array(), &agree.to_array()),
    }
}

/// The same, of the lanes from one on.
fn mark_from(marks: &mut [Grade], step: u32, first: usize, seen: &[u64], agree: &[u64])
    requires sized { length marks.old ≡ 1024 }
    requires first { first ≤ 1024 }
    requires seen { length seen.now ≡ 16 }
    requires agree { length agree.now ≡ 16 }
    ensures marks { (lane : ℕ) → lane < 1024 → first ≤ lane → slice_index_or marks.new lane Grade.Unseen
        ≡ (if lane_bit seen.now lane then seen_grade step (lane_bit agree.now lane) else slice_index_or marks.old lane Grade.Unseen) }
    ensures before { (lane : ℕ) → lane < first → slice_index_or marks.new lane Grade.Unseen ≡ slice_index_or marks.old lane Grade.Unseen }
{
    for lane in first..1024 {
        let is_seen = bit_at(seen[lane / 64], lane % 64);
        let agrees = bit_at(agree[lane / 64], lane % 64);
        mark_lane(marks, step, lane, is_seen, agrees);
    }
}

/// Gives a lane its grade, if something is seen there.
fn mark_lane(marks: &mut [Grade], step: u32, lane: usize, seen: bool, agree: bool)
    requires lane { lane < length marks.old }
    ensures here { slice_index_or marks.new lane Grade.Unseen ≡ (if seen then seen_grade step agree else slice_index_or marks.old lane Grade.Unseen) }
    ensures others { (other : ℕ) → other ≢ lane → slice_index_or marks.new other Grade.Unseen ≡ slice_index_or marks.old other Grade.Unseen }
{
    if seen {
        marks[lane] = seen_grade(step, agree);
    }
}

/// An alarm or a silent error at a step.
fn seen_grade(step: u32, agree: bool) -> Grade
    ensures grade { result ≡ seen_grade step agree }
{
    if agree {
        Grade::Alarm(step)
    } else {
        Grade::Silent(step)
    }
}
