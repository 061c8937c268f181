//! Counts bits at 64 points at once. The digits of the counts are lanes, the least significant first.
ghost use Rattle.std.specs.Prelude.{◌≡◌, ℕ, ◌+◌, ◌<◌, ◌≤◌, ◌^◌, ◌∷◌, length, take};
ghost use Rattle.tsc_bits.specs.Bits.{bit_worth, weight_of, binary};
ghost use Rattle.tsc_bits.specs.Counting.{ones, counted};
ghost use Rattle.code_lanes.specs.Lanes.{column, HasZerosWhere};

use lane_sim::word_of;
use tsc_cover::bit_at;

/// Counts the lanes that have a 1.
pub(crate) fn count_ones(digits: &mut [u64], lanes: &[u64])
    ensures ones { (k : ℕ) → k < 64 → counted (column k digits.old) + length lanes.now < 2 ^ length digits.old
        → counted (column k digits.new) ≡ counted (column k digits.old) + ones (column k lanes.now) }
{
    for lane in lanes {
        count_lane(digits, *lane);
    }
}

/// Counts one where a lane has a 1.
fn count_lane(digits: &mut [u64], lane: u64)
    ensures counted { (k : ℕ) → k < 64 → counted (column k digits.old) + 1 < 2 ^ length digits.old
        → counted (column k digits.new) ≡ counted (column k digits.old) + weight_of (bit_worth k lane) }
{
    let mut carry = lane;
    for digit in digits.iter_mut() {
        let both = *digit & carry;
        *digit ^= carry;
        carry = both;
    }
}

/// Writes, in digits that are 0, the number that the lanes stand for, the first lane most significant.
pub(crate) fn write_binary(digits: &mut [u64], lanes: &[u64])
    requires room { length lanes.now ≤ length digits.old }
    ensures number { (k : ℕ) → k < 64 → counted (column k digits.old) ≡ 0 → counted (column k digits.new) ≡ binary (column k lanes.now) }
{
    for lane in lanes {
        push_lane(digits, *lane);
    }
}

/// Moves each digit to the next place, and puts a lane in place of the least significant one.
fn push_lane(digits: &mut [u64], lane: u64)
    ensures pushed { digits.new ≡ take (length digits.old) (lane ∷ digits.old) }
{
    let mut moved = lane;
    for digit in digits.iter_mut() {
        let last = *digit;
        *digit = moved;
        moved = last;
    }
}

/// The points at which another number is counted.
pub(crate) fn counted_otherwise(digits: &[u64], number: u64) -> u64
    requires few { length digits.now ≤ 64 }
    requires fits { number < 2 ^ length digits.now }
    ensures counted { HasZerosWhere result (λ k. counted (column k digits.now) ≡ number) }
{
    let mut wrong = 0;
    for (place, digit) in digits.iter().enumerate() {
        wrong |= *digit ^ word_of(bit_at(number, place));
    }
    wrong
}
