//! The first two lines of a group that share a node.
ghost use Rattle.std.specs.Prelude.{ℕ, ◌<◌, ◌↔◌, length, slice_index, All, IsTrue};
ghost use Rattle.tsc_bits.specs.Bits.{bit_worth};
ghost use Rattle.structure_audit.specs.Lines.{HaveCommonBit, IsPartner, IsFirstPair};

use crate::lines::has_line;

/// Two places of a list, counted from 0, the first before the second.
#[derive(Clone, Copy)]
pub struct Pair {
    /// The earlier place.
    pub first: usize,
    /// The later place.
    pub second: usize,
}

/// The first pair of the places, by the second and then by the first, whose lines share a node, if there is one.
pub fn first_pair(masks: &[u128], places: &[usize]) -> Option<Pair>
    requires below { All (λ place. place < 128) places.now }
    ensures first { IsFirstPair masks.now places.now result }
{
    for second in 0..places.len() {
        if let Some(first) = partner(masks, places, second) {
            return Some(Pair { first, second });
        }
    }
    None
}

/// The first of the places before the one at `second` whose line shares a node with that one's, if there is one.
fn partner(masks: &[u128], places: &[usize], second: usize) -> Option<usize>
    requires below { All (λ place. place < 128) places.now }
    requires within { second < length places.now }
    ensures partner { IsPartner masks.now places.now second result }
{
    let sharing = sharing_lines(masks, places[second]);
    for first in 0..second {
        if has_line(sharing, places[first]) {
            return Some(first);
        }
    }
    None
}

/// The mask of the lines that share a node with the line at `place`.
fn sharing_lines(masks: &[u128], place: usize) -> u128
    requires below { place < 128 }
    ensures sharing { (k : ℕ) → IsTrue (bit_worth k result) ↔ HaveCommonBit masks.now k place }
{
    let mut sharing = 0;
    for mask in masks {
        if has_line(*mask, place) {
            sharing |= *mask;
        }
    }
    sharing
}

/// The place of the first node on which both lines depend.
pub fn first_common(masks: &[u128], first: usize, second: usize) -> usize
    requires below { (first < 128) × (second < 128) }
    requires shared { HaveCommonBit masks.now first second }
    ensures within { result < length masks.now }
    ensures of_first { IsTrue (bit_worth first (slice_index masks.now result)) }
    ensures of_second { IsTrue (bit_worth second (slice_index masks.now result)) }
    ensures earliest { (r : ℕ) → r < result → IsTrue (bit_worth first (slice_index masks.now r)) → IsTrue (bit_worth second (slice_index masks.now r)) → ⊥ }
{
    // Some node is shared: where no earlier one is, the last is.
    let mut node = 0;
    while node + 1 < masks.len()
        && !(has_line(masks[node], first) && has_line(masks[node], second))
    {
        node += 1;
    }
    node
}
