//! Limits on names and on counts.
ghost use Rattle.std.specs.Prelude.{◌≡◌, ◌≤◌, length, slice_range};
ghost use Rattle.blif_read.specs.Faults.{is_long, limit_in};

use tsc_text::{TextLine, Which};

/// Whether a name has more bytes than a name may have.
pub fn is_long(name: &[u8]) -> bool
    ensures long { result ≡ is_long name.now }
{
    name.len() > 255
}

/// A count that may not pass a number.
#[derive(Clone, Copy)]
pub struct Tally {
    /// What is counted.
    pub which: Which,
    /// The greatest count.
    pub most: usize,
    /// The count before.
    pub count: usize,
}

/// The first limit that the names from the word `from` up to the one before `to` pass, one by one.
#[tactic(auto, using(crate::proofs::NameLimits::limit_in_long, crate::proofs::NameLimits::limit_in_most, crate::proofs::NameLimits::limit_in_step, crate::proofs::NameLimits::limit_in_end))]
pub fn limit_in(tally: Tally, line: &TextLine, from: usize, to: usize) -> Option<Which>
    requires order { from ≤ to }
    requires within { to ≤ length line.now.words }
    ensures limit { result ≡ limit_in tally.which tally.most tally.count (slice_range line.now.words from to) }
{
    let mut count = tally.count;
    for place in from..to {
        if is_long(line.word(place)) {
            return Some(Which::NameBytes);
        }
        if count >= tally.most {
            return Some(tally.which);
        }
        count += 1;
    }
    None
}
