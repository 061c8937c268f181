//! The pairs of a checker, each of which differs where its part of the word is right.
ghost use Rattle.std.specs.Prelude.{◌+◌, ◌<◌, ◌≤◌, ◌^◌, map, reverse, length, IfOk};
ghost use Rattle.code_checkers.specs.Signal.{words_from, chain as chain_of};
ghost use Rattle.code_checkers.specs.Signal.Signal.{Word, Not, Xor};
ghost use Rattle.code_checkers.specs.Counter.{count_zeros as count_zeros_of};
ghost use Rattle.code_checkers.specs.Threshold.{threshold_pair as threshold_pair_of};
ghost use Rattle.code_checkers.specs.Checker.{count_pairs as count_pairs_of};
ghost use Rattle.code_checkers.specs.Gates.{meaning};
ghost use Rattle.code_checkers.specs.Draft.{AreWithin, meanings, PairIsAdded, PairsAreAdded};

use crate::chain::{Joint, chain};
use crate::counter::count_zeros;
use crate::draft::Draft;
use crate::gate::CheckGate;
use crate::pair_places::PairPlaces;
use crate::threshold::threshold_pair;
use crate::word_places::{group_words, words};
use std::alloc::{AllocError, Global};

/// Adds the pair of a parity group: the chain over its outputs, and its check.
pub fn group_pair(
    alloc: Global,
    draft: &mut Draft,
    group: &[usize],
    check: usize,
) -> Result<PairPlaces, AllocError>
    requires some { 0 < length group.now }
    ensures added { IfOk result (λ p. PairIsAdded draft.old draft.new (record { first = chain_of Xor (map Word group.now); second = Word check }) p) }
{
    let outputs = group_words(alloc, draft, group)?;
    let first = chain(draft, Joint::Odd, &outputs)?;
    let second = draft.add(CheckGate::Word { place: check })?;
    Ok(PairPlaces { first, second })
}

/// Adds the pair of a counted bit: its negation, and the check at its place.
fn count_pair(draft: &mut Draft, bit: usize, check: usize) -> Result<PairPlaces, AllocError>
    requires bit { bit < length draft.old }
    ensures added { IfOk result (λ p. PairIsAdded draft.old draft.new (record { first = Not (meaning draft.old bit); second = Word check }) p) }
{
    let first = draft.add(CheckGate::Not { a: bit })?;
    let second = draft.add(CheckGate::Word { place: check })?;
    Ok(PairPlaces { first, second })
}

/// Adds the pairs of counted bits, the most significant first, the checks standing from place `check` on.
fn count_pairs(
    alloc: Global,
    draft: &mut Draft,
    bits: &[usize],
    check: usize,
) -> Result<Vec<PairPlaces>, AllocError>
    requires bits { AreWithin draft.old bits.now }
    requires fits { check + length bits.now < 2 ^ 64 }
    ensures added { IfOk result (λ pairs. PairsAreAdded draft.old draft.new (count_pairs_of check (meanings draft.old bits.now)) pairs.items) }
{
    let mut pairs = Vec::new(alloc);
    let mut place = check;
    for bit in bits {
        let made = count_pair(draft, *bit, place)?;
        pairs.push(made)?;
        place += 1;
    }
    Ok(pairs)
}

/// Adds the pairs of a Berger check of so many outputs.
pub fn berger_pairs(
    alloc: Global,
    draft: &mut Draft,
    outputs: usize,
) -> Result<Vec<PairPlaces>, AllocError>
    requires small { outputs ≤ 64 }
    ensures added { IfOk result (λ pairs. PairsAreAdded draft.old draft.new (count_pairs_of outputs (reverse (count_zeros_of (words_from 0 outputs)))) pairs.items) }
{
    let items = words(alloc, draft, 0, outputs)?;
    let mut bits = count_zeros(alloc, draft, &items)?;
    bits.reverse();
    let pairs = count_pairs(alloc, draft, &bits, outputs)?;
    Ok(pairs)
}

/// Adds the threshold pair of two stretches of the word: `first` places from `place` on, and `second` places after them.
pub fn stretch_pair(
    alloc: Global,
    draft: &mut Draft,
    place: usize,
    first: usize,
    second: usize,
    m: usize,
) -> Result<PairPlaces, AllocError>
    requires some { 0 < m }
    requires most { m < first + second }
    requires fits { place + first + second < 2 ^ 64 }
    requires small { first + second < 2 ^ 32 }
    ensures added { IfOk result (λ p. PairIsAdded draft.old draft.new (threshold_pair_of (words_from place first) (words_from (place + first) second) m) p) }
{
    let firsts = words(alloc, draft, place, first)?;
    let seconds = words(alloc, draft, place + first, second)?;
    let pair = threshold_pair(alloc, draft, &firsts, &seconds, m)?;
    Ok(pair)
}
