//! Thresholds, and the pair that differs where two lists have a number of ones together.
ghost use Rattle.std.specs.Prelude.{◌≡◌, ◌+◌, ◌-◌, ◌<◌, ◌≤◌, ◌^◌, true, drop, length, IfOk};
ghost use Rattle.code_checkers.specs.Signal.{chain as chain_of};
ghost use Rattle.code_checkers.specs.Signal.Signal.{And, Or};
ghost use Rattle.code_checkers.specs.Gates.{meaning};
ghost use Rattle.code_checkers.specs.Draft.{AreWithin, meanings, IsAdded, AreAdded, PairIsAdded};
ghost use Rattle.code_checkers.specs.Threshold.{row_from, thresholds as thresholds_of, both_reach, terms_from, terms as terms_of, every_second as every_second_of, threshold_pair as threshold_pair_of};

use crate::chain::{Joint, chain};
use crate::draft::Draft;
use crate::gate::CheckGate;
use crate::pair_places::PairPlaces;
use std::alloc::{AllocError, Global};

/// Adds one threshold of a longer list, and what it hands to the next.
fn add_threshold(
    draft: &mut Draft,
    threshold: usize,
    carried: usize,
    x: usize,
) -> Result<PairPlaces, AllocError>
    requires threshold { threshold < length draft.old }
    requires carried { carried < length draft.old }
    requires x { x < length draft.old }
    ensures added { IfOk result (λ p. PairIsAdded draft.old draft.new (record { first = Or (meaning draft.old threshold) (meaning draft.old carried); second = And (meaning draft.old threshold) (meaning draft.old x) }) p) }
{
    let first = draft.add(CheckGate::Or {
        a: threshold,
        b: carried,
    })?;
    let second = draft.add(CheckGate::And { a: threshold, b: x })?;
    Ok(PairPlaces { first, second })
}

/// Adds the thresholds of a list with one more item, from those without it.
fn add_row(
    alloc: Global,
    draft: &mut Draft,
    row: &[usize],
    x: usize,
) -> Result<Vec<usize>, AllocError>
    requires row { AreWithin draft.old row.now }
    requires x { x < length draft.old }
    ensures added { IfOk result (λ next. AreAdded draft.old draft.new (row_from (meaning draft.old x) (meaning draft.old x) (meanings draft.old row.now)) next.items) }
{
    let mut next = Vec::new(alloc);
    let mut carried = x;
    for threshold in row {
        let step = add_threshold(draft, *threshold, carried, x)?;
        next.push(step.first)?;
        carried = step.second;
    }
    next.push(carried)?;
    Ok(next)
}

/// Adds the thresholds of a list, that of 1 first.
fn thresholds(alloc: Global, draft: &mut Draft, list: &[usize]) -> Result<Vec<usize>, AllocError>
    requires list { AreWithin draft.old list.now }
    ensures added { IfOk result (λ row. AreAdded draft.old draft.new (thresholds_of (meanings draft.old list.now)) row.items) }
{
    let mut row = Vec::new(alloc);
    for x in list {
        row = add_row(alloc, draft, &row, *x)?;
    }
    Ok(row)
}

/// Adds "at least i of the first list and at least j of the second", where 0 asks for nothing.
fn add_term(
    draft: &mut Draft,
    firsts: &[usize],
    seconds: &[usize],
    i: usize,
    j: usize,
) -> Result<usize, AllocError>
    requires firsts { AreWithin draft.old firsts.now }
    requires seconds { AreWithin draft.old seconds.now }
    requires i { i ≤ length firsts.now }
    requires j { j ≤ length seconds.now }
    requires some { 0 < i + j }
    ensures added { IfOk result (λ place. IsAdded draft.old draft.new (both_reach (meanings draft.old firsts.now) (meanings draft.old seconds.now) i j) place) }
{
    if i == 0 {
        return Ok(seconds[j - 1]);
    }
    if j == 0 {
        return Ok(firsts[i - 1]);
    }
    let both = draft.add(CheckGate::And {
        a: firsts[i - 1],
        b: seconds[j - 1],
    })?;
    Ok(both)
}

/// Adds the terms of a threshold pair, from the thresholds of its two lists.
fn add_terms(
    alloc: Global,
    draft: &mut Draft,
    firsts: &[usize],
    seconds: &[usize],
    m: usize,
) -> Result<Vec<usize>, AllocError>
    requires firsts { AreWithin draft.old firsts.now }
    requires seconds { AreWithin draft.old seconds.now }
    requires some { 0 < m }
    requires most { m < length firsts.now + length seconds.now }
    requires small { length firsts.now + length seconds.now < 2 ^ 32 }
    ensures added { IfOk result (λ terms. AreAdded draft.old draft.new (terms_from (meanings draft.old firsts.now) (meanings draft.old seconds.now) m 0 (length firsts.now + length seconds.now + 1 - m)) terms.items) }
{
    let count = firsts.len() + seconds.len() + 1 - m;
    let mut terms = Vec::new(alloc);
    for t in 0..count {
        let i = (m + t).saturating_sub(seconds.len());
        let j = seconds.len().saturating_sub(t);
        let term = add_term(draft, firsts, seconds, i, j)?;
        terms.push(term)?;
    }
    Ok(terms)
}

/// Every second item from a place on.
fn every_second(alloc: Global, items: &[usize], start: usize) -> Result<Vec<usize>, AllocError>
    requires small { length items.now < 2 ^ 33 }
    requires start { start ≤ length items.now }
    ensures half { IfOk result (λ half. half.items ≡ every_second_of true (drop start items.now)) }
{
    let mut half = Vec::new(alloc);
    let mut place = start;
    while place < items.len() {
        half.push(items[place])?;
        place += 2;
    }
    Ok(half)
}

/// Adds the chain over every second term from a place on.
fn add_half(
    alloc: Global,
    draft: &mut Draft,
    terms: &[usize],
    start: usize,
) -> Result<usize, AllocError>
    requires terms { AreWithin draft.old terms.now }
    requires small { length terms.now < 2 ^ 33 }
    requires start { start < length terms.now }
    ensures added { IfOk result (λ place. IsAdded draft.old draft.new (chain_of Or (every_second_of true (drop start (meanings draft.old terms.now)))) place) }
{
    let half = every_second(alloc, terms, start)?;
    let made = chain(draft, Joint::Either, &half)?;
    Ok(made)
}

/// Adds the terms of a threshold pair.
fn terms(
    alloc: Global,
    draft: &mut Draft,
    a: &[usize],
    b: &[usize],
    m: usize,
) -> Result<Vec<usize>, AllocError>
    requires a { AreWithin draft.old a.now }
    requires b { AreWithin draft.old b.now }
    requires some { 0 < m }
    requires most { m < length a.now + length b.now }
    requires small { length a.now + length b.now < 2 ^ 32 }
    ensures added { IfOk result (λ terms. AreAdded draft.old draft.new (terms_of (meanings draft.old a.now) (meanings draft.old b.now) m) terms.items) }
{
    let firsts = thresholds(alloc, draft, a)?;
    let seconds = thresholds(alloc, draft, b)?;
    let terms = add_terms(alloc, draft, &firsts, &seconds, m)?;
    Ok(terms)
}

/// Adds the pair that differs where the two lists have m ones together.
pub fn threshold_pair(
    alloc: Global,
    draft: &mut Draft,
    a: &[usize],
    b: &[usize],
    m: usize,
) -> Result<PairPlaces, AllocError>
    requires a { AreWithin draft.old a.now }
    requires b { AreWithin draft.old b.now }
    requires some { 0 < m }
    requires most { m < length a.now + length b.now }
    requires small { length a.now + length b.now < 2 ^ 32 }
    ensures added { IfOk result (λ p. PairIsAdded draft.old draft.new (threshold_pair_of (meanings draft.old a.now) (meanings draft.old b.now) m) p) }
{
    let terms = terms(alloc, draft, a, b, m)?;
    let start = (m + b.len() + 1) % 2;
    let first = add_half(alloc, draft, &terms, start)?;
    let second = add_half(alloc, draft, &terms, 1 - start)?;
    Ok(PairPlaces { first, second })
}
