//! The two-rail cell, and the tree of cells.
ghost use Rattle.std.specs.Prelude.{◌<◌, length, IfOk};
ghost use Rattle.code_checkers.specs.Signal.Signal.{And, Or, Buf};
ghost use Rattle.code_checkers.specs.Gates.{meaning};
ghost use Rattle.code_checkers.specs.Draft.{IsAdded, pair_at, PairIsWithin, pairs_at, PairsAreWithin, PairIsAdded, PairsAreAdded};
ghost use Rattle.code_checkers.specs.TwoRail.{cell as cell_of, level as level_of, tree as tree_of};
ghost use Rattle.code_checkers.specs.Tree.{rails_over};

use crate::draft::Draft;
use crate::gate::CheckGate;
use crate::pair_places::PairPlaces;
use std::alloc::{AllocError, Global};

/// Adds "both of the first pair, or both of the second".
fn add_either(draft: &mut Draft, one: PairPlaces, other: PairPlaces) -> Result<usize, AllocError>
    requires one { PairIsWithin draft.old one }
    requires other { PairIsWithin draft.old other }
    ensures added { IfOk result (λ place. IsAdded draft.old draft.new (Or (And (meaning draft.old one.first) (meaning draft.old one.second)) (And (meaning draft.old other.first) (meaning draft.old other.second))) place) }
{
    let left = draft.add(CheckGate::And {
        a: one.first,
        b: one.second,
    })?;
    let right = draft.add(CheckGate::And {
        a: other.first,
        b: other.second,
    })?;
    let both = draft.add(CheckGate::Or { a: left, b: right })?;
    Ok(both)
}

/// Adds the cell of two pairs.
fn cell(draft: &mut Draft, x: PairPlaces, y: PairPlaces) -> Result<PairPlaces, AllocError>
    requires x { PairIsWithin draft.old x }
    requires y { PairIsWithin draft.old y }
    ensures added { IfOk result (λ p. PairIsAdded draft.old draft.new (cell_of (pair_at draft.old x) (pair_at draft.old y)) p) }
{
    let straight = add_either(
        draft,
        PairPlaces {
            first: x.first,
            second: y.first,
        },
        PairPlaces {
            first: x.second,
            second: y.second,
        },
    )?;
    let crossed = add_either(
        draft,
        PairPlaces {
            first: x.first,
            second: y.second,
        },
        PairPlaces {
            first: x.second,
            second: y.first,
        },
    )?;
    Ok(PairPlaces {
        first: straight,
        second: crossed,
    })
}

/// Adds one level: neighbours become their cells, and an odd last pair passes on.
fn level(
    alloc: Global,
    draft: &mut Draft,
    pairs: &[PairPlaces],
) -> Result<Vec<PairPlaces>, AllocError>
    requires within { PairsAreWithin draft.old pairs.now }
    ensures added { IfOk result (λ next. PairsAreAdded draft.old draft.new (level_of (pairs_at draft.old pairs.now)) next.items) }
{
    let mut next = Vec::new(alloc);
    let mut place = 0;
    while place + 1 < pairs.len() {
        let made = cell(draft, pairs[place], pairs[place + 1])?;
        next.push(made)?;
        place += 2;
    }
    if place < pairs.len() {
        next.push(pairs[place])?;
    }
    Ok(next)
}

/// Adds the tree of pairs: levels until one pair is left.
fn tree(alloc: Global, draft: &mut Draft, pairs: Vec<PairPlaces>) -> Result<PairPlaces, AllocError>
    requires some { 0 < length pairs.items }
    requires within { PairsAreWithin draft.old pairs.items }
    ensures added { IfOk result (λ p. PairIsAdded draft.old draft.new (tree_of (pairs_at draft.old pairs.items)) p) }
{
    let mut left = pairs;
    'levels: while left.len() > 1 {
        left = level(alloc, draft, &left)?;
    }
    Ok(left[0])
}

/// Adds the rails over a pair: a buffer of each of its two signals.
fn rails(draft: &mut Draft, pair: PairPlaces) -> Result<PairPlaces, AllocError>
    requires pair { PairIsWithin draft.old pair }
    ensures added { IfOk result (λ p. PairIsAdded draft.old draft.new (record { first = Buf (meaning draft.old pair.first); second = Buf (meaning draft.old pair.second) }) p) }
{
    let first = draft.add(CheckGate::Buf { a: pair.first })?;
    let second = draft.add(CheckGate::Buf { a: pair.second })?;
    Ok(PairPlaces { first, second })
}

/// Adds the tree of pairs and the two rails over it, which differ exactly where each pair does.
pub fn tree_rails(
    alloc: Global,
    draft: &mut Draft,
    pairs: Vec<PairPlaces>,
) -> Result<PairPlaces, AllocError>
    requires some { 0 < length pairs.items }
    requires within { PairsAreWithin draft.old pairs.items }
    ensures added { IfOk result (λ p. PairIsAdded draft.old draft.new (rails_over (pairs_at draft.old pairs.items)) p) }
{
    let last = tree(alloc, draft, pairs)?;
    let rails = rails(draft, last)?;
    Ok(rails)
}
