//! The two-rail tree over the pairs of a word.
ghost use Rattle.std.specs.Prelude.{◌≡◌, ◌+◌, ◌*◌, ◌<◌, ◌^◌, length, IfOk};
ghost use Rattle.code_checkers.specs.Draft.{PairIsAdded, PairsAreAdded};
ghost use Rattle.code_checkers.specs.Signal.Signal.{Word};
ghost use Rattle.code_checkers.specs.Tree.{word_pairs as word_pairs_of, tree_gates, IsTreeOf, HasNodes, ReadsPairs};

use crate::check_gates::CheckGates;
use crate::draft::Draft;
use crate::gate::CheckGate;
use crate::pair_places::PairPlaces;
use crate::shared::share;
use crate::two_rail::tree_rails;
use std::alloc::{AllocError, Global};

/// Adds the pair of two places of the word, from `place` on.
fn word_pair(draft: &mut Draft, place: usize) -> Result<PairPlaces, AllocError>
    requires fits { place + 1 < 2 ^ 64 }
    ensures added { IfOk result (λ p. PairIsAdded draft.old draft.new (record { first = Word place; second = Word (place + 1) }) p) }
{
    let first = draft.add(CheckGate::Word { place })?;
    let second = draft.add(CheckGate::Word { place: place + 1 })?;
    Ok(PairPlaces { first, second })
}

/// Adds the pairs of a word, so many of them.
fn word_pairs(alloc: Global, draft: &mut Draft, count: usize) -> Result<Vec<PairPlaces>, AllocError>
    requires fits { 2 * count < 2 ^ 64 }
    ensures added { IfOk result (λ pairs. PairsAreAdded draft.old draft.new (word_pairs_of 0 count) pairs.items) }
{
    let mut pairs = Vec::new(alloc);
    for k in 0..count {
        let made = word_pair(draft, 2 * k)?;
        pairs.push(made)?;
    }
    Ok(pairs)
}

/// The tree of two-rail cells over the pairs of a word: its rails differ exactly where the two bits of each pair do. The pair
/// `k` stands at the places `2 * k` and `2 * k + 1`. Besides the places of the word it has six gates for each pair except the
/// first, and the two buffers of the rails.
///
/// # Errors
///
/// Want of memory.
pub fn tree_of(alloc: Global, pairs: usize) -> Result<CheckGates, AllocError>
    requires some { 0 < pairs }
    requires fits { 2 * pairs < 2 ^ 64 }
    ensures made { IfOk result (λ made. IsTreeOf pairs made) }
    ensures words { IfOk result (λ made. ReadsPairs pairs made) }
    ensures nodes { IfOk result (λ made. HasNodes (tree_gates pairs) made) }
    ensures gates { IfOk result (λ made. length made.gates ≡ 2 * pairs + tree_gates pairs) }
{
    let mut draft = Draft::new(alloc);
    let items = word_pairs(alloc, &mut draft, pairs)?;
    let rails = tree_rails(alloc, &mut draft, items)?;
    let made = share(alloc, draft.gates(), rails)?;
    Ok(made)
}
