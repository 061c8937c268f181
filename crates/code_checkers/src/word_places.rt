//! Places of the monitored word as gates of a draft.
ghost use Rattle.std.specs.Prelude.{◌+◌, ◌<◌, ◌^◌, map, IfOk};
ghost use Rattle.code_checkers.specs.Signal.{words_from};
ghost use Rattle.code_checkers.specs.Signal.Signal.{Word};
ghost use Rattle.code_checkers.specs.Draft.{AreAdded};

use crate::draft::Draft;
use crate::gate::CheckGate;
use std::alloc::{AllocError, Global};

/// Adds the places of the word from `first` on, `count` of them.
pub fn words(
    alloc: Global,
    draft: &mut Draft,
    first: usize,
    count: usize,
) -> Result<Vec<usize>, AllocError>
    requires fits { first + count < 2 ^ 64 }
    ensures added { IfOk result (λ places. AreAdded draft.old draft.new (words_from first count) places.items) }
{
    let mut places = Vec::new(alloc);
    for offset in 0..count {
        let made = draft.add(CheckGate::Word {
            place: first + offset,
        })?;
        places.push(made)?;
    }
    Ok(places)
}

/// Adds the places of the word that a group has.
pub fn group_words(
    alloc: Global,
    draft: &mut Draft,
    group: &[usize],
) -> Result<Vec<usize>, AllocError>
    ensures added { IfOk result (λ places. AreAdded draft.old draft.new (map Word group.now) places.items) }
{
    let mut places = Vec::new(alloc);
    for word in group {
        let made = draft.add(CheckGate::Word { place: *word })?;
        places.push(made)?;
    }
    Ok(places)
}
