//! Lists of the places of rows, one for each state and one for the rows that start at every state.
ghost use Rattle.std.specs.Prelude.{◌≡◌, ℕ, ◌<◌, ◌++◌, ◌∷◌, [], length, slice_set, IfOk, OnOk};
ghost use Rattle.kiss_read.specs.Clashes.{lists_of, slot_of};
ghost use Rattle.tsc_bits.specs.Lists.{list_at};

use std::alloc::{AllocError, Global};

/// As many empty lists.
pub fn empty_lists(alloc: Global, count: usize) -> Result<Vec<Vec<usize>>, AllocError>
    ensures count { IfOk result (λ lists. length (lists_of lists.items) ≡ count) }
    ensures empty { IfOk result (λ lists. (place : ℕ) → list_at (lists_of lists.items) place ≡ []) }
{
    let mut lists = Vec::with_capacity(alloc, count)?;
    for _ in 0..count {
        lists.push(Vec::new(alloc))?;
    }
    Ok(lists)
}

/// Puts a place last in the list of a slot.
pub fn keep(lists: &mut [Vec<usize>], slot: usize, place: usize) -> Result<(), AllocError>
    requires within { slot < length (lists_of lists.old) }
    ensures kept { OnOk result (lists_of lists.new ≡ slice_set (lists_of lists.old) slot (list_at (lists_of lists.old) slot ++ place ∷ [])) }
{
    lists[slot].push(place)?;
    Ok(())
}

/// The list of a slot.
pub fn list_at(lists: &[Vec<usize>], slot: usize) -> &[usize]
    requires within { slot < length (lists_of lists.now) }
    ensures list { result.now ≡ list_at (lists_of lists.now) slot }
{
    lists[slot].as_slice()
}

/// The list in which the place of a row is kept that starts there.
pub fn slot_of(states: usize, from: Option<u32>) -> usize
    ensures slot { result ≡ slot_of states from }
{
    match from {
        None => states,
        Some(state) => state as usize,
    }
}
