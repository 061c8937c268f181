//! The first conflict of the rows of a state table.
ghost use Rattle.std.specs.Prelude.{◌≡◌, ℕ, ◌<◌, ◌≤◌, ◌++◌, ◌∷◌, [], List, All, IfOk, IfSome, length};
ghost use Rattle.kiss_read.specs.Conflict.{first_clash};
ghost use Rattle.kiss_read.specs.Clashes.{conflict_at, lesser, lists_of, rows_in, AreGrouped, IsLeastBelow, IsLeastIn, IsTable};

use crate::groups::{empty_lists, keep, list_at, slot_of};
use crate::table::Table;
use std::alloc::{AllocError, Global};

/// Two rows that conflict, by their places.
#[derive(Clone, Copy)]
pub struct Clash {
    /// The first row with which the later one conflicts.
    pub earlier: usize,
    /// The first row that conflicts with an earlier one.
    pub later: usize,
}

/// The lesser of two places, of which either may be missing.
fn lesser(a: Option<usize>, b: Option<usize>) -> Option<usize>
    ensures lesser { result ≡ lesser a b }
{
    match a {
        None => b,
        Some(first) => match b {
            None => Some(first),
            Some(second) => Some(first.min(second)),
        },
    }
}

impl Table {
    /// The least of some places and one more at which a row conflicts with a later one, where `least` is that of the others.
    #[tactic(auto, using(crate::proofs::ClashSearch::least_passed, crate::proofs::ClashSearch::least_lesser))]
    fn lesser_with(&self, later: usize, least: Option<usize>, place: usize) -> Option<usize>
        requires fit { IsTable self.now }
        requires later { later < length self.now.rows }
        requires place { place < length self.now.rows }
        ensures least { (places : List ℕ) → IsLeastIn (conflict_at (rows_in self.now) later) places least → IsLeastIn (conflict_at (rows_in self.now) later) (places ++ place ∷ []) result }
    {
        if !self.conflict(later, place) {
            return least;
        }
        lesser(least, Some(place))
    }

    /// The least of some places at which a row conflicts with a later one.
    fn least_in(&self, later: usize, places: &[usize]) -> Option<usize>
        requires fit { IsTable self.now }
        requires later { later < length self.now.rows }
        requires places { All (λ place. place < length self.now.rows) places.now }
        ensures least { IsLeastIn (conflict_at (rows_in self.now) later) places.now result }
    {
        let mut least = None;
        for place in places {
            least = self.lesser_with(later, least, *place);
        }
        least
    }

    /// The least place before a row at which another conflicts with it.
    fn least_before(&self, later: usize) -> Option<usize>
        requires fit { IsTable self.now }
        requires later { later < length self.now.rows }
        ensures least { IsLeastBelow (conflict_at (rows_in self.now) later) later result }
    {
        for place in 0..later {
            if self.conflict(later, place) {
                return Some(place);
            }
        }
        None
    }

    /// The first row before another at which it conflicts with it, where the places of the rows before it are kept in these lists.
    fn earlier(&self, lists: &[Vec<usize>], later: usize) -> Option<usize>
        requires fit { IsTable self.now }
        requires later { later < length self.now.rows }
        requires grouped { AreGrouped (rows_in self.now) self.now.states later (lists_of lists.now) }
        ensures least { IsLeastBelow (conflict_at (rows_in self.now) later) later result }
    {
        match self.rows.get(later).from {
            None => self.least_before(later),
            Some(state) => {
                let same = self.least_in(later, list_at(lists, state as usize));
                let every = self.least_in(later, list_at(lists, self.states));
                lesser(same, every)
            }
        }
    }

    /// The first row that conflicts with an earlier one, and the first with which it does, over lists that keep no place yet.
    fn clash_over(&self, lists: &mut [Vec<usize>]) -> Result<Option<Clash>, AllocError>
        requires fit { IsTable self.now }
        requires grouped { AreGrouped (rows_in self.now) self.now.states 0 (lists_of lists.old) }
        ensures clash { IfOk result (λ clash. clash ≡ first_clash (rows_in self.now)) }
        ensures order { IfOk result (λ clash. IfSome clash (λ clash. clash.earlier < clash.later)) }
        ensures within { IfOk result (λ clash. IfSome clash (λ clash. clash.later < length self.now.rows)) }
    {
        for later in 0..self.rows.len() {
            match self.earlier(lists, later) {
                Some(earlier) => return Ok(Some(Clash { earlier, later })),
                None => {}
            }
            let slot = slot_of(self.states, self.rows.get(later).from);
            keep(lists, slot, later)?;
        }
        Ok(None)
    }

    /// The first row that conflicts with an earlier one, and the first with which it does.
    ///
    /// A row is tried with those of its state and with those that start at every state; one that starts at every state, with
    /// all.
    #[tactic(auto, using(crate::proofs::ClashSearch::none_grouped))]
    pub fn first_clash(&self, alloc: Global) -> Result<Option<Clash>, AllocError>
        requires fit { IsTable self.now }
        requires few { self.now.states ≤ 4096 }
        ensures clash { IfOk result (λ clash. clash ≡ first_clash (rows_in self.now)) }
        ensures order { IfOk result (λ clash. IfSome clash (λ clash. clash.earlier < clash.later)) }
        ensures within { IfOk result (λ clash. IfSome clash (λ clash. clash.later < length self.now.rows)) }
    {
        let mut lists = empty_lists(alloc, self.states + 1)?;
        self.clash_over(&mut lists)
    }
}
