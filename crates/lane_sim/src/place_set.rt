//! A set of places of the evaluation order: those whose nodes are to be settled again.
ghost use Rattle.std.specs.Prelude.{◌≡◌, ◌≢◌, ℕ, ◌*◌, ◌<◌, ◌≤◌, ◌^◌, true, length, Some, IfOk};
ghost use Rattle.lane_sim.specs.First.{IsFirstIn};
ghost use Rattle.lane_sim.specs.Readers.{has};

use crate::first_bit::first_bit;
use crate::points::with_bit;
use std::alloc::{AllocError, Global};

/// Places that are marked.
#[derive(Drop)]
pub(crate) struct PlaceSet {
    /// One bit for each place.
    pub words: Vec<u64>,
}

impl PlaceSet {
    /// No place, but room for so many. No other call takes memory.
    ///
    /// # Errors
    ///
    /// Want of memory.
    pub fn with_room(alloc: Global, many: usize) -> Result<PlaceSet, AllocError>
        requires few { many < 2 ^ 32 }
        ensures room { IfOk result (λ set. many ≤ length set.words.items * 64) }
    {
        let words = vec![in alloc; 0; many / 64 + 1]?;
        Ok(PlaceSet { words })
    }

    /// Marks a place.
    pub fn mark(&mut self, place: usize)
        requires room { place < length self.old.words.items * 64 }
        ensures marked { has self.new place ≡ true }
        ensures others { (other : ℕ) → other ≢ place → has self.new other ≡ has self.old other }
        ensures room { length self.new.words.items ≡ length self.old.words.items }
    {
        self.put(place, true);
    }

    /// The first marked place from `from` on and below `many`, which isn't marked any more then.
    pub fn take_from(&mut self, from: usize, many: usize) -> Option<usize>
        requires room { many ≤ length self.old.words.items * 64 }
        requires few { many < 2 ^ 32 }
        ensures first { IsFirstIn (λ place. has self.old place ≡ true) from many result }
        ensures others { (other : ℕ) → result ≢ Some other → has self.new other ≡ has self.old other }
        ensures room { length self.new.words.items ≡ length self.old.words.items }
    {
        let place = first_bit(&self.words, from, many)?;
        self.put(place, false);
        Some(place)
    }

    /// Marks a place or not.
    fn put(&mut self, place: usize, value: bool)
        requires room { place < length self.old.words.items * 64 }
        ensures put { has self.new place ≡ value }
        ensures others { (other : ℕ) → other ≢ place → has self.new other ≡ has self.old other }
        ensures room { length self.new.words.items ≡ length self.old.words.items }
    {
        self.words[place / 64] = with_bit(self.words[place / 64], place % 64, value);
    }
}
