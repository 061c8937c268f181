//! The clauses alive, by their rising numbers.
ghost use Rattle.std.specs.Prelude.{◌≡◌, ℕ, ◌+◌, ◌<◌, ◌≤◌, ◌++◌, ◌∷◌, [], length, is_some, IfSome, IfNone, OnOk, OnErr, Some, None};
ghost use Rattle.refutations.specs.Steps.{clause_at};
ghost use Rattle.refutations.specs.Store.{entry as nth, clauses_in, without, AreHeld, IsAbsent, IsHeld, IsPresent, IsRising};

use crate::literal::Literal;
use std::alloc::{AllocError, Global};
use std::marker::Model;

/// Where the literals of a clause stand in the pool. One that is not alive keeps its number until the entries are made anew.
#[derive(Clone, Copy, Debug)]
pub(crate) struct Entry {
    number: u32,
    alive: bool,
    start: usize,
    count: usize,
}

/// Clauses with rising numbers, which may have gaps. A clause is found by a search, and its literals stand in one pool.
/// Contracts see the greatest number until now, and the clauses alive.
///
/// Once a third of entries and pool is of clauses that are not alive, both are made anew, in place: so they take at most
/// 36 bytes per clause alive and 12 per literal alive, beside the room that a list has to grow.
#[derive(Drop)]
pub(crate) struct Clauses {
    last: u32,
    entries: Vec<Entry>,
    pool: Vec<Literal>,
    /// What the clauses that are not alive take, by `size`.
    dead: usize,
}

impl Model for Clauses {
    ghost use Rattle.refutations.specs.Store.{ClauseList, clauses_in, IsHeld};

    ghost Value = { ClauseList };

    ghost view = { λ c. record { last = c.last; clauses = clauses_in c.pool.items c.entries.items } };

    ghost invariant = { λ c. IsHeld c.last c.entries.items c.pool.items };
}

impl Clauses {
    /// No clause. It takes no memory.
    pub fn new(alloc: Global) -> Clauses
        ensures last { result.last ≡ 0 }
        ensures none { result.clauses ≡ [] }
    {
        Clauses {
            last: 0,
            entries: Vec::new(alloc),
            pool: Vec::new(alloc),
            dead: 0,
        }
    }

    /// The greatest number until now, also of a clause that isn't alive any more.
    pub fn last(&self) -> u32
        ensures last { result ≡ self.now.last }
    {
        self.last
    }

    /// The literals of the clause alive with this number.
    #[tactic(auto, using(crate::proofs::StoreLemmas::held_rules))]
    pub fn find(&self, number: u32) -> Option<&[Literal]>
        ensures found { IfSome result (λ literals. clause_at self.now.clauses number ≡ Some literals.now) }
        ensures absent { IfNone result (clause_at self.now.clauses number ≡ None) }
    {
        let place = place_of(self.entries.as_slice(), number)?;
        let entry = self.entries[place];
        Some(&self.pool[entry.start..][..entry.count])
    }

    /// Adds a clause with a number above all before it. Where memory is missing all stays as it was.
    ///
    /// # Errors
    ///
    /// Want of memory.
    pub fn push(&mut self, number: u32, literals: &[Literal]) -> Result<(), AllocError>
        requires above { self.old.last < number }
        ensures ok { OnOk result (self.new ≡ record { last = number; clauses = self.old.clauses ++ record { number = number; literals = literals.now } ∷ [] }) }
        ensures err { OnErr result (self.new ≡ self.old) }
    {
        let start = self.pool.len();
        self.pool.extend_from_slice(literals)?;
        self.entries.push(Entry {
            number,
            alive: true,
            start,
            count: literals.len(),
        })?;
        self.last = number;
        Ok(())
    }

    /// Removes the clause with this number, and answers whether there was one.
    pub fn remove(&mut self, number: u32) -> bool
        ensures was { result ≡ is_some (clause_at self.old.clauses number) }
        ensures without { self.new.clauses ≡ without self.old.clauses number }
        ensures last { self.new.last ≡ self.old.last }
    {
        let was = self.mark(number);
        self.tidy();
        was
    }

    /// Marks the clause with this number as one that isn't alive, and answers whether there was one.
    #[tactic(auto, using(crate::proofs::StoreLemmas::held_rules))]
    fn mark(&mut self, number: u32) -> bool
        ensures was { result ≡ is_some (clause_at self.old.clauses number) }
        ensures without { self.new.clauses ≡ without self.old.clauses number }
        ensures last { self.new.last ≡ self.old.last }
    {
        match place_of(self.entries.as_slice(), number) {
            None => false,
            Some(place) => {
                let entry = self.entries[place];
                self.entries[place] = Entry {
                    number: entry.number,
                    alive: false,
                    start: entry.start,
                    count: entry.count,
                };
                self.dead = self.dead.saturating_add(size(1, entry.count));
                true
            }
        }
    }

    /// Makes entries and pool anew where more than a third of them is of clauses that aren't alive, so that each literal
    /// is moved a few times at most for each that was removed.
    fn tidy(&mut self)
        ensures same { self.new ≡ self.old }
    {
        if self.dead >= 4_096 && self.dead > size(self.entries.len(), self.pool.len()) / 3 {
            gather(&mut self.entries, &mut self.pool);
            self.dead = 0;
        }
    }
}

/// What so many entries with so many literals take: an entry counts for three literals.
fn size(entries: usize, literals: usize) -> usize {
    entries.saturating_mul(3).saturating_add(literals)
}

/// Moves what is alive to the front of entries and pool, and lets the rest go. It takes no memory.
fn gather(entries: &mut Vec<Entry>, pool: &mut Vec<Literal>)
    requires held { AreHeld entries.old.items pool.old.items }
    ensures held { (last : ℕ) → IsHeld last entries.old.items pool.old.items → IsHeld last entries.new.items pool.new.items }
    ensures same { clauses_in pool.new.items entries.new.items ≡ clauses_in pool.old.items entries.old.items }
{
    let mut kept = 0;
    let mut end = 0;
    for place in 0..entries.len() {
        let entry = entries[place];
        if entry.alive {
            pool.copy_within(entry.start..entry.start + entry.count, end);
            entries[kept] = Entry {
                number: entry.number,
                alive: true,
                start: end,
                count: entry.count,
            };
            kept += 1;
            end += entry.count;
        }
    }
    entries.truncate(kept);
    pool.truncate(end);
}

/// The place of the entry that is alive with this number.
fn place_of(entries: &[Entry], number: u32) -> Option<usize>
    requires rising { IsRising entries.now }
    ensures present { IfSome result (IsPresent entries.now number) }
    ensures absent { IfNone result (IsAbsent entries.now number) }
{
    let place = first_from(entries, number);
    if place == entries.len() {
        return None;
    }
    let entry = entries[place];
    if entry.number == number && entry.alive {
        Some(place)
    } else {
        None
    }
}

/// Where a place is looked for: not below `low`, nor above `high`.
#[derive(Clone, Copy)]
struct Bounds {
    low: usize,
    high: usize,
}

/// Where the first place is whose number isn't below this one. Numbers rise by one at least from place to place: so where none is
/// missing, one place is left, and else as many more as numbers are missing.
fn search_bounds(entries: &[Entry], number: u32) -> Bounds
    requires rising { IsRising entries.now }
    ensures order { result.low ≤ result.high }
    ensures inside { result.high ≤ length entries.now }
    ensures before { (k : ℕ) → k < result.low → (nth entries.now k).number < number }
    ensures from { (k : ℕ) → result.high ≤ k → k < length entries.now → number ≤ (nth entries.now k).number }
{
    if entries.is_empty() {
        return Bounds { low: 0, high: 0 };
    }
    let end = entries.len() - 1;
    let first = entries[0].number;
    let last = entries[end].number;
    let high = (number.saturating_sub(first) as usize).min(entries.len());
    let low = end
        .saturating_sub(last.saturating_sub(number) as usize)
        .min(high);
    Bounds { low, high }
}

/// The first place whose number isn't below this one, or the number of entries.
fn first_from(entries: &[Entry], number: u32) -> usize
    requires rising { IsRising entries.now }
    ensures inside { result ≤ length entries.now }
    ensures before { (k : ℕ) → k < result → (nth entries.now k).number < number }
    ensures from { (k : ℕ) → result ≤ k → k < length entries.now → number ≤ (nth entries.now k).number }
{
    let Bounds { mut low, mut high } = search_bounds(entries, number);
    while low < high {
        let middle = low + (high - low) / 2;
        if entries[middle].number < number {
            low = middle + 1;
        } else {
            high = middle;
        }
    }
    low
}
