//! Places of points, four bytes each.
ghost use Rattle.std.specs.Prelude.{◌≡◌, ℕ, ◌+◌, ◌^◌, ◌<◌, None, length, IfOk, IfSome, count_by, set, slice_index, slice_index_or};
ghost use Rattle.std.specs.Option.{is_some};
ghost use Rattle.vectors.specs.Trial.{coded_place};

use std::alloc::{AllocError, Global};
use std::marker::Model;

/// A place for each of some faults, if there is one: one more than the place, or 0.
#[derive(Debug, Drop)]
pub(crate) struct Places {
    codes: Vec<u32>,
}

impl Model for Places {
    ghost use Rattle.std.specs.Prelude.{ℕ, List, Option, map};

    ghost Value = { List (Option ℕ) };

    ghost use Rattle.vectors.specs.Trial.{coded_place};

    ghost view = { λ places. map coded_place places.codes.items };
}

impl Places {
    /// No place for any of so many faults.
    ///
    /// # Errors
    ///
    /// Want of memory.
    pub fn none(alloc: Global, count: usize) -> Result<Places, AllocError>
        ensures sized { IfOk result (λ places. length places ≡ count) }
        ensures none { IfOk result (λ places. (k : ℕ) → slice_index_or places k None ≡ None) }
    {
        let codes = zeros(alloc, count)?;
        Ok(Places { codes })
    }

    /// How many faults there are.
    pub fn len(&self) -> usize
        ensures count { result ≡ length self.now }
    {
        self.codes.len()
    }

    /// The place for a fault, if there is one.
    pub fn get(&self, fault: usize) -> Option<usize>
        requires within { fault < length self.now }
        ensures place { result ≡ slice_index_or self.now fault None }
    {
        coded_place(self.codes[fault])
    }

    /// Puts the place for a fault.
    pub fn put(&mut self, fault: usize, place: Option<usize>)
        requires within { fault < length self.old }
        requires small { IfSome place (λ place. place + 1 < 2 ^ 32) }
        ensures put { self.new ≡ set self.old fault place }
    {
        self.codes[fault] = code_of(place);
    }

    /// How many faults have a place.
    pub fn some(&self) -> usize
        ensures count { result ≡ count_by is_some self.now }
    {
        self.codes.iter().filter(|code| **code > 0).count()
    }
}

/// As many zeros.
fn zeros(alloc: Global, count: usize) -> Result<Vec<u32>, AllocError>
    ensures count { IfOk result (λ zeros. length zeros.items ≡ count) }
    ensures zero { IfOk result (λ zeros. (k : ℕ) → slice_index zeros.items k ≡ 0) }
{
    vec![in alloc; 0; count]
}

/// The place that a number stands for.
fn coded_place(code: u32) -> Option<usize>
    ensures place { result ≡ coded_place code }
{
    if code == 0 {
        None
    } else {
        Some(code as usize - 1)
    }
}

/// The number that stands for a place.
fn code_of(place: Option<usize>) -> u32
    requires small { IfSome place (λ place. place + 1 < 2 ^ 32) }
    ensures code { coded_place result ≡ place }
{
    match place {
        Some(place) => place as u32 + 1,
        None => 0,
    }
}
