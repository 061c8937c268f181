//! Rows of terms in flat lists, so that a settle reads memory in order.
ghost use Rattle.std.specs.Prelude.{◌≡◌, ℕ, ◌+◌, ◌^◌, ◌<◌, List, ◌∷◌, [], ◌++◌, length, OnOk, IfOk};
ghost use Rattle.lane_sim.specs.Gate.{HaveOperands, SpansHaveOperands};
ghost use Rattle.lane_sim.specs.Spans.{AreSpans, pieces};
ghost use Rattle.lane_sim.specs.FlatRows.{rows_in, AreInside, IsPlaceOf, KeepsRows};

use crate::gate::{ListRange, Term, TermList};
use crate::kernel::span_of;
use std::alloc::{AllocError, Global};

/// Rows of terms, one after another.
#[derive(Drop)]
pub(crate) struct FlatRows {
    /// The terms of all rows.
    pub terms: Vec<Term>,
    /// For each row, where its terms stand among them.
    pub rows: Vec<ListRange>,
    /// For each gate of more than two pins, where its rows stand among them.
    pub gates: Vec<ListRange>,
}

impl FlatRows {
    /// No gates yet, but room for so many, and for so many rows and terms.
    ///
    /// # Errors
    ///
    /// Want of memory.
    pub fn with_room(
        alloc: Global,
        gates: usize,
        rows: usize,
        terms: usize,
    ) -> Result<FlatRows, AllocError>
        ensures inside { IfOk result AreInside }
        ensures none { IfOk result (λ flat. length flat.gates.items ≡ 0) }
    {
        let terms = Vec::with_capacity(alloc, terms)?;
        let rows = Vec::with_capacity(alloc, rows)?;
        let gates = Vec::with_capacity(alloc, gates)?;
        Ok(FlatRows { terms, rows, gates })
    }

    /// Adds a gate's rows after the others, and answers its place.
    ///
    /// # Errors
    ///
    /// Want of memory.
    pub fn push(&mut self, rows: &[TermList]) -> Result<u32, AllocError>
        requires inside { AreInside self.old }
        requires few { length self.old.gates.items < 2 ^ 32 }
        ensures place { IfOk result (IsPlaceOf self.new) }
        ensures rows { IfOk result (λ place. rows_in self.new place ≡ rows.now) }
        ensures keeps { OnOk result (KeepsRows self.old self.new) }
        ensures inside { OnOk result (AreInside self.new) }
        ensures gates { OnOk result (length self.new.gates.items ≡ length self.old.gates.items + 1) }
    {
        let place = self.gates.len() as u32;
        let start = self.rows.len();
        append_rows(&mut self.terms, &mut self.rows, rows)?;
        let end = self.rows.len();
        self.gates.push(ListRange { start, end })?;
        Ok(place)
    }

    /// All terms, and the spans of those of the rows of the gate at a place.
    pub fn rows_of(&self, place: u32) -> (&[Term], &[ListRange])
        requires inside { AreInside self.now }
        requires place { IsPlaceOf self.now place }
        ensures rows { pieces result.0.now result.1.now ≡ rows_in self.now place }
        ensures inside { AreSpans (length result.0.now) result.1.now }
        ensures operands { (words block : List ℕ) → HaveOperands words block (rows_in self.now place) → SpansHaveOperands words block result.0.now result.1.now }
    {
        let spans = span_of(self.rows.as_slice(), self.gates[place as usize]);
        (self.terms.as_slice(), spans)
    }
}

/// Adds rows of terms after the others.
fn append_rows(
    terms: &mut Vec<Term>,
    rows: &mut Vec<ListRange>,
    more: &[TermList],
) -> Result<(), AllocError>
    requires inside { AreSpans (length terms.old.items) rows.old.items }
    ensures rows { OnOk result (pieces terms.new.items rows.new.items ≡ pieces terms.old.items rows.old.items ++ more.now) }
    ensures inside { OnOk result (AreSpans (length terms.new.items) rows.new.items) }
{
    for row in more {
        append_row(terms, rows, row.as_slice())?;
    }
    Ok(())
}

/// Adds a row of terms after the others.
fn append_row(
    terms: &mut Vec<Term>,
    rows: &mut Vec<ListRange>,
    row: &[Term],
) -> Result<(), AllocError>
    requires inside { AreSpans (length terms.old.items) rows.old.items }
    ensures rows { OnOk result (pieces terms.new.items rows.new.items ≡ pieces terms.old.items rows.old.items ++ row.now ∷ []) }
    ensures inside { OnOk result (AreSpans (length terms.new.items) rows.new.items) }
{
    let start = terms.len();
    terms.extend_from_slice(row)?;
    let end = terms.len();
    rows.push(ListRange { start, end })?;
    Ok(())
}
