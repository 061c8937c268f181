//! Diagrams: functions, each one row.
ghost use Rattle.std.specs.Prelude.{◌≡◌, ℕ, ◌+◌, ◌<◌, ◌≤◌, ◌⊎◌, min, List, length, All, IfOk, IfSome, IfNone, IsErrOf};
ghost use Rattle.diagrams.specs.Decisions.{row as row_of, step as step_of, IsAt, IsDecision, IsDiagram};
ghost use Rattle.diagrams.specs.Cofactors.{Function, IsCofactorOfOne};
ghost use Rattle.diagrams.specs.Building.{DiagramState, constants, input_bit, combined_rows, choice, IsRowOf, HasNoRow, IsRight, AreMade, StandsFor, AreShort};

use crate::decision::Decision;
use crate::decision_rows::{DecisionRows, word};
use crate::error::BuildError;
use crate::memo::{Memo, NO_MEMO, Operation};
use std::alloc::{AllocError, Global};
use std::collections::HashMap;
use std::marker::Model;

/// Functions of some inputs, each one row of a reduced and ordered diagram: row 0 is the constant 0, row 1 the constant 1.
/// Room for the rows is taken when it is opened, and no row is given back. It can't be dropped: `close` ends it.
/// Contracts see the number of inputs, how many rows there can be, and the rows.
pub struct Diagrams {
    alloc: Global,
    inputs: u32,
    rows: DecisionRows,
    index: HashMap<u64, u32>,
    memos: Vec<Memo>,
}

impl Model for Diagrams {
    ghost use Rattle.diagrams.specs.Building.{DiagramState, IsSound};

    ghost Value = { DiagramState };

    ghost view = { λ d. record { inputs = d.inputs; room = d.rows.room; rows = d.rows.rows } };

    ghost invariant = { λ d. IsSound d.inputs d.rows.room d.rows.rows d.index d.memos.items };
}

impl Diagrams {
    /// The two constants over so many inputs, and room for so many rows, these two among them.
    ///
    /// # Errors
    ///
    /// Want of memory.
    pub fn new(alloc: Global, inputs: usize, rows: usize) -> Result<Diagrams, AllocError>
        requires inputs { inputs ≤ 1024 }
        requires some { 2 ≤ rows }
        requires few { rows ≤ 4194304 }
        ensures inputs { IfOk result (λ d. d.inputs ≡ inputs) }
        ensures room { IfOk result (λ d. d.room ≡ rows) }
        ensures rows { IfOk result (λ d. d.rows ≡ constants inputs) }
    {
        let inputs = inputs as u32;
        let memos = vec![in alloc; NO_MEMO; 1024]?;
        let mut rows = DecisionRows::new(alloc, rows)?;
        rows.push(Decision {
            input: inputs,
            low: 0,
            high: 0,
        });
        rows.push(Decision {
            input: inputs,
            low: 1,
            high: 1,
        });
        Ok(Diagrams {
            alloc,
            inputs,
            rows,
            index: HashMap::new(alloc),
            memos,
        })
    }

    /// How many inputs there are.
    pub fn inputs(&self) -> usize
        ensures inputs { result ≡ self.now.inputs }
        ensures few { result ≤ 1024 }
    {
        self.inputs as usize
    }

    /// How many rows there are, the two constants among them.
    pub fn len(&self) -> usize
        ensures len { result ≡ length self.now.rows }
        ensures within { result ≤ self.now.room }
        ensures diagram { IsDiagram self.now.inputs self.now.rows }
    {
        let _inputs = self.inputs;
        self.rows.len()
    }

    /// What takes memory for the diagrams.
    pub(crate) fn alloc(&self) -> Global {
        self.alloc
    }

    /// Where a row goes on to with a bit of an input.
    pub(crate) fn step(&self, row: u32, input: u32, bit: bool) -> u32
        requires row { row < length self.now.rows }
        ensures step { result ≡ step_of self.now.rows input row bit }
        ensures inside { result < length self.now.rows }
    {
        let decision = self.rows.get(row);
        if decision.input != input {
            row
        } else if bit {
            decision.high
        } else {
            decision.low
        }
    }

    /// The first input that one of two rows decides, or the number of inputs.
    pub(crate) fn level(&self, first: u32, second: u32) -> u32
        requires first { first < length self.now.rows }
        requires second { second < length self.now.rows }
        ensures first { IsAt self.now.rows result first }
        ensures second { IsAt self.now.rows result second }
        ensures least { result ≡ min (row_of self.now.rows first).input (row_of self.now.rows second).input }
        ensures decides { (2 ≤ first) ⊎ (2 ≤ second) → result < self.now.inputs }
    {
        let _inputs = self.inputs;
        let one = self.rows.get(first).input;
        let other = self.rows.get(second).input;
        if one < other { one } else { other }
    }

    /// The row of a decision, where there is one.
    fn find(&self, decision: Decision) -> Option<u32>
        requires decides { IsDecision self.now.inputs self.now.rows decision }
        ensures found { IfSome result (IsRowOf self.now.rows decision) }
        ensures absent { IfNone result (HasNoRow self.now.rows decision) }
    {
        let _inputs = self.inputs;
        let row = self.index.get(&word(decision))?;
        Some(*row)
    }

    /// Adds a row for a decision that has none.
    fn add(&mut self, decision: Decision) -> Result<u32, BuildError>
        requires decides { IsDecision self.old.inputs self.old.rows decision }
        requires absent { HasNoRow self.old.rows decision }
        ensures made { (fs : List Function) → IsCofactorOfOne self.old.inputs fs (choice self.old.rows decision.input decision.low decision.high) → AreMade self.old self.new fs }
        ensures stands { IfOk result (StandsFor self.new (choice self.old.rows decision.input decision.low decision.high)) }
        ensures short { IsErrOf result BuildError.Spent → (fs : List Function) → IsCofactorOfOne self.old.inputs fs (choice self.old.rows decision.input decision.low decision.high) → AreShort self.new fs }
    {
        let _inputs = self.inputs;
        let row = self.rows.len();
        if row == self.rows.room() {
            return Err(BuildError::Spent);
        }
        match self.index.insert(word(decision), row as u32) {
            Ok(_) => {
                self.rows.push(decision);
                Ok(row as u32)
            }
            Err(error) => Err(BuildError::Memory(error.into())),
        }
    }

    /// Makes room for twice as many memos where there are no more of them than rows. Each goes to its place there.
    fn widen(&mut self) -> Result<(), AllocError>
        ensures same { self.new ≡ self.old }
    {
        let count = self.memos.len();
        if self.rows.len() < count {
            return Ok(());
        }
        self.memos = widened(self.alloc, self.memos.as_slice())?;
        Ok(())
    }

    /// The row of the function that is one row's where an input is 0, and another's where it is 1.
    pub(crate) fn node(&mut self, input: u32, low: u32, high: u32) -> Result<u32, BuildError>
        requires input { input < self.old.inputs }
        requires low { IsAt self.old.rows (input + 1) low }
        requires high { IsAt self.old.rows (input + 1) high }
        ensures made { (fs : List Function) → IsCofactorOfOne self.old.inputs fs (choice self.old.rows input low high) → AreMade self.old self.new fs }
        ensures stands { IfOk result (StandsFor self.new (choice self.old.rows input low high)) }
        ensures short { IsErrOf result BuildError.Spent → (fs : List Function) → IsCofactorOfOne self.old.inputs fs (choice self.old.rows input low high) → AreShort self.new fs }
    {
        let _rows = self.len();
        if low == high {
            return Ok(low);
        }
        let decision = Decision { input, low, high };
        if let Some(row) = self.find(decision) {
            return Ok(row);
        }
        self.widen().map_err(BuildError::Memory)?;
        self.add(decision)
    }

    /// The row of the function that is an input.
    ///
    /// # Errors
    ///
    /// All rows are used, and none of them stands for it; want of memory.
    pub fn variable(&mut self, input: usize) -> Result<u32, BuildError>
        requires input { input < self.old.inputs }
        ensures made { (fs : List Function) → IsCofactorOfOne self.old.inputs fs (input_bit input) → AreMade self.old self.new fs }
        ensures stands { IfOk result (StandsFor self.new (input_bit input)) }
        ensures short { IsErrOf result BuildError.Spent → (fs : List Function) → IsCofactorOfOne self.old.inputs fs (input_bit input) → AreShort self.new fs }
    {
        let _few = self.inputs();
        let _rows = self.len();
        match self.node(input as u32, 0, 1) {
            Ok(row) => Ok(row),
            Err(e) => Err(e),
        }
    }

    /// What an operation made of two rows, where a memo says it.
    pub(crate) fn recall(&self, operation: Operation, first: u32, second: u32) -> Option<u32>
        ensures right { IfSome result (StandsFor self.now (combined_rows operation self.now.rows first second)) }
    {
        let _inputs = self.inputs;
        let memo = self.memos[place(self.memos.len(), operation, first, second)];
        if memo.operation == operation && memo.first == first && memo.second == second {
            Some(memo.result)
        } else {
            None
        }
    }

    /// Keeps what an operation made of two rows, in place of an older memo.
    pub(crate) fn remember(&mut self, memo: Memo)
        requires first { memo.first < length self.old.rows }
        requires second { memo.second < length self.old.rows }
        requires right { StandsFor self.old (combined_rows memo.operation self.old.rows memo.first memo.second) memo.result }
        ensures same { self.new ≡ self.old }
    {
        let _inputs = self.inputs;
        let there = place(self.memos.len(), memo.operation, memo.first, memo.second);
        self.memos[there] = memo;
    }

    /// Ends the diagrams, and the pool of their rows.
    pub fn close(self) {
        let Diagrams {
            alloc: _,
            inputs: _,
            rows,
            index: _,
            memos: _,
        } = self;
        rows.close()
    }
}

/// The place of a memo among so many. Where they are a power of two, it can be any of them.
#[tactic(auto, using(std::proofs::lemmas::Nat::and_le_r))]
fn place(count: usize, operation: Operation, first: u32, second: u32) -> usize
    requires some { 0 < count }
    ensures inside { result < count }
{
    let mixed = first as u64 * 12582917 + second as u64 * 4256249 + operation as u64 * 741457;
    (mixed & (count as u64 - 1)) as usize
}

/// Memos in a list of twice as many, each at its place there.
fn widened(alloc: Global, memos: &[Memo]) -> Result<Vec<Memo>, AllocError>
    requires some { 0 < length memos.now }
    ensures some { IfOk result (λ wider. 0 < length wider.items) }
    ensures right { IfOk result (λ wider. (state : DiagramState) → IsDiagram state.inputs state.rows → All (IsRight state.inputs state.rows) memos.now → All (IsRight state.inputs state.rows) wider.items) }
{
    let mut wider = vec![in alloc; NO_MEMO; 2 * memos.len()]?;
    for memo in memos {
        let there = place(wider.len(), memo.operation, memo.first, memo.second);
        wider[there] = *memo;
    }
    Ok(wider)
}
