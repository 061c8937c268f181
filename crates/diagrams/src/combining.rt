//! Operations on two functions, without a recursion.
ghost use Rattle.std.specs.Prelude.{◌≡◌, ℕ, ◌+◌, ◌<◌, true, false, List, length, sum_by, IfOk, IsErrOf};
ghost use Rattle.diagrams.specs.Cofactors.{Function, IsCofactorOfOne};
ghost use Rattle.diagrams.specs.Building.{combined_rows, AreMade, StandsFor, AreShort};
ghost use Rattle.diagrams.specs.Waiting.{first_half, second_half, IsWaiting, Wait, IsUnderWay, IsNext, wait_cost, work, work_left};

use crate::diagrams::Diagrams;
use crate::error::BuildError;
use crate::memo::{Memo, Operation};
use crate::shortcut::shortcut;
use crate::waiting::{Next, Task, Waiting};
use std::alloc::AllocError;

/// Begins to combine two rows: their row, where it is known, else their low halves, while they wait.
fn begin(
    diagrams: &Diagrams,
    operation: Operation,
    first: u32,
    second: u32,
    stack: &mut Vec<Waiting>,
) -> Result<Task, AllocError>
    requires first { first < length diagrams.now.rows }
    requires second { second < length diagrams.now.rows }
    ensures way { (f g : ℕ) → Wait diagrams.now operation stack.old.items f g first second → IfOk result (IsUnderWay diagrams.now operation f g stack.new.items) }
    ensures less { IfOk result (λ task. work diagrams.now stack.new.items task < work diagrams.now stack.old.items (Task.Build first second)) }
{
    let _rows = diagrams.len();
    if let Some(row) = shortcut(operation, first, second) {
        return Ok(Task::Built { row });
    }
    if let Some(row) = diagrams.recall(operation, first, second) {
        return Ok(Task::Built { row });
    }
    let level = diagrams.level(first, second);
    stack.push(Waiting {
        first,
        second,
        level,
        has_low: false,
        low: 0,
    })?;
    Ok(Task::Build {
        first: diagrams.step(first, level, false),
        second: diagrams.step(second, level, false),
    })
}

/// Goes on with the high halves of two rows, whose low halves' row is there.
fn go_high(
    diagrams: &Diagrams,
    operation: Operation,
    waiting: Waiting,
    low: u32,
    stack: &mut Vec<Waiting>,
) -> Result<Task, AllocError>
    requires waits { IsWaiting diagrams.now operation waiting }
    requires without { waiting.has_low ≡ false }
    requires low { StandsFor diagrams.now (combined_rows operation diagrams.now.rows (first_half diagrams.now.rows waiting) (second_half diagrams.now.rows waiting)) low }
    ensures way { (f g : ℕ) → Wait diagrams.now operation stack.old.items f g waiting.first waiting.second → IfOk result (IsUnderWay diagrams.now operation f g stack.new.items) }
    ensures less { IfOk result (λ task. work diagrams.now stack.new.items task < sum_by (wait_cost diagrams.now.inputs) stack.old.items + wait_cost diagrams.now.inputs waiting + 1) }
{
    let _rows = diagrams.len();
    stack.push(Waiting {
        first: waiting.first,
        second: waiting.second,
        level: waiting.level,
        has_low: true,
        low,
    })?;
    Ok(Task::Build {
        first: diagrams.step(waiting.first, waiting.level, true),
        second: diagrams.step(waiting.second, waiting.level, true),
    })
}

/// The row of what an operation makes of two rows, whose halves' rows are there.
fn finish(
    diagrams: &mut Diagrams,
    operation: Operation,
    waiting: Waiting,
    high: u32,
) -> Result<u32, BuildError>
    requires waits { IsWaiting diagrams.old operation waiting }
    requires has_low { waiting.has_low ≡ true }
    requires high { StandsFor diagrams.old (combined_rows operation diagrams.old.rows (first_half diagrams.old.rows waiting) (second_half diagrams.old.rows waiting)) high }
    ensures made { (fs : List Function) → IsCofactorOfOne diagrams.old.inputs fs (combined_rows operation diagrams.old.rows waiting.first waiting.second) → AreMade diagrams.old diagrams.new fs }
    ensures stands { IfOk result (StandsFor diagrams.new (combined_rows operation diagrams.old.rows waiting.first waiting.second)) }
    ensures short { IsErrOf result BuildError.Spent → (fs : List Function) → IsCofactorOfOne diagrams.old.inputs fs (combined_rows operation diagrams.old.rows waiting.first waiting.second) → AreShort diagrams.new fs }
{
    let _rows = diagrams.len();
    match diagrams.node(waiting.level, waiting.low, high) {
        Ok(result) => {
            diagrams.remember(Memo {
                operation,
                first: waiting.first,
                second: waiting.second,
                result,
            });
            Ok(result)
        }
        Err(e) => Err(e),
    }
}

/// Goes on with two rows, one half of which has its row.
fn resume(
    diagrams: &mut Diagrams,
    operation: Operation,
    waiting: Waiting,
    half: u32,
    stack: &mut Vec<Waiting>,
) -> Result<Task, BuildError>
    requires waits { IsWaiting diagrams.old operation waiting }
    requires half { StandsFor diagrams.old (combined_rows operation diagrams.old.rows (first_half diagrams.old.rows waiting) (second_half diagrams.old.rows waiting)) half }
    ensures way { (f g : ℕ) → Wait diagrams.old operation stack.old.items f g waiting.first waiting.second → IfOk result (IsUnderWay diagrams.new operation f g stack.new.items) }
    ensures made { (fs : List Function) → IsCofactorOfOne diagrams.old.inputs fs (combined_rows operation diagrams.old.rows waiting.first waiting.second) → AreMade diagrams.old diagrams.new fs }
    ensures short { IsErrOf result BuildError.Spent → (fs : List Function) → IsCofactorOfOne diagrams.old.inputs fs (combined_rows operation diagrams.old.rows waiting.first waiting.second) → AreShort diagrams.new fs }
    ensures less { IfOk result (λ task. work diagrams.new stack.new.items task < sum_by (wait_cost diagrams.old.inputs) stack.old.items + wait_cost diagrams.old.inputs waiting + 1) }
{
    let _rows = diagrams.len();
    if waiting.has_low {
        match finish(diagrams, operation, waiting, half) {
            Ok(row) => Ok(Task::Built { row }),
            Err(e) => Err(e),
        }
    } else {
        match go_high(diagrams, operation, waiting, half, stack) {
            Ok(task) => Ok(task),
            Err(e) => Err(BuildError::Memory(e)),
        }
    }
}

/// Does what there is to do next.
fn advance(
    diagrams: &mut Diagrams,
    operation: Operation,
    task: Task,
    stack: &mut Vec<Waiting>,
) -> Result<Next, BuildError>
    requires way { (f : ℕ) × ((g : ℕ) × IsUnderWay diagrams.old operation f g stack.old.items task) }
    ensures way { (f g : ℕ) → IsUnderWay diagrams.old operation f g stack.old.items task → IfOk result (IsNext diagrams.new operation f g stack.new.items) }
    ensures made { (f g : ℕ) (fs : List Function) → IsUnderWay diagrams.old operation f g stack.old.items task → IsCofactorOfOne diagrams.old.inputs fs (combined_rows operation diagrams.old.rows f g) → AreMade diagrams.old diagrams.new fs }
    ensures short { IsErrOf result BuildError.Spent → (f g : ℕ) (fs : List Function) → IsUnderWay diagrams.old operation f g stack.old.items task → IsCofactorOfOne diagrams.old.inputs fs (combined_rows operation diagrams.old.rows f g) → AreShort diagrams.new fs }
    ensures less { IfOk result (λ next. work_left diagrams.new stack.new.items next < work diagrams.old stack.old.items task) }
{
    let _rows = diagrams.len();
    match task {
        Task::Build { first, second } => {
            match begin(diagrams, operation, first, second, stack) {
                Ok(next) => Ok(Next::Go(next)),
                Err(e) => Err(BuildError::Memory(e)),
            }
        }
        Task::Built { row } => match stack.pop() {
            None => Ok(Next::Done(row)),
            Some(waiting) => match resume(diagrams, operation, waiting, row, stack) {
                Ok(next) => Ok(Next::Go(next)),
                Err(e) => Err(e),
            },
        },
    }
}

impl Diagrams {
    /// The row of what an operation makes of the functions of two rows. New rows stand for cofactors of that function alone,
    /// also where there is an error. It uses a stack of its own, which is as deep as there are inputs.
    ///
    /// # Errors
    ///
    /// All rows are used, and none of them stands for some cofactor of the function; want of memory.
    pub fn combine(
        &mut self,
        operation: Operation,
        first: u32,
        second: u32,
    ) -> Result<u32, BuildError>
        requires first { first < length self.old.rows }
        requires second { second < length self.old.rows }
        ensures made { (fs : List Function) → IsCofactorOfOne self.old.inputs fs (combined_rows operation self.old.rows first second) → AreMade self.old self.new fs }
        ensures stands { IfOk result (StandsFor self.new (combined_rows operation self.old.rows first second)) }
        ensures short { IsErrOf result BuildError.Spent → (fs : List Function) → IsCofactorOfOne self.old.inputs fs (combined_rows operation self.old.rows first second) → AreShort self.new fs }
    {
        let _rows = self.len();
        let mut stack = Vec::new(self.alloc());
        let mut task = Task::Build { first, second };
        loop {
            match advance(self, operation, task, &mut stack) {
                Ok(Next::Done(row)) => return Ok(row),
                Ok(Next::Go(next)) => task = next,
                Err(e) => return Err(e),
            }
        }
    }
}
