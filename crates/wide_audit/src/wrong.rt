//! The first input at which the word or an output is wrong.
ghost use Rattle.std.specs.Prelude.{◌≡◌, ℕ, ◌<◌, ◌≤◌, ◌+◌, Bool, false, true, IsTrue, IsFalse, List, length, slice_index, All, IfOk, IfSome, IfNone};
ghost use Rattle.diagrams.specs.Cofactors.{Function};
ghost use Rattle.diagrams.specs.Building.{StandsFor};
ghost use Rattle.diagrams.specs.Least.{IsUpTo, IsLeast};
ghost use Rattle.wide_audit.specs.FirstWrong.{IsFirstPoint, IsFirstWrong};

use diagrams::Diagrams;
use std::alloc::{AllocError, Global};
use wide_diagrams::WideRows;

/// An input at which something is wrong: the word, or an output by its place.
#[derive(Drop)]
pub(crate) struct WrongPoint {
    /// The bits of the inputs.
    pub input: Vec<bool>,
    /// The place of the output; none where the word is wrong.
    pub output: Option<usize>,
}

/// Whether the one list of bits comes before the other, both read as numbers, the first bit most significant.
fn is_before(first: &[bool], second: &[bool]) -> bool
    ensures before { length first.now ≡ length second.now → IsTrue result → IsUpTo first.now second.now }
    ensures strictly { length first.now ≡ length second.now → IsTrue result → IsUpTo second.now first.now → ⊥ }
    ensures otherwise { length first.now ≡ length second.now → IsFalse result → IsUpTo second.now first.now }
{
    let count = first.len().min(second.len());
    for i in 0..count {
        if first[i] != second[i] {
            return second[i];
        }
    }
    false
}

/// The earlier of the first wrong point so far and the least input at which the output at a place differs.
fn earlier(found: Option<WrongPoint>, least: Option<Vec<bool>>, place: usize) -> Option<WrongPoint>
    ensures first { (inputs : ℕ) (rails : Function) (differs : ℕ → Function) → IsFirstWrong inputs rails differs place found → IfNone least ((x : List Bool) → length x ≡ inputs → differs place x ≡ false) → IfSome least (λ bits. IsLeast inputs (differs place) true bits.items) → IsFirstWrong inputs rails differs (place + 1) result }
{
    match least {
        None => found,
        Some(input) => match found {
            None => Some(WrongPoint {
                input,
                output: Some(place),
            }),
            Some(point) => Some(sooner(point, input, place)),
        },
    }
}

/// The first wrong point, or the least input at which an output differs where that comes before it.
fn sooner(point: WrongPoint, input: Vec<bool>, place: usize) -> WrongPoint
    ensures first { (inputs : ℕ) (rails : Function) (differs : ℕ → Function) → IsFirstPoint inputs rails differs place point.input.items point.output → IsLeast inputs (differs place) true input.items → IsFirstPoint inputs rails differs (place + 1) result.input.items result.output }
{
    if is_before(&input, &point.input) {
        WrongPoint {
            input,
            output: Some(place),
        }
    } else {
        point
    }
}

/// The first input at which the rails agree, if there is one.
fn first_word(
    alloc: Global,
    diagrams: &Diagrams,
    row: u32,
) -> Result<Option<WrongPoint>, AllocError>
    requires row { row < length diagrams.now.rows }
    ensures first { (rails : Function) (differs : ℕ → Function) → StandsFor diagrams.now rails row → IfOk result (IsFirstWrong diagrams.now.inputs rails differs 0) }
{
    match diagrams.least(alloc, row, false)? {
        None => Ok(None),
        Some(input) => Ok(Some(WrongPoint {
            input,
            output: None,
        })),
    }
}

/// The first input at which the rails agree or an output differs, if there is one, and what is wrong there: the word before the
/// outputs, and these by place.
pub(crate) fn first_wrong(
    alloc: Global,
    diagrams: &Diagrams,
    rows: &WideRows,
) -> Result<Option<WrongPoint>, AllocError>
    requires word { rows.now.word < length diagrams.now.rows }
    requires outputs { All (λ row. row < length diagrams.now.rows) rows.now.outputs.items }
    ensures first { (rails : Function) (differs : ℕ → Function) → StandsFor diagrams.now rails rows.now.word → ((place : ℕ) → place < length rows.now.outputs.items → StandsFor diagrams.now (differs place) (slice_index rows.now.outputs.items place)) → IfOk result (IsFirstWrong diagrams.now.inputs rails differs (length rows.now.outputs.items)) }
{
    let mut found = first_word(alloc, diagrams, rows.word)?;
    for place in 0..rows.outputs.len() {
        let least = diagrams.least(alloc, rows.outputs[place], true)?;
        found = earlier(found, least, place);
    }
    Ok(found)
}
