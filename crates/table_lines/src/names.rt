//! The names of the inputs and of the outputs.
ghost use Rattle.std.specs.Prelude.{◌≡◌, ◌≤◌, ◌==◌, ◌++◌, length, Some, None, IfSome, IfOk, IfErr, OnOk, is_none};
ghost use Rattle.std.specs.Option.{is_some};
ghost use Rattle.tsc_net.specs.Names.{has_text, IsNumbering};
ghost use Rattle.tsc_net.specs.NetFault.{first_repeat, repeat_after};
ghost use Rattle.table_lines.specs.LineFaults.{names_of};
ghost use Rattle.table_lines.specs.NamesText.{are_wrong_names, later_line, names_or, numbered_name, numbered_names, wrong_names, IsWrongBy};

use std::alloc::{AllocError, Global};
use thiserror::Error;
use tsc_io::{Bytes, Items};
use tsc_net::NameTexts;
use tsc_text::{TextLine, push_number};

/// Why names are refused.
#[derive(Debug, Drop, Error)]
pub enum NamesError {
    /// Too many, too few, or one that stands twice; the line is the later of those that give names.
    #[error("line {line}: names")]
    Wrong { line: usize },
    /// Memory was missing.
    #[error("out of memory")]
    Memory(AllocError),
}

/// The names of the inputs and of the outputs.
#[derive(Drop)]
pub struct Names {
    /// Those of the inputs.
    pub inputs: NameTexts,
    /// Those of the outputs.
    pub outputs: NameTexts,
}

/// The lines that give names, where they are there.
#[derive(Drop)]
pub struct NameLines<'a> {
    /// That of the inputs.
    pub inputs: Option<TextLine<'a>>,
    /// That of the outputs.
    pub outputs: Option<TextLine<'a>>,
}

/// A letter and a number.
fn numbered_name(alloc: Global, letter: u8, number: usize) -> Result<Bytes, AllocError>
    ensures name { IfOk result (λ name. name ≡ numbered_name letter number) }
{
    let mut name = Items::new(alloc);
    name.push(letter)?;
    push_number(&mut name, number as u64)?;
    Ok(name)
}

/// So many names: a letter and the numbers from 0 on.
#[tactic(auto, using(crate::proofs::NameLists::next_number))]
fn numbered_names(alloc: Global, letter: u8, count: usize) -> Result<NameTexts, AllocError>
    ensures names { IfOk result (λ names. names ≡ numbered_names letter count) }
{
    let mut names = Items::new(alloc);
    for number in 0..count {
        let name = numbered_name(alloc, letter, number)?;
        names.push(name)?;
    }
    Ok(names)
}

/// The names of a line: all its words except the first.
#[tactic(auto, using(tsc_bits::proofs::Ranges::range_none, tsc_bits::proofs::Ranges::range_push, crate::proofs::NameLists::all_names))]
fn names_at(alloc: Global, line: &TextLine) -> Result<NameTexts, AllocError>
    ensures names { IfOk result (λ names. names ≡ names_of line.now) }
{
    let mut names = Items::new(alloc);
    for place in 1..line.words() {
        let name = Items::from_slice(alloc, line.word(place))?;
        names.push(name)?;
    }
    Ok(names)
}

/// The names of a line, and without one those of the letter.
fn names_or(
    alloc: Global,
    line: &Option<TextLine>,
    letter: u8,
    count: usize,
) -> Result<NameTexts, AllocError>
    ensures names { IfOk result (λ names. names ≡ names_or line.now letter count) }
{
    match line {
        Some(line) => names_at(alloc, line),
        None => numbered_names(alloc, letter, count),
    }
}

/// Whether the names of a line, and without one those of the letter, are so many.
#[tactic(auto, using(crate::proofs::NameLists::count_of_names, crate::proofs::NameLists::count_of_numbers))]
fn has_count(line: &Option<TextLine>, letter: u8, count: usize) -> bool
    ensures count { result ≡ (length (names_or line.now letter count) == count) }
{
    match line {
        Some(line) => line.words().saturating_sub(1) == count,
        None => true,
    }
}

/// Whether a text is one of the names.
fn is_among(names: &[Bytes], text: &[u8]) -> bool
    ensures among { result ≡ has_text names.now text.now }
{
    names.iter().any(|name| text == name.as_slice())
}

/// Whether a name stands among these before or twice.
fn has_repeat_behind(before: &[Bytes], names: &[Bytes]) -> bool
    ensures repeat { result ≡ is_some (repeat_after before.now names.now) }
{
    for place in 0..names.len() {
        let name = names[place].as_slice();
        if is_among(before, name) || is_among(&names[..place], name) {
            return true;
        }
    }
    false
}

/// Whether a name stands twice in the two lists.
#[tactic(auto, using(crate::proofs::NameLists::repeat_both))]
fn has_repeat(inputs: &[Bytes], outputs: &[Bytes]) -> bool
    ensures repeat { result ≡ is_some (first_repeat (inputs.now ++ outputs.now)) }
{
    has_repeat_behind(&[], inputs) || has_repeat_behind(inputs, outputs)
}

/// The later of the lines that give names, by its number.
fn later_line(at: &NameLines) -> Option<usize>
    ensures later { result ≡ later_line at.now.inputs at.now.outputs }
{
    match &at.inputs {
        None => match &at.outputs {
            None => None,
            Some(outputs) => Some(outputs.number()),
        },
        Some(inputs) => match &at.outputs {
            None => Some(inputs.number()),
            Some(outputs) => Some(inputs.number().max(outputs.number())),
        },
    }
}

/// The names of so many inputs and outputs where a line gives some.
fn given_names(
    alloc: Global,
    at: &NameLines,
    inputs: usize,
    outputs: usize,
) -> Result<Option<Names>, AllocError>
    ensures inputs { IfOk result (λ names. IfSome names (λ names. names.inputs ≡ names_or at.now.inputs 105 inputs)) }
    ensures outputs { IfOk result (λ names. IfSome names (λ names. names.outputs ≡ names_or at.now.outputs 111 outputs)) }
    ensures distinct { IfOk result (λ names. IfSome names (λ names. IsNumbering (names.inputs ++ names.outputs))) }
    ensures count_inputs { IfOk result (λ names. IfSome names (λ names. length names.inputs ≡ inputs)) }
    ensures count_outputs { IfOk result (λ names. IfSome names (λ names. length names.outputs ≡ outputs)) }
    ensures right { IfOk result (λ names. is_none names ≡ are_wrong_names (names_or at.now.inputs 105 inputs) inputs (names_or at.now.outputs 111 outputs) outputs) }
{
    if !has_count(&at.inputs, b'i', inputs) || !has_count(&at.outputs, b'o', outputs) {
        return Ok(None);
    }
    let names = Names {
        inputs: names_or(alloc, &at.inputs, b'i', inputs)?,
        outputs: names_or(alloc, &at.outputs, b'o', outputs)?,
    };
    if has_repeat(names.inputs.as_slice(), names.outputs.as_slice()) {
        return Ok(None);
    }
    Ok(Some(names))
}

/// The names of so many inputs and outputs where no line gives some.
#[tactic(auto, using(crate::proofs::NameLists::numbered_differ, crate::proofs::NameLists::count_of_numbered))]
fn default_names(alloc: Global, inputs: usize, outputs: usize) -> Result<Names, AllocError>
    requires few_inputs { inputs ≤ 64 }
    requires few_outputs { outputs ≤ 64 }
    ensures inputs { IfOk result (λ names. names.inputs ≡ numbered_names 105 inputs) }
    ensures outputs { IfOk result (λ names. names.outputs ≡ numbered_names 111 outputs) }
    ensures distinct { IfOk result (λ names. IsNumbering (names.inputs ++ names.outputs)) }
    ensures count_inputs { IfOk result (λ names. length names.inputs ≡ inputs) }
    ensures count_outputs { IfOk result (λ names. length names.outputs ≡ outputs) }
{
    let inputs = numbered_names(alloc, b'i', inputs)?;
    let outputs = numbered_names(alloc, b'o', outputs)?;
    Ok(Names { inputs, outputs })
}

/// The names of so many inputs and outputs, at most 64 of each: there are so many, and all are different.
#[tactic(auto, using(crate::proofs::NameLists::no_input_line, crate::proofs::NameLists::no_output_line, crate::proofs::NameLists::no_fault_without, crate::proofs::NameLists::no_fault_right, crate::proofs::NameLists::fault_wrong))]
pub fn read_names(
    alloc: Global,
    at: &NameLines,
    inputs: usize,
    outputs: usize,
) -> Result<Names, NamesError>
    requires few_inputs { inputs ≤ 64 }
    requires few_outputs { outputs ≤ 64 }
    ensures inputs { IfOk result (λ names. names.inputs ≡ names_or at.now.inputs 105 inputs) }
    ensures outputs { IfOk result (λ names. names.outputs ≡ names_or at.now.outputs 111 outputs) }
    ensures distinct { IfOk result (λ names. IsNumbering (names.inputs ++ names.outputs)) }
    ensures count_inputs { IfOk result (λ names. length names.inputs ≡ inputs) }
    ensures count_outputs { IfOk result (λ names. length names.outputs ≡ outputs) }
    ensures sound { OnOk result (wrong_names at.now.inputs inputs at.now.outputs outputs ≡ None) }
    ensures refused { IfErr result (IsWrongBy (wrong_names at.now.inputs inputs at.now.outputs outputs)) }
{
    match later_line(at) {
        None => match default_names(alloc, inputs, outputs) {
            Ok(names) => Ok(names),
            Err(error) => Err(NamesError::Memory(error)),
        },
        Some(line) => match given_names(alloc, at, inputs, outputs) {
            Ok(names) => match names {
                Some(names) => Ok(names),
                None => Err(NamesError::Wrong { line }),
            },
            Err(error) => Err(NamesError::Memory(error)),
        },
    }
}
