//! The rows of a state table, as numbers.
ghost use Rattle.std.specs.Prelude.{◌≡◌, ◌<◌, ◌≤◌, ◌++◌, ◌∷◌, [], true, length, List, IfOk, OnOk, IfSome, is_some};
ghost use Rattle.tsc_cover.specs.Cover.{literals};
ghost use Rattle.tsc_cover.specs.Row.{IsRow};
ghost use Rattle.tsc_cover.specs.Text.{is_row_text, literals_of_text};
ghost use Rattle.tsc_net.specs.Names.{find_text, has_text, place_of_text};
ghost use Rattle.tsc_net.specs.MachineView.{transition_of, IsMachineRow};
ghost use Rattle.tsc_text.specs.TextLine.{TextLine};
ghost use Rattle.kiss_read.specs.Selections.{is_of};
ghost use Rattle.kiss_read.specs.RowText.{has_row_shape, transition_at};
ghost use Rattle.kiss_read.specs.Shaped.{AreShaped, HasRows};
ghost use Rattle.kiss_read.specs.declared.kinds.LineKind.TheVariants.{Row};

use crate::kinds::{LineKind, kind_of};
use std::alloc::{AllocError, Global};
use tsc_cover::{Row01, row_of};
use tsc_io::Items;
use tsc_net::{MachineRow, MachineRows, NameTable};
use tsc_text::{SectionLines, TextLine};

/// The numbers with which rows are read.
#[derive(Clone, Copy)]
pub struct Heading {
    /// The number of inputs.
    pub inputs: usize,
    /// The number of outputs.
    pub outputs: usize,
    /// The reset state.
    pub reset: u32,
}

/// The state that a word names, if it names one.
pub fn state_named(states: &NameTable, word: &[u8]) -> Option<u32>
    requires few { length states.now ≤ 4096 }
    ensures named { result ≡ find_text states.now word.now }
    ensures place { IfSome result (λ state. state ≡ place_of_text states.now word.now) }
    ensures has { is_some result ≡ has_text states.now word.now }
    ensures within { IfSome result (λ state. state < length states.now) }
{
    Some(states.find(word)? as u32)
}

/// The row that the characters `0`, `1` and `-` stand for.
fn pattern(word: &[u8]) -> Row01
    requires room { length word.now ≤ 64 }
    requires read { is_row_text word.now ≡ true }
    ensures literals { literals (length word.now) result.care result.value ≡ literals_of_text word.now }
    ensures fit { IsRow (length word.now) result }
{
    row_of(word).unwrap()
}

/// A row of the table.
fn row_at(heading: Heading, states: &NameTable, line: &TextLine) -> MachineRow
    requires few_inputs { heading.inputs ≤ 64 }
    requires few_outputs { heading.outputs ≤ 64 }
    requires few_states { length states.now ≤ 4096 }
    requires reset { heading.reset < length states.now }
    requires shape { has_row_shape heading.inputs heading.outputs line.now.words ≡ true }
    ensures row { transition_of heading.inputs heading.outputs result ≡ transition_at states.now heading.reset line.now }
    ensures number { result.line ≡ line.now.number }
    ensures fit { IsMachineRow heading.inputs heading.outputs (length states.now) heading.reset result }
{
    let input = pattern(line.word(0));
    let outputs = pattern(line.word(3));
    let from = state_named(states, line.word(1));
    let next = state_named(states, line.word(2));
    MachineRow {
        input,
        from,
        next: next.unwrap_or(heading.reset),
        named: next.is_some(),
        outputs: outputs.value,
        care: outputs.care,
        line: line.number(),
    }
}

/// Adds the row that a line is, if it is one.
fn add_row(
    rows: &mut MachineRows,
    heading: Heading,
    states: &NameTable,
    line: &TextLine,
) -> Result<(), AllocError>
    requires few_inputs { heading.inputs ≤ 64 }
    requires few_outputs { heading.outputs ≤ 64 }
    requires few_states { length states.now ≤ 4096 }
    requires reset { heading.reset < length states.now }
    requires shape { is_of Row line.now ≡ true → has_row_shape heading.inputs heading.outputs line.now.words ≡ true }
    ensures rows { (before : List TextLine) → HasRows heading states.now before rows.old → OnOk result (HasRows heading states.now (before ++ line.now ∷ []) rows.new) }
{
    if kind_of(line) == LineKind::Row {
        rows.push(row_at(heading, states, line))?;
    }
    Ok(())
}

/// The rows of a section.
pub fn read_rows(
    alloc: Global,
    heading: Heading,
    states: &NameTable,
    section: &SectionLines,
) -> Result<MachineRows, AllocError>
    requires few_inputs { heading.inputs ≤ 64 }
    requires few_outputs { heading.outputs ≤ 64 }
    requires few_states { length states.now ≤ 4096 }
    requires reset { heading.reset < length states.now }
    requires shaped { AreShaped heading.inputs heading.outputs section.now }
    ensures rows { IfOk result (HasRows heading states.now section.now) }
{
    let mut rows = Items::new(alloc);
    for place in 0..section.len() {
        let line = section.line(place);
        add_row(&mut rows, heading, states, &line)?;
    }
    Ok(rows)
}
