//! The rows of a table, as numbers.
ghost use Rattle.std.specs.Prelude.{◌≡◌, ℕ, ◌<◌, ◌≤◌, ◌++◌, ◌∷◌, ◌+◌, ◌*◌, [], true, length, map, List, IfOk, OnOk};
ghost use Rattle.tsc_bits.specs.Bits.{bits_of, weight_of};
ghost use Rattle.tsc_cover.specs.Cover.{literals};
ghost use Rattle.tsc_cover.specs.Row.{IsRow};
ghost use Rattle.tsc_cover.specs.Text.{is_row_text, literals_of_text};
ghost use Rattle.tsc_text.specs.TextLine.{TextLine};
ghost use Rattle.pla_read.specs.Selections.{is_of};
ghost use Rattle.pla_read.specs.RowText.{has_row_shape, row_at, says};
ghost use Rattle.pla_read.specs.Covers.{marks_in};
ghost use Rattle.pla_read.specs.Shaped.{row_as, AreShaped, HasRows};
ghost use Rattle.pla_read.specs.declared.kinds.LineKind.TheVariants.{Row};

use crate::kinds::{LineKind, kind_of};
use std::alloc::{AllocError, Global};
use tsc_cover::{Row01, row_of};
use tsc_io::Items;
use tsc_text::{SectionLines, TextLine};

/// With what rows are read.
#[derive(Clone, Copy)]
pub struct Heading {
    /// The number of inputs.
    pub inputs: usize,
    /// The number of outputs.
    pub outputs: usize,
    /// Whether `-` leaves an output free.
    pub frees: bool,
}

/// A row: what it asks of the inputs, and two numbers with one bit per output, the first most significant.
#[derive(Clone, Copy)]
pub struct PlaRow {
    /// What it asks of the inputs.
    pub input: Row01,
    /// Which outputs it makes 1.
    pub ones: u64,
    /// Which outputs it leaves free.
    pub free: u64,
}

/// A mark that a row has at an output.
#[derive(Clone, Copy)]
pub enum Mark {
    /// It makes the output 1.
    One,
    /// It leaves the output free.
    Free,
}

/// The number that has a row's marks.
pub fn marks_in(row: &PlaRow, mark: Mark) -> u64
    ensures marks { result ≡ marks_in mark row.now }
{
    match mark {
        Mark::One => row.ones,
        Mark::Free => row.free,
    }
}

/// The row that the characters `0`, `1` and `-` stand for.
fn pattern(word: &[u8]) -> Row01
    requires room { length word.now ≤ 64 }
    requires read { is_row_text word.now ≡ true }
    ensures literals { literals (length word.now) result.care result.value ≡ literals_of_text word.now }
    ensures fit { IsRow (length word.now) result }
{
    row_of(word).unwrap()
}

/// A number with one more bit at its end.
fn with_bit(number: u64, bit: bool) -> u64
    requires room { number < 9223372036854775808 }
    ensures number { result ≡ number * 2 + weight_of bit }
{
    if bit { number * 2 + 1 } else { number * 2 }
}

/// Whether a character is this one, where that is read.
fn says(read: bool, mark: u8, character: u8) -> bool
    ensures says { result ≡ says read mark character }
{
    read && character == mark
}

/// The number whose bits tell where a word has a character; 0 where that isn't read.
fn marks_of(word: &[u8], read: bool, mark: u8) -> u64
    requires room { length word.now ≤ 64 }
    ensures bits { bits_of (length word.now) result ≡ map (says read mark) word.now }
{
    let mut number = 0;
    for character in word {
        number = with_bit(number, says(read, mark, *character));
    }
    number
}

/// A row of the table.
fn row_at(heading: Heading, line: &TextLine) -> PlaRow
    requires few_inputs { heading.inputs ≤ 64 }
    requires few_outputs { heading.outputs ≤ 64 }
    requires shape { has_row_shape heading.inputs heading.outputs line.now.words ≡ true }
    ensures row { row_as heading.inputs heading.outputs result ≡ row_at heading.frees line.now }
    ensures fit { IsRow heading.inputs result.input }
{
    let input = pattern(line.word(0));
    let marks = line.word(1);
    let ones = marks_of(marks, true, b'1');
    let free = marks_of(marks, heading.frees, b'-');
    PlaRow { input, ones, free }
}

/// Adds the row that a line is, if it is one.
fn add_row(rows: &mut Items<PlaRow>, heading: Heading, line: &TextLine) -> Result<(), AllocError>
    requires few_inputs { heading.inputs ≤ 64 }
    requires few_outputs { heading.outputs ≤ 64 }
    requires shape { is_of Row line.now ≡ true → has_row_shape heading.inputs heading.outputs line.now.words ≡ true }
    ensures rows { (before : List TextLine) → HasRows heading before rows.old → OnOk result (HasRows heading (before ++ line.now ∷ []) rows.new) }
{
    if kind_of(line) == LineKind::Row {
        rows.push(row_at(heading, line))?;
    }
    Ok(())
}

/// The rows of a section.
pub fn read_rows(
    alloc: Global,
    heading: Heading,
    section: &SectionLines,
) -> Result<Items<PlaRow>, AllocError>
    requires few_inputs { heading.inputs ≤ 64 }
    requires few_outputs { heading.outputs ≤ 64 }
    requires shaped { AreShaped heading.inputs heading.outputs section.now }
    ensures rows { IfOk result (HasRows heading section.now) }
{
    let mut rows = Items::new(alloc);
    for place in 0..section.len() {
        let line = section.line(place);
        add_row(&mut rows, heading, &line)?;
    }
    Ok(rows)
}
