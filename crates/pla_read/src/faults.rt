//! Why a line is refused, after the lines before it.
ghost use Rattle.std.specs.Prelude.{◌≡◌, ◌<◌, length, take};
ghost use Rattle.std.specs.List.{list_all};
ghost use Rattle.tsc_text.specs.TextLine.{the_line};
ghost use Rattle.pla_read.specs.RowText.{are_marks, has_row_shape, is_mark};
ghost use Rattle.pla_read.specs.Faults.{directive_fault, fault_behind, row_fault, type_fault};
ghost use Rattle.pla_read.specs.Survey.{survey_of};

use crate::directives::has_line;
use crate::kinds::{LineKind, kind_of};
use crate::survey::Survey;
use table_lines::{Cause, MOST_ROWS, count_fault, is_pattern, is_word, long_name, read_fault};
use tsc_text::{SectionLines, TextLine, Which};

/// The fault of the line at a place after those before it, with the lowest number where it has several. It takes no memory.
pub fn fault_at(survey: &Survey, section: &SectionLines, place: usize) -> Option<Cause>
    requires place { place < length section.now }
    requires survey { survey.now ≡ survey_of (take place section.now) }
    ensures fault { result ≡ fault_behind (take place section.now) (the_line section.now place) }
{
    let line = section.line(place);
    let kind = kind_of(&line);
    match kind {
        LineKind::PlanLine => None,
        LineKind::OtherDirective => Some(Cause::Unsupported),
        LineKind::Row => row_fault(survey, &line),
        LineKind::Inputs
        | LineKind::Outputs
        | LineKind::Products
        | LineKind::CoverType
        | LineKind::InputNames
        | LineKind::OutputNames => {
            if has_line(kind, section, place) {
                Some(Cause::Header)
            } else {
                directive_fault(kind, &line)
            }
        }
    }
}

/// The fault of a directive that didn't come before.
fn directive_fault(kind: LineKind, line: &TextLine) -> Option<Cause>
    ensures fault { result ≡ directive_fault kind line.now }
{
    match kind {
        LineKind::Inputs => count_fault(Which::Inputs, line),
        LineKind::Outputs => count_fault(Which::Outputs, line),
        LineKind::Products => read_fault(line),
        LineKind::CoverType => type_fault(line),
        LineKind::InputNames | LineKind::OutputNames => long_name(line),
        LineKind::PlanLine | LineKind::OtherDirective | LineKind::Row => None,
    }
}

/// The fault of a line of `.type`.
fn type_fault(line: &TextLine) -> Option<Cause>
    ensures fault { result ≡ type_fault line.now }
{
    if line.words() != 2 {
        return Some(Cause::Header);
    }
    let word = line.word(1);
    if is_word(word, b"f") || is_word(word, b"fd") {
        None
    } else {
        Some(Cause::Unsupported)
    }
}

/// Whether all characters are `0`, `1`, `-` or `~`.
fn all_marks(word: &[u8]) -> bool
    ensures marks { result ≡ list_all is_mark word.now }
{
    word.iter().all(|character| *character == b'0'
        || *character == b'1'
        || *character == b'-'
        || *character == b'~')
}

/// Whether a word has so many characters, each `0`, `1`, `-` or `~`.
fn are_marks(width: usize, word: &[u8]) -> bool
    ensures marks { result ≡ are_marks width word.now }
{
    word.len() == width && all_marks(word)
}

/// Whether a line is a row of a table with so many inputs and outputs.
#[tactic(auto, using(crate::proofs::RowShapes::row_of_two, crate::proofs::RowShapes::row_of_others))]
fn has_row_shape(inputs: usize, outputs: usize, line: &TextLine) -> bool
    ensures shape { result ≡ has_row_shape inputs outputs line.now.words }
{
    line.words() == 2 && is_pattern(inputs, line.word(0)) && are_marks(outputs, line.word(1))
}

/// The fault of a row.
fn row_fault(survey: &Survey, line: &TextLine) -> Option<Cause>
    ensures fault { result ≡ row_fault survey.now.inputs survey.now.outputs survey.now.rows line.now }
{
    match survey.inputs {
        None => Some(Cause::Header),
        Some(inputs) => match survey.outputs {
            None => Some(Cause::Header),
            Some(outputs) => {
                if !has_row_shape(inputs, outputs, line) {
                    Some(Cause::RowShape)
                } else if survey.rows >= MOST_ROWS {
                    Some(Cause::Limit(Which::Rows))
                } else {
                    None
                }
            }
        },
    }
}
