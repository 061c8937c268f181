//! The kinds of the lines of a KISS2 text.
ghost use Rattle.std.specs.Prelude.{◌≡◌};
ghost use Rattle.kiss_read.specs.LineKind.{kind_of, kind_of_word};

use table_lines::{is_word, word_or_empty};
use tsc_text::{TextLine, begins_with_dot};

/// What a line is, by its first word.
#[derive(Clone, Copy, PartialEq, Eq)]
pub enum LineKind {
    /// A plan line.
    PlanLine,
    /// `.i`
    Inputs,
    /// `.o`
    Outputs,
    /// `.p`
    Products,
    /// `.s`
    StateCount,
    /// `.r`
    Reset,
    /// `.ilb`
    InputNames,
    /// `.ob`
    OutputNames,
    /// Another word that begins with `.`
    OtherDirective,
    /// A row of the table: any other word.
    Row,
}

/// The kind of a line with this first word that is no plan line.
fn kind_of_word(word: &[u8]) -> LineKind
    ensures kind { result ≡ kind_of_word word.now }
{
    if is_word(word, b".i") {
        LineKind::Inputs
    } else if is_word(word, b".o") {
        LineKind::Outputs
    } else if is_word(word, b".p") {
        LineKind::Products
    } else if is_word(word, b".s") {
        LineKind::StateCount
    } else if is_word(word, b".r") {
        LineKind::Reset
    } else if is_word(word, b".ilb") {
        LineKind::InputNames
    } else if is_word(word, b".ob") {
        LineKind::OutputNames
    } else if begins_with_dot(word) {
        LineKind::OtherDirective
    } else {
        LineKind::Row
    }
}

/// The kind of a line.
pub fn kind_of(line: &TextLine) -> LineKind
    ensures kind { result ≡ kind_of line.now }
{
    if line.is_plan() {
        return LineKind::PlanLine;
    }
    kind_of_word(word_or_empty(line, 0))
}
