//! The kinds of the lines of a BLIF text.
ghost use Rattle.std.specs.Prelude.{◌≡◌};
ghost use Rattle.std.specs.Str.{bytes_eq};
ghost use Rattle.tsc_text.specs.TextLine.{the_word};
ghost use Rattle.blif_read.specs.LineKind.{kind_of, kind_of_word};

use tsc_text::{TextLine, begins_with_dot};

/// What a section is read as.
#[derive(Clone, Copy, Debug, PartialEq, Eq)]
pub enum Kind {
    /// A network without latches.
    Source,
    /// A network that may have registers.
    Registers,
    /// A netlist with its plan, which lists the states of its registers.
    Netlist,
    /// A netlist with its plan, which may list no states though there are registers.
    AnyPlan,
    /// A netlist without a plan: plan lines are passed over, and the limits are those of a netlist.
    Unplanned,
}

/// What a line is, by its first word.
#[derive(Clone, Copy)]
pub enum LineKind {
    /// A plan line.
    PlanLine,
    /// `.model`
    Model,
    /// `.inputs`
    Inputs,
    /// `.outputs`
    Outputs,
    /// `.names`
    Names,
    /// `.latch`
    Latch,
    /// Another word that begins with `.`
    OtherDirective,
    /// A row of a cover: any other word.
    Row,
}

/// Whether the word is this text.
pub fn is_word(word: &[u8], text: &[u8]) -> bool
    ensures same { result ≡ bytes_eq word.now text.now }
{
    word == text
}

/// The kind of a line with this first word that is no plan line.
fn kind_of_word(word: &[u8]) -> LineKind
    ensures kind { result ≡ kind_of_word word.now }
{
    if is_word(word, b".model") {
        LineKind::Model
    } else if is_word(word, b".inputs") {
        LineKind::Inputs
    } else if is_word(word, b".outputs") {
        LineKind::Outputs
    } else if is_word(word, b".names") {
        LineKind::Names
    } else if is_word(word, b".latch") {
        LineKind::Latch
    } else if begins_with_dot(word) {
        LineKind::OtherDirective
    } else {
        LineKind::Row
    }
}

/// A word of a line, empty where there is none.
pub fn word_or_empty<'a>(line: &'a TextLine, place: usize) -> &'a [u8]
    ensures word { result.now ≡ the_word line.now place }
{
    if place < line.words() {
        line.word(place)
    } else {
        b""
    }
}

/// The kind of a line.
pub fn kind_of(line: &TextLine) -> LineKind
    ensures kind { result ≡ kind_of line.now }
{
    if line.is_plan() {
        return LineKind::PlanLine;
    }
    kind_of_word(word_or_empty(line, 0))
}
