//! The lines of a plan.
ghost use Rattle.std.specs.Prelude.{◌≡◌};
ghost use Rattle.tsc_text.specs.TextLine.{the_word};
ghost use Rattle.blif_read.specs.PlanLines.{has_any_shape, has_plan_shape, is_bits, is_code, is_version, plan_kind};

use crate::kinds::{is_word, word_or_empty};
use tsc_text::TextLine;

/// What a plan line is, by its first word.
#[derive(Clone, Copy)]
pub enum PlanKind {
    /// A version: the line names the code.
    CodeLine,
    /// `group`
    GroupLine,
    /// `check`
    CheckLine,
    /// `state`
    StateLine,
    /// `watch`
    WatchLine,
    /// Any other word.
    OtherLine,
}

/// Whether the word is a version.
fn is_version(word: &[u8]) -> bool
    ensures version { result ≡ is_version word.now }
{
    is_word(word, b"1") || is_word(word, b"2")
}

/// Whether the word names a code.
fn is_code(word: &[u8]) -> bool
    ensures code { result ≡ is_code word.now }
{
    is_word(word, b"parity") || is_word(word, b"berger") || is_word(word, b"mofn")
}

/// Whether the word has only the characters `0` and `1`.
fn is_bits(word: &[u8]) -> bool
    ensures bits { result ≡ is_bits word.now }
{
    word.iter()
        .all(|character| *character == b'0' || *character == b'1')
}

/// The kind of a plan line with this first word.
fn plan_kind(word: &[u8]) -> PlanKind
    ensures kind { result ≡ plan_kind word.now }
{
    if is_version(word) {
        PlanKind::CodeLine
    } else if is_word(word, b"group") {
        PlanKind::GroupLine
    } else if is_word(word, b"check") {
        PlanKind::CheckLine
    } else if is_word(word, b"state") {
        PlanKind::StateLine
    } else if is_word(word, b"watch") {
        PlanKind::WatchLine
    } else {
        PlanKind::OtherLine
    }
}

/// The kind of a plan line.
pub fn plan_kind_of(line: &TextLine) -> PlanKind
    ensures kind { result ≡ plan_kind (the_word line.now 0) }
{
    plan_kind(word_or_empty(line, 0))
}

/// Whether a plan line has its place and its words.
pub fn has_plan_shape(line: &TextLine, has_plan: bool) -> bool
    ensures shape { result ≡ has_plan_shape (plan_kind (the_word line.now 0)) has_plan line.now }
{
    match plan_kind_of(line) {
        PlanKind::CodeLine => !has_plan && line.words() == 2 && is_code(line.word(1)),
        PlanKind::GroupLine => has_plan && line.words() >= 3,
        PlanKind::CheckLine => has_plan && line.words() >= 2,
        PlanKind::StateLine => has_plan && line.words() == 2 && is_bits(line.word(1)),
        PlanKind::WatchLine | PlanKind::OtherLine => false,
    }
}

/// Whether a plan line has its place and its words, where something may be watched.
pub fn has_any_shape(line: &TextLine, has_plan: bool) -> bool
    ensures shape { result ≡ has_any_shape (plan_kind (the_word line.now 0)) has_plan line.now }
{
    match plan_kind_of(line) {
        PlanKind::WatchLine => has_plan && line.words() >= 3,
        _ => has_plan_shape(line, has_plan),
    }
}
