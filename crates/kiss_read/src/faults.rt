//! Why a line is refused, after the lines before it.
ghost use Rattle.std.specs.Prelude.{◌≡◌, ◌<◌, ◌≤◌, ◌∷◌, [], length, take};
ghost use Rattle.tsc_text.specs.TextLine.{the_line};
ghost use Rattle.kiss_read.specs.Selections.{names_state, with_state};
ghost use Rattle.kiss_read.specs.RowText.{has_row_shape};
ghost use Rattle.kiss_read.specs.Faults.{directive_fault, fault_behind, reset_fault, row_fault, row_limit, states_limit};
ghost use Rattle.kiss_read.specs.Survey.{survey_of};

use crate::directives::has_line;
use crate::kinds::{LineKind, kind_of};
use crate::survey::Survey;
use table_lines::{
    Cause, MOST_ROWS, count_fault, is_long, is_pattern, is_word, long_name, read_fault,
    word_or_empty,
};
use tsc_net::NameTable;
use tsc_text::{SectionLines, TextLine, Which};

/// The greatest number of states.
const MOST_STATES: usize = 4096;

/// The fault of the line at a place after those before it, with the lowest number where it has several. It takes no memory.
pub fn fault_at(survey: &Survey, section: &SectionLines, place: usize) -> Option<Cause>
    requires place { place < length section.now }
    requires few { length survey.now.states ≤ 4096 }
    requires survey { survey.now ≡ survey_of (take place section.now) }
    ensures fault { result ≡ fault_behind (take place section.now) (the_line section.now place) }
{
    let line = section.line(place);
    let kind = kind_of(&line);
    match kind {
        LineKind::PlanLine => None,
        LineKind::OtherDirective => Some(Cause::Unsupported),
        LineKind::Row => row_fault(survey, &line),
        LineKind::Inputs
        | LineKind::Outputs
        | LineKind::Products
        | LineKind::StateCount
        | LineKind::Reset
        | LineKind::InputNames
        | LineKind::OutputNames => {
            if has_line(kind, section, place) {
                Some(Cause::Header)
            } else {
                directive_fault(kind, &line)
            }
        }
    }
}

/// The fault of a directive that didn't come before.
fn directive_fault(kind: LineKind, line: &TextLine) -> Option<Cause>
    ensures fault { result ≡ directive_fault kind line.now }
{
    match kind {
        LineKind::Inputs => count_fault(Which::Inputs, line),
        LineKind::Outputs => count_fault(Which::Outputs, line),
        LineKind::Products | LineKind::StateCount => read_fault(line),
        LineKind::Reset => reset_fault(line),
        LineKind::InputNames | LineKind::OutputNames => long_name(line),
        LineKind::PlanLine | LineKind::OtherDirective | LineKind::Row => None,
    }
}

/// The fault of a line of `.r`.
fn reset_fault(line: &TextLine) -> Option<Cause>
    ensures fault { result ≡ reset_fault line.now }
{
    if line.words() == 2 {
        long_name(line)
    } else {
        Some(Cause::Header)
    }
}

/// Whether a line is a row of a table with so many inputs and outputs.
#[tactic(auto, using(crate::proofs::RowShapes::row_of_four, crate::proofs::RowShapes::row_of_others))]
fn has_row_shape(inputs: usize, outputs: usize, line: &TextLine) -> bool
    ensures shape { result ≡ has_row_shape inputs outputs line.now.words }
{
    line.words() == 4
        && is_pattern(inputs, line.word(0))
        && is_pattern(outputs, line.word(3))
        && !is_word(line.word(1), b"-")
}

/// The fault of a row.
fn row_fault(survey: &Survey, line: &TextLine) -> Option<Cause>
    requires few { length survey.now.states ≤ 4096 }
    ensures fault { result ≡ row_fault survey.now.inputs survey.now.outputs survey.now.rows survey.now.states line.now }
{
    match survey.inputs {
        None => Some(Cause::Header),
        Some(inputs) => match survey.outputs {
            None => Some(Cause::Header),
            Some(outputs) => {
                if has_row_shape(inputs, outputs, line) {
                    row_limit(survey, line)
                } else {
                    Some(Cause::RowShape)
                }
            }
        },
    }
}

/// The limit that a row passes.
fn row_limit(survey: &Survey, line: &TextLine) -> Option<Cause>
    requires few { length survey.now.states ≤ 4096 }
    ensures limit { result ≡ row_limit survey.now.rows survey.now.states line.now }
{
    if survey.rows >= MOST_ROWS {
        return Some(Cause::Limit(Which::Rows));
    }
    let current = word_or_empty(line, 1);
    let next = word_or_empty(line, 2);
    states_limit(&survey.states, current, next)
}

/// The limit that the two states of a row pass.
fn states_limit(states: &NameTable, current: &[u8], next: &[u8]) -> Option<Cause>
    requires few { length states.now ≤ 4096 }
    ensures limit { result ≡ states_limit states.now (current.now ∷ next.now ∷ []) }
{
    if is_long(current) {
        return Some(Cause::Limit(Which::NameBytes));
    }
    if count_with(states, current) > MOST_STATES {
        return Some(Cause::Limit(Which::States));
    }
    if is_long(next) {
        return Some(Cause::Limit(Which::NameBytes));
    }
    if count_with_both(states, current, next) > MOST_STATES {
        return Some(Cause::Limit(Which::States));
    }
    None
}

/// Whether a word names a state, which `*` and `-` don't.
pub fn names_state(word: &[u8]) -> bool
    ensures names { result ≡ names_state word.now }
{
    !(is_word(word, b"*") || is_word(word, b"-"))
}

/// How many states there are with the one that a word names.
#[tactic(auto, using(crate::proofs::StateCounts::count_new, crate::proofs::StateCounts::count_old, crate::proofs::StateCounts::count_unnamed))]
fn count_with(states: &NameTable, word: &[u8]) -> usize
    requires few { length states.now ≤ 4096 }
    ensures count { result ≡ length (with_state states.now word.now) }
{
    if names_state(word) && states.find(word).is_none() {
        states.len() + 1
    } else {
        states.len()
    }
}

/// How many states there are with those that two words name.
#[tactic(auto, using(crate::proofs::StateCounts::count_new, crate::proofs::StateCounts::count_old))]
fn count_with_both(states: &NameTable, current: &[u8], next: &[u8]) -> usize
    requires few { length states.now ≤ 4096 }
    ensures count { result ≡ length (with_state (with_state states.now current.now) next.now) }
{
    let count = count_with(states, current);
    if is_word(current, next) {
        return count;
    }
    if names_state(next) && states.find(next).is_none() {
        count + 1
    } else {
        count
    }
}
