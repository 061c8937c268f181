//! Whether latches of two netlists have different clocks.
ghost use Rattle.std.specs.Prelude.{◌≡◌, ◌<◌, ◌≤◌, ◌+◌, [], ◌∷◌, drop, length, IfSome, MatchOption};
ghost use Rattle.tsc_text.specs.TextLine.{the_line, the_word};
ghost use Rattle.blif_read.specs.Clocks.{has_clock};
ghost use Rattle.mapping_answers.specs.MappedClocks.{has_other_clock, has_same_clock, is_latch_line, is_other_clock, latch_lines, lines_have_other_clock};

use text_sections::behind_first;
use tsc_text::{End, Lines, SectionLines, TextLine};

/// A word of a line, empty where there is none.
fn word_or_empty<'a>(line: &'a TextLine, place: usize) -> &'a [u8]
    ensures word { result.now ≡ the_word line.now place }
{
    if place < line.words() {
        line.word(place)
    } else {
        b""
    }
}

/// Whether the line is that of a latch.
#[tactic(auto, using(crate::proofs::ClockLemmas::latch_word))]
fn is_latch_line(line: &TextLine) -> bool
    ensures latch { result ≡ is_latch_line line.now }
{
    !line.is_plan() && word_or_empty(line, 0) == b".latch".as_slice()
}

/// Whether the line of a latch has a type and a control.
fn has_clock(line: &TextLine) -> bool
    ensures clock { result ≡ has_clock line.now }
{
    line.words() >= 5
}

/// Whether the lines of two latches have the same type, and the same control by name.
fn has_same_clock(line: &TextLine, other: &TextLine) -> bool
    ensures same { result ≡ has_same_clock line.now other.now }
{
    word_or_empty(line, 3) == word_or_empty(other, 3)
        && word_or_empty(line, 4) == word_or_empty(other, 4)
}

/// Whether the lines of two latches both have a type and a control, and these differ.
fn is_other_clock(line: &TextLine, other: &TextLine) -> bool
    ensures other { result ≡ is_other_clock line.now other.now }
{
    has_clock(line) && has_clock(other) && !has_same_clock(line, other)
}

/// The place of the first line of a latch from the place `from` on, if there is one.
#[tactic(auto, using(crate::proofs::ClockLemmas::latch_here, crate::proofs::ClockLemmas::latch_later, crate::proofs::ClockLemmas::latch_end))]
fn latch_from(section: &SectionLines, from: usize) -> Option<usize>
    ensures first { MatchOption result (latch_lines (drop from section.now) ≡ []) (λ at. latch_lines (drop from section.now) ≡ the_line section.now at ∷ latch_lines (drop (at + 1) section.now)) }
    ensures within { IfSome result (λ at. at < length section.now) }
{
    for place in from..section.len() {
        if is_latch_line(&section.line(place)) {
            return Some(place);
        }
    }
    None
}

/// Whether some latch of the first section and the latch of the second one at its place have different clocks. It takes no memory, and
/// time linear in both.
fn has_other_clock(lines: &SectionLines, others: &SectionLines) -> bool
    ensures other { result ≡ has_other_clock lines.now others.now }
{
    // That a place among the second lines is a `usize` is known from here on.
    let _count = others.len();
    let mut from = 0;
    for place in 0..lines.len() {
        let line = lines.line(place);
        if is_latch_line(&line) {
            match latch_from(others, from) {
                None => return false,
                Some(at) => {
                    if is_other_clock(&line, &others.line(at)) {
                        return true;
                    }
                    from = at + 1;
                }
            }
        }
    }
    false
}

/// Whether some latch of the netlist that the lines begin with and the latch of the mapped one after it at its place have different
/// clocks.
pub fn lines_have_other_clock(lines: &Lines) -> bool
    ensures other { result ≡ lines_have_other_clock lines.now }
{
    let first = SectionLines::of(lines, lines.section(0, End::Blif));
    let second = SectionLines::of(lines, lines.section(behind_first(lines), End::Blif));
    has_other_clock(&first, &second)
}
