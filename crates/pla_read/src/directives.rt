//! The first line of a kind, and the last line.
ghost use Rattle.std.specs.Prelude.{◌≡◌, ◌≤◌, length, take};
ghost use Rattle.pla_read.specs.Refusal.{last_number};
ghost use Rattle.pla_read.specs.Selections.{has_line, line_of};

use crate::kinds::{LineKind, kind_of};
use tsc_text::{SectionLines, TextLine};

/// The first line of a kind before the place `past`.
#[tactic(auto, using(crate::proofs::LineSearch::line_here, crate::proofs::LineSearch::line_later, crate::proofs::LineSearch::line_end))]
fn line_before<'a>(kind: LineKind, section: &SectionLines<'a>, past: usize) -> Option<TextLine<'a>>
    requires within { past ≤ length section.now }
    ensures found { result ≡ line_of kind (take past section.now) }
{
    for place in 0..past {
        let line = section.line(place);
        if kind_of(&line) == kind {
            return Some(line);
        }
    }
    None
}

/// The first line of a kind.
pub fn line_of<'a>(kind: LineKind, section: &SectionLines<'a>) -> Option<TextLine<'a>>
    ensures found { result ≡ line_of kind section.now }
{
    line_before(kind, section, section.len())
}

/// Whether a line of the kind stands before the place `past`.
pub fn has_line(kind: LineKind, section: &SectionLines, past: usize) -> bool
    requires within { past ≤ length section.now }
    ensures has { result ≡ has_line kind (take past section.now) }
{
    line_before(kind, section, past).is_some()
}

/// The number of the last line that is no plan line; 1 where there is none.
#[tactic(auto, using(crate::proofs::LineSearch::last_plan, crate::proofs::LineSearch::last_other, crate::proofs::LineSearch::last_end))]
pub fn last_number(section: &SectionLines) -> usize
    ensures last { result ≡ last_number section.now }
{
    let mut last = 1;
    for place in 0..section.len() {
        let line = section.line(place);
        if !line.is_plan() {
            last = line.number();
        }
    }
    last
}
