//! The first line of a kind.
ghost use Rattle.std.specs.Prelude.{◌≡◌, ◌≤◌, length, take};
ghost use Rattle.kiss_read.specs.Selections.{has_line, line_of};

use crate::kinds::{LineKind, kind_of};
use tsc_text::{SectionLines, TextLine};

/// The first line of a kind before the place `past`.
#[tactic(auto, using(crate::proofs::LineSearch::line_here, crate::proofs::LineSearch::line_later, crate::proofs::LineSearch::line_end))]
fn line_before<'a>(kind: LineKind, section: &SectionLines<'a>, past: usize) -> Option<TextLine<'a>>
    requires within { past ≤ length section.now }
    ensures found { result ≡ line_of kind (take past section.now) }
{
    for place in 0..past {
        let line = section.line(place);
        if kind_of(&line) == kind {
            return Some(line);
        }
    }
    None
}

/// The first line of a kind.
pub fn line_of<'a>(kind: LineKind, section: &SectionLines<'a>) -> Option<TextLine<'a>>
    ensures found { result ≡ line_of kind section.now }
{
    line_before(kind, section, section.len())
}

/// Whether a line of the kind stands before the place `past`.
pub fn has_line(kind: LineKind, section: &SectionLines, past: usize) -> bool
    requires within { past ≤ length section.now }
    ensures has { result ≡ has_line kind (take past section.now) }
{
    line_before(kind, section, past).is_some()
}
