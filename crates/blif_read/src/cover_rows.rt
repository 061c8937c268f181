//! The cover that the rows of a text state.
ghost use Rattle.std.specs.Prelude.{◌≡◌, ◌≤◌, length, drop, true, IfOk};
ghost use Rattle.tsc_cover.specs.Cover.{literals};
ghost use Rattle.tsc_cover.specs.Row.{IsRow};
ghost use Rattle.tsc_cover.specs.Text.{literals_of_text};
ghost use Rattle.blif_read.specs.Rows.{cover_with, has_row_shape, input_of, is_on_set, rows_of};
ghost use Rattle.blif_read.specs.Clean.{AreShaped};

use crate::kinds::{LineKind, kind_of};
use crate::seen::row_output;
use std::alloc::{AllocError, Global};
use tsc_cover::{Cover, Row01, row_of};
use tsc_text::{SectionLines, TextLine};

/// The cover whose rows are those of the lines of a section from `from` on, up to the first directive.
#[tactic(auto, using(crate::proofs::RowWalk::rows_here, crate::proofs::RowWalk::rows_passed, crate::proofs::RowWalk::rows_closed, crate::proofs::RowWalk::rows_end))]
pub fn cover_at(
    alloc: Global,
    width: usize,
    section: &SectionLines,
    from: usize,
) -> Result<Cover, AllocError>
    requires from { from ≤ length section.now }
    requires wide { width ≤ 64 }
    requires shaped { AreShaped width (rows_of (drop from section.now)) }
    ensures cover { IfOk result (λ c. c ≡ cover_with width (rows_of (drop from section.now))) }
{
    let on = is_on_set(section, from);
    let mut cover = Cover::with_capacity(alloc, width, on, row_count(section, from))?;
    for place in from..section.len() {
        let line = section.line(place);
        match kind_of(&line) {
            LineKind::PlanLine => {}
            LineKind::Row => cover.push_row(row_at(width, &line))?,
            _ => return Ok(cover),
        }
    }
    Ok(cover)
}

/// How many rows stand in a section from `from` on, up to the first directive.
#[tactic(auto, using(crate::proofs::RowWalk::rows_here, crate::proofs::RowWalk::rows_passed, crate::proofs::RowWalk::rows_closed, crate::proofs::RowWalk::rows_end))]
fn row_count(section: &SectionLines, from: usize) -> usize
    requires from { from ≤ length section.now }
    ensures count { result ≡ length (rows_of (drop from section.now)) }
{
    let mut count: usize = 0;
    for place in from..section.len() {
        let line = section.line(place);
        match kind_of(&line) {
            LineKind::PlanLine => {}
            LineKind::Row => count += 1,
            _ => return count,
        }
    }
    count
}

/// Whether the rows of a section from `from` on, up to the first directive, are an on-set.
#[tactic(auto, using(crate::proofs::RowWalk::rows_here, crate::proofs::RowWalk::rows_passed, crate::proofs::RowWalk::rows_closed, crate::proofs::RowWalk::rows_end))]
fn is_on_set(section: &SectionLines, from: usize) -> bool
    requires from { from ≤ length section.now }
    ensures on { result ≡ is_on_set (rows_of (drop from section.now)) }
{
    for place in from..section.len() {
        let line = section.line(place);
        match kind_of(&line) {
            LineKind::PlanLine => {}
            LineKind::Row => return row_output(&line),
            _ => return true,
        }
    }
    true
}

/// A row of a cover with that many pins.
fn row_at(width: usize, line: &TextLine) -> Row01
    requires wide { width ≤ 64 }
    requires shape { has_row_shape width line.now.words ≡ true }
    ensures literals { literals width result.care result.value ≡ literals_of_text (input_of line.now.words) }
    ensures fit { IsRow width result }
{
    if width == 0 {
        return Row01 { care: 0, value: 0 };
    }
    row_of(line.word(0)).unwrap()
}
