//! The lines of a section.
ghost use Rattle.std.specs.Prelude.{◌≡◌, ◌<◌, length};
ghost use Rattle.tsc_text.specs.Section.{section_lines, IsSectionOf};
ghost use Rattle.tsc_text.specs.TextLine.{the_line};

use crate::lines::Lines;
use crate::section::Section;
use crate::text_line::TextLine;
use std::marker::Model;
use tsc_io::TextKey;

/// The lines of a section of a text. It borrows the lines of the text.
#[derive(Drop)]
pub struct SectionLines<'a> {
    lines: &'a Lines<'a>,
    first: usize,
    past: usize,
}

impl<'a> Model for SectionLines<'a> {
    ghost use Rattle.std.specs.Prelude.{◌≤◌, List, length, slice_range};
    ghost use Rattle.tsc_text.specs.TextLine.{TextLine};

    ghost Value = { List TextLine };

    ghost view = { λ section. slice_range section.lines.now section.first section.past };

    ghost invariant = { λ section. (section.first ≤ section.past) × (section.past ≤ length section.lines.now) };
}

impl<'a> SectionLines<'a> {
    /// The lines of a section of these lines.
    pub fn of(lines: &'a Lines<'a>, section: Section) -> SectionLines<'a>
        requires section { IsSectionOf lines.now section }
        ensures lines { result ≡ section_lines lines.now section }
    {
        SectionLines {
            lines,
            first: section.first,
            past: section.past,
        }
    }

    /// The key of the text, for tables of the names in it.
    pub fn key(&self) -> TextKey {
        self.lines.key()
    }

    /// How many lines there are.
    pub fn len(&self) -> usize
        ensures count { result ≡ length self.now }
    {
        self.past - self.first
    }

    /// The line at a place, from 0.
    pub fn line(&self, place: usize) -> TextLine<'a>
        requires { place < length self.now }
        ensures line { result ≡ the_line self.now place }
    {
        // That the line's place in the text is a `usize` is known from here on.
        let _past = self.past;
        TextLine::of(self.lines, self.first + place)
    }
}
