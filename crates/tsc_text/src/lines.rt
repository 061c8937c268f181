//! The lines of a text.
ghost use Rattle.std.specs.Prelude.{◌≡◌, ◌^◌, ◌<◌, ◌≤◌, None, length, IfOk, IfErr, OnOk};
ghost use Rattle.tsc_text.specs.Bytes.{bad_line};
ghost use Rattle.tsc_text.specs.Lines.{lines_of};
ghost use Rattle.tsc_text.specs.Section.{end_of, is_end_line, is_end_word, section_of};
ghost use Rattle.tsc_text.specs.TextError.{Refuses};
ghost use Rattle.tsc_text.specs.TextLine.{the_line, the_word, word_count};

use crate::error::TextError;
use crate::line_table::LineTable;
use crate::reading::scan_text;
use crate::section::{End, Section};
use std::alloc::Global;
use std::marker::Model;
use tsc_io::{Bytes, TextKey};

/// All lines of a text that have a word.
///
/// It borrows the text and holds no copy of a word: the places of words (a line's last word of one byte is told from the one before it), and the key of the text.
#[derive(Drop)]
pub struct Lines<'a> {
    text: &'a Bytes,
    table: LineTable,
    key: TextKey,
}

impl<'a> Model for Lines<'a> {
    ghost use Rattle.std.specs.Prelude.{List};
    ghost use Rattle.tsc_text.specs.TextLine.{TextLine};

    ghost Value = { List TextLine };

    ghost use Rattle.tsc_text.specs.Places.{IsKept, lines_at};

    ghost view = { λ a. lines_at a.text.now a.table.places 0 a.table.rows };

    ghost invariant = { λ a. IsKept a.text.now a.table.places a.table.rows };
}

impl<'a> Lines<'a> {
    /// The lines of `text`, which has at most 67,108,864 bytes. Its bytes are counted first, so that room for words and lines is taken at once (longer words and jumps of numbers have lists that grow), and then read once.
    ///
    /// # Errors
    ///
    /// The first line with a byte that a text may not hold, or want of memory.
    pub fn of(alloc: Global, text: &'a Bytes) -> Result<Lines<'a>, TextError>
        requires short { length text.now ≤ 67108864 }
        ensures lines { IfOk result (λ lines. lines ≡ lines_of text.now) }
        ensures allowed { OnOk result (bad_line text.now ≡ None) }
        ensures refused { IfErr result (Refuses text.now) }
    {
        let bytes = text.as_slice();
        let scan = scan_text(alloc, bytes)?;
        Ok(Lines {
            text,
            table: scan.table,
            key: TextKey::of(bytes),
        })
    }

    /// The key of the text, for tables of the names in it.
    pub fn key(&self) -> TextKey {
        self.key
    }

    /// How many lines there are. All together they have fewer than 2^32 words.
    pub fn len(&self) -> usize
        ensures count { result ≡ length self.now }
        ensures words { word_count self.now < 2 ^ 32 }
    {
        self.table.len()
    }

    /// The number of the line's first physical line, from 1.
    pub fn number(&self, line: usize) -> usize
        requires { line < length self.now }
        ensures number { result ≡ (the_line self.now line).number }
    {
        self.table.number(line)
    }

    /// Whether the line is a plan line.
    pub fn is_plan(&self, line: usize) -> bool
        requires { line < length self.now }
        ensures plan { result ≡ (the_line self.now line).is_plan }
    {
        self.table.is_plan(line)
    }

    /// How many words the line has.
    pub fn words(&self, line: usize) -> usize
        requires { line < length self.now }
        ensures count { result ≡ length (the_line self.now line).words }
    {
        self.table.words(line)
    }

    /// A word of the line, by its place, from 0.
    pub fn word(&self, line: usize, place: usize) -> &[u8]
        requires line { line < length self.now }
        requires place { place < length (the_line self.now line).words }
        ensures word { result.now ≡ the_word (the_line self.now line) place }
    {
        let at = self.table.place(line, place);
        &self.text.as_slice()[at.start as usize..at.past as usize]
    }

    /// The section that begins at the line `from`.
    ///
    /// It runs up to the first line that is no plan line and begins with the word of `end`, or to the end of the text.
    pub fn section(&self, from: usize, end: End) -> Section
        requires { from ≤ length self.now }
        ensures section { result ≡ section_of self.now from end }
    {
        let past = self.end_from(from, end);
        let next = if past < self.len() { past + 1 } else { past };
        Section {
            first: from,
            past,
            next,
        }
    }

    /// The place of the first line from `from` on that ends a section, or after the last line.
    fn end_from(&self, from: usize, end: End) -> usize
        requires { from ≤ length self.now }
        ensures end { result ≡ end_of self.now from end }
    {
        for line in from..self.len() {
            if self.is_end(line, end) {
                return line;
            }
        }
        self.len()
    }

    /// Whether a line ends a section.
    fn is_end(&self, line: usize, end: End) -> bool
        requires { line < length self.now }
        ensures end { result ≡ is_end_line end (the_line self.now line) }
    {
        if self.is_plan(line) || self.words(line) == 0 {
            return false;
        }
        is_end_word(self.word(line, 0), end)
    }
}

/// Whether a line with this first word ends a section.
fn is_end_word(word: &[u8], end: End) -> bool
    ensures end { result ≡ is_end_word end word.now }
{
    match end {
        End::Blif => word == b".end".as_slice(),
        End::Kiss => word == b".e".as_slice() || word == b".end".as_slice(),
    }
}
