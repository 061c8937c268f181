//! The lines of a text and their words, by their places.
ghost use Rattle.std.specs.Prelude.{◌≡◌, ◌-◌, ◌+◌, ◌^◌, ◌<◌, ◌≤◌, length, IfOk, OnOk, slice_index_or};
ghost use Rattle.tsc_text.specs.Places.{from_of};
ghost use Rattle.tsc_text.specs.Row.{the_row};
ghost use Rattle.tsc_text.specs.Table.{no_lines, with_line, with_word};

use crate::last_byte::{is_byte_behind, keep_byte};
use crate::line_list::KeptLines;
use crate::place_list::WordPlaces;
use crate::places::{LineMark, Place, byte_behind};
use std::alloc::{AllocError, Global};
use std::marker::Model;

/// The lines of a text and their words, and the words of a line that has not ended.
///
/// A line's last word is not kept where it is one byte that stands one byte after the word before it: a bit of the line says so.
#[derive(Drop)]
pub struct LineTable {
    kept: WordPlaces,
    lines: KeptLines,
    /// Whether the line that has not ended has one word more than kept places.
    has_byte: bool,
}

impl Model for LineTable {
    ghost use Rattle.tsc_text.specs.Kept.{IsTable, places_of, rows_of};
    ghost use Rattle.tsc_text.specs.Table.{Table};

    ghost Value = { Table };

    ghost view = { λ table. record { places = places_of table.kept table.has_byte 0 table.lines; rows = rows_of 0 0 table.lines } };

    ghost invariant = { λ table. IsTable table.kept table.has_byte table.lines };
}

impl LineTable {
    /// No line, with room for so many words and lines.
    ///
    /// # Errors
    ///
    /// Want of memory.
    pub fn with_room(alloc: Global, words: usize, lines: usize) -> Result<LineTable, AllocError>
        ensures empty { IfOk result (λ table. table ≡ no_lines) }
    {
        let kept = WordPlaces::with_room(alloc, words)?;
        let lines = KeptLines::with_room(alloc, lines)?;
        Ok(LineTable {
            kept,
            lines,
            has_byte: false,
        })
    }

    /// Adds a word to the line that has not ended.
    ///
    /// # Errors
    ///
    /// Want of memory.
    pub fn push_word(&mut self, place: Place) -> Result<(), AllocError>
        requires rises { place.start < place.past }
        requires room { place.past ≤ 2 ^ 26 }
        requires few { length self.old.places < 2 ^ 26 }
        ensures ok { OnOk result (self.new ≡ with_word self.old place) }
    {
        keep_byte(&mut self.kept, self.has_byte)?;
        let from = self.lines.from(self.lines.len());
        self.has_byte = is_byte_behind(&self.kept, from, place);
        if self.has_byte {
            return Ok(());
        }
        self.kept.push(place)
    }

    /// Ends the line whose first physical line has this number, if it has a word.
    ///
    /// # Errors
    ///
    /// Want of memory.
    pub fn end_line(&mut self, number: u32, is_plan: bool) -> Result<(), AllocError>
        ensures ok { OnOk result (self.new ≡ with_line self.old number is_plan) }
    {
        let past = self.kept.len();
        if self.lines.from(self.lines.len()) < past {
            let mark = LineMark::new(is_plan, self.has_byte, past as u32);
            self.lines.push(number, mark)?;
            self.has_byte = false;
        }
        Ok(())
    }

    /// How many lines there are.
    pub fn len(&self) -> usize
        ensures count { result ≡ length self.now.rows }
    {
        self.lines.len()
    }

    /// The number of the line's first physical line, from 1.
    pub fn number(&self, line: usize) -> usize
        requires { line < length self.now.rows }
        ensures number { result ≡ (the_row self.now.rows line).number }
    {
        self.lines.number(line)
    }

    /// Whether the line is a plan line.
    pub fn is_plan(&self, line: usize) -> bool
        requires { line < length self.now.rows }
        ensures plan { result ≡ (the_row self.now.rows line).is_plan }
    {
        self.lines.is_plan(line)
    }

    /// How many words the line has.
    pub fn words(&self, line: usize) -> usize
        requires { line < length self.now.rows }
        ensures count { result ≡ (the_row self.now.rows line).past - from_of 0 self.now.rows line }
    {
        self.lines.past(line) - self.lines.from(line) + usize::from(self.lines.has_byte(line))
    }

    /// Where a word of the line stands, by its place, from 0.
    pub fn place(&self, line: usize, place: usize) -> Place
        requires line { line < length self.now.rows }
        requires place { place < (the_row self.now.rows line).past - from_of 0 self.now.rows line }
        ensures item { result ≡ slice_index_or self.now.places (from_of 0 self.now.rows line + place) result }
    {
        let from = self.lines.from(line);
        let past = self.lines.past(line);
        if from + place < past {
            self.kept.get(from + place)
        } else {
            byte_behind(self.kept.get(past - 1))
        }
    }
}
