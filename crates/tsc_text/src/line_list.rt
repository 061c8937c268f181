//! The lines of a text, four bytes per line, and eight more where the numbers of lines jump.
ghost use Rattle.std.specs.Prelude.{◌≡◌, ◌^◌, ◌<◌, ◌≤◌, [], ◌∷◌, ◌++◌, length, IfOk, OnOk, OnErr};
ghost use Rattle.tsc_text.specs.Kept.{kept_from};
ghost use Rattle.tsc_text.specs.Row.{kept_line, the_kept};

use crate::jumps::{Jump, jump_at, number_behind, tell_number};
use crate::places::LineMark;
use std::alloc::{AllocError, Global};
use std::marker::Model;
use tsc_io::Items;

/// The lines of a text, in the order in which they were pushed.
///
/// A line's number is one more than that of the line before it, unless a jump says it.
#[derive(Drop)]
pub struct KeptLines {
    marks: Items<LineMark>,
    jumps: Items<Jump>,
}

impl Model for KeptLines {
    ghost use Rattle.std.specs.Prelude.{List};
    ghost use Rattle.tsc_text.specs.Row.{KeptLine};

    ghost Value = { List KeptLine };

    ghost use Rattle.tsc_text.specs.Jumps.{AreJumps, lines_of_marks};

    ghost view = { λ lines. lines_of_marks lines.jumps 0 lines.marks };

    ghost invariant = { λ lines. AreJumps lines.jumps lines.marks };
}

impl KeptLines {
    /// An empty list with room for `room` lines.
    ///
    /// # Errors
    ///
    /// Want of memory.
    pub fn with_room(alloc: Global, room: usize) -> Result<KeptLines, AllocError>
        ensures empty { IfOk result (λ lines. lines ≡ []) }
    {
        let marks = Items::with_room(alloc, room)?;
        let jumps = Items::new(alloc);
        Ok(KeptLines { marks, jumps })
    }

    /// How many lines there are.
    pub fn len(&self) -> usize
        ensures count { result ≡ length self.now }
    {
        self.marks.len()
    }

    /// The number of the line's first physical line, from 1.
    pub fn number(&self, line: usize) -> usize
        requires { line < length self.now }
        ensures number { result ≡ (the_kept self.now line).number }
    {
        number_behind(jump_at(self.jumps.as_slice(), line), line)
    }

    /// Whether the line is a plan line.
    pub fn is_plan(&self, line: usize) -> bool
        requires { line < length self.now }
        ensures plan { result ≡ (the_kept self.now line).mark.is_plan }
    {
        self.marks.get(line).is_plan()
    }

    /// Whether the line has one word more than kept places: one byte, one byte after the last of them.
    pub fn has_byte(&self, line: usize) -> bool
        requires { line < length self.now }
        ensures byte { result ≡ (the_kept self.now line).mark.has_byte }
    {
        self.marks.get(line).has_byte()
    }

    /// How many places the line and all lines before it keep.
    pub fn past(&self, line: usize) -> usize
        requires { line < length self.now }
        ensures past { result ≡ (the_kept self.now line).mark.past }
    {
        self.marks.get(line).past() as usize
    }

    /// How many places all lines before the line keep, or all lines where it is the one after the last.
    pub fn from(&self, line: usize) -> usize
        requires { line ≤ length self.now }
        ensures from { result ≡ kept_from 0 self.now line }
    {
        if line == 0 { 0 } else { self.past(line - 1) }
    }

    /// Adds a line at the end. Where memory is missing the list is unchanged.
    ///
    /// # Errors
    ///
    /// Want of memory.
    pub fn push(&mut self, number: u32, mark: LineMark) -> Result<(), AllocError>
        requires few { length self.old < 2 ^ 32 }
        ensures ok { OnOk result (self.new ≡ self.old ++ kept_line number mark ∷ []) }
        ensures err { OnErr result (self.new ≡ self.old) }
    {
        tell_number(&mut self.jumps, self.marks.len(), number)?;
        self.marks.push(mark)
    }
}
