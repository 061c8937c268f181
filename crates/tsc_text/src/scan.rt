//! The reading of a text, byte by byte.

ghost use Rattle.std.specs.Prelude.{◌≡◌, ◌+◌, ◌^◌, ◌<◌, ◌≤◌, length, IfOk, OnOk};
ghost use Rattle.tsc_text.specs.Scan.{IsWithin, at_start, behind_return, behind_slash, feed, finish, in_line, in_plan, in_words, next_joined, next_line, row_ended, step, word_ended};

use crate::byte::is_blank_byte;
use crate::line_table::LineTable;
use crate::mode::{Mode, matched};
use crate::places::Place;
use std::alloc::{AllocError, Global};

/// What is read of a text.
#[derive(Drop)]
pub struct Scan {
    /// The words, and the lines that ended.
    pub table: LineTable,
    /// The number of the physical line.
    pub number: u32,
    /// The number of the open line's first physical line.
    pub first: u32,
    /// Where the open word begins.
    pub start: u32,
    /// What stands before the next byte in its physical line.
    pub mode: Mode,
}

impl Scan {
    /// Before the first byte, with room for so many words and lines.
    pub fn with_room(alloc: Global, words: usize, lines: usize) -> Result<Scan, AllocError>
        ensures start { IfOk result (λ scan. scan ≡ at_start) }
    {
        let table = LineTable::with_room(alloc, words, lines)?;
        Ok(Scan {
            table,
            number: 1,
            first: 1,
            start: 0,
            mode: Mode::Fresh,
        })
    }

    /// Ends the open word before `past`.
    fn end_word(&mut self, past: u32) -> Result<(), AllocError>
        requires room { past ≤ 2 ^ 26 }
        requires few { length self.old.table.places < 2 ^ 26 }
        ensures ended { OnOk result (self.new ≡ word_ended self.old past) }
    {
        if self.start < past {
            self.table.push_word(Place {
                start: self.start,
                past,
            })?;
        }
        Ok(())
    }

    /// Ends the open line.
    fn end_row(&mut self, is_plan: bool) -> Result<(), AllocError>
        ensures ended { OnOk result (self.new ≡ row_ended self.old is_plan) }
    {
        self.table.end_line(self.first, is_plan)
    }

    /// Begins the next physical line after the LF at `at`, and with it a line.
    fn begin_line(&mut self, at: u32)
        requires room { at + 1 < 2 ^ 32 }
        requires count { self.old.number + 1 < 2 ^ 32 }
        ensures begun { self.new ≡ next_line self.old at }
    {
        self.number += 1;
        self.first = self.number;
        self.start = at + 1;
        self.mode = Mode::Fresh;
    }

    /// Begins the next physical line after the LF at `at`, and joins it to the open line.
    fn join_line(&mut self, at: u32)
        requires room { at + 1 < 2 ^ 32 }
        requires count { self.old.number + 1 < 2 ^ 32 }
        ensures begun { self.new ≡ next_joined self.old at }
    {
        self.number += 1;
        self.start = at + 1;
        self.mode = Mode::Words;
    }

    /// The LF at `at`.
    fn feed(&mut self, at: u32) -> Result<(), AllocError>
        requires room { at ≤ 2 ^ 26 }
        requires within { IsWithin self.old at }
        ensures read { OnOk result (self.new ≡ feed self.old at) }
    {
        match self.mode {
            Mode::Fresh | Mode::Hash | Mode::HashT | Mode::HashTs | Mode::HashTsc | Mode::Comment =>
                {
                    self.end_row(false)?;
                    self.begin_line(at);
                }
            Mode::Plan => {
                self.end_word(at)?;
                self.end_row(true)?;
                self.begin_line(at);
            }
            Mode::Words => {
                self.end_word(at)?;
                self.end_row(false)?;
                self.begin_line(at);
            }
            Mode::Slash => {
                self.end_word(at.saturating_sub(1))?;
                self.join_line(at);
            }
            Mode::SlashReturn => {
                self.end_word(at.saturating_sub(2))?;
                self.join_line(at);
            }
            Mode::CommentJoined => self.join_line(at),
        }
        Ok(())
    }

    /// The byte at `at`, of a line that is no plan line.
    fn in_words(&mut self, at: u32, byte: u8) -> Result<(), AllocError>
        requires room { at < 2 ^ 26 }
        requires few { length self.old.table.places < 2 ^ 26 }
        ensures read { OnOk result (self.new ≡ in_words self.old at byte) }
    {
        if byte == b'#' {
            self.end_word(at)?;
            self.mode = Mode::Comment;
        } else if byte == b'\\' {
            self.mode = Mode::Slash;
        } else {
            if is_blank_byte(byte) {
                self.end_word(at)?;
                self.start = at + 1;
            }
            self.mode = Mode::Words;
        }
        Ok(())
    }

    /// The byte at `at`, of a plan line.
    fn in_plan(&mut self, at: u32, byte: u8) -> Result<(), AllocError>
        requires room { at < 2 ^ 26 }
        requires few { length self.old.table.places < 2 ^ 26 }
        ensures read { OnOk result (self.new ≡ in_plan self.old at byte) }
    {
        if is_blank_byte(byte) {
            self.end_word(at)?;
            self.start = at + 1;
        }
        Ok(())
    }

    /// The byte at `at`, after a `\`.
    fn behind_slash(&mut self, at: u32, byte: u8) -> Result<(), AllocError>
        requires room { at < 2 ^ 26 }
        requires few { length self.old.table.places < 2 ^ 26 }
        ensures read { OnOk result (self.new ≡ behind_slash self.old at byte) }
    {
        if byte == b'#' {
            self.end_word(at.saturating_sub(1))?;
            self.mode = Mode::CommentJoined;
            return Ok(());
        }
        if byte == b'\r' {
            self.mode = Mode::SlashReturn;
            return Ok(());
        }
        self.in_words(at, byte)
    }

    /// The byte at `at`, after a `\` and a CR.
    fn behind_return(&mut self, at: u32, byte: u8) -> Result<(), AllocError>
        requires room { at < 2 ^ 26 }
        requires few { length self.old.table.places + 1 < 2 ^ 26 }
        ensures read { OnOk result (self.new ≡ behind_return self.old at byte) }
    {
        self.end_word(at.saturating_sub(1))?;
        self.start = at;
        self.in_words(at, byte)
    }

    /// The byte at `at`, which is no LF.
    fn in_line(&mut self, at: u32, byte: u8) -> Result<(), AllocError>
        requires room { at < 2 ^ 26 }
        requires within { IsWithin self.old at }
        ensures read { OnOk result (self.new ≡ in_line self.old at byte) }
    {
        match self.mode {
            Mode::Fresh => {
                if byte == b'#' {
                    self.mode = Mode::Hash;
                } else {
                    self.in_words(at, byte)?;
                }
            }
            Mode::Hash => self.mode = matched(byte == b't', Mode::HashT),
            Mode::HashT => self.mode = matched(byte == b's', Mode::HashTs),
            Mode::HashTs => self.mode = matched(byte == b'c', Mode::HashTsc),
            Mode::HashTsc => {
                self.start = at + 1;
                self.mode = matched(byte == b' ', Mode::Plan);
            }
            Mode::Plan => self.in_plan(at, byte)?,
            Mode::Words => self.in_words(at, byte)?,
            Mode::Slash => self.behind_slash(at, byte)?,
            Mode::SlashReturn => self.behind_return(at, byte)?,
            Mode::Comment | Mode::CommentJoined => {}
        }
        Ok(())
    }

    /// The byte at `at`.
    pub fn step(&mut self, at: u32, byte: u8) -> Result<(), AllocError>
        requires room { at < 2 ^ 26 }
        requires within { IsWithin self.old at }
        ensures read { OnOk result (self.new ≡ step self.old at byte) }
    {
        if byte == b'\n' {
            self.feed(at)
        } else {
            self.in_line(at, byte)
        }
    }

    /// The end of the text, at `at`.
    #[tactic(auto, using(crate::proofs::Within::finish_few))]
    pub fn finish(&mut self, at: u32) -> Result<(), AllocError>
        requires room { at ≤ 2 ^ 26 }
        requires within { IsWithin self.old at }
        ensures read { OnOk result (self.new ≡ finish self.old at) }
        ensures few { OnOk result (length self.new.table.places ≤ at + 1) }
    {
        self.feed(at)?;
        self.end_row(false)
    }
}
