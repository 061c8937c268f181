//! A line of a text.
ghost use Rattle.std.specs.Prelude.{◌≡◌, ◌<◌, length};
ghost use Rattle.tsc_text.specs.TextLine.{the_line, the_word};

use crate::lines::Lines;
use std::marker::Model;

/// A line of a text. It borrows the lines of the text.
#[derive(Drop)]
pub struct TextLine<'a> {
    lines: &'a Lines<'a>,
    at: usize,
}

impl<'a> Model for TextLine<'a> {
    ghost use Rattle.std.specs.Prelude.{◌<◌, length};
    ghost use Rattle.tsc_text.specs.TextLine.{TextLine, the_line};

    ghost Value = { TextLine };

    ghost view = { λ line. the_line line.lines.now line.at };

    ghost invariant = { λ line. line.at < length line.lines.now };
}

impl<'a> TextLine<'a> {
    /// The line at a place of the text.
    pub(crate) fn of(lines: &'a Lines<'a>, at: usize) -> TextLine<'a>
        requires { at < length lines.now }
        ensures line { result ≡ the_line lines.now at }
    {
        TextLine { lines, at }
    }

    /// The number of its first physical line, from 1.
    pub fn number(&self) -> usize
        ensures number { result ≡ self.now.number }
    {
        self.lines.number(self.at)
    }

    /// Whether it is a plan line.
    pub fn is_plan(&self) -> bool
        ensures plan { result ≡ self.now.is_plan }
    {
        self.lines.is_plan(self.at)
    }

    /// How many words it has.
    pub fn words(&self) -> usize
        ensures count { result ≡ length self.now.words }
    {
        self.lines.words(self.at)
    }

    /// A word, by its place, from 0.
    pub fn word(&self, place: usize) -> &[u8]
        requires { place < length self.now.words }
        ensures word { result.now ≡ the_word self.now place }
    {
        self.lines.word(self.at, place)
    }
}
