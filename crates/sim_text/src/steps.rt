//! The step lines of a text.
ghost use Rattle.std.specs.Prelude.{◌≡◌, ◌<◌, ◌≤◌, [], Some, None, All, drop, length, map, slice_index_or, IfOk, IfErr, OnOk};
ghost use Rattle.std.specs.List.{list_all};
ghost use Rattle.tsc_text.specs.TextLine.{the_line};
ghost use Rattle.sim_text.specs.StepLines.{all_steps, bit_of, first_misshapen, is_bit, is_step_line, is_step_word};

use std::marker::Model;
use tsc_net::Bits;
use tsc_text::Lines;

/// The lines of a text from a place on, each of them a step's. Contracts see them as the input bits of the steps, one list per step.
#[derive(Drop)]
pub struct StepLines<'a> {
    lines: &'a Lines<'a>,
    from: usize,
    inputs: usize,
}

impl<'a> Model for StepLines<'a> {
    ghost use Rattle.std.specs.Prelude.{List, Bool, drop};
    ghost use Rattle.sim_text.specs.StepLines.{all_steps};

    ghost Value = { List (List Bool) };

    ghost view = { λ steps. all_steps steps.inputs (drop steps.from steps.lines.now) };

    ghost use Rattle.sim_text.specs.StepsView.{AreShaped};

    ghost invariant = { AreShaped };
}

impl<'a> StepLines<'a> {
    /// The step lines of a netlist with so many inputs: the lines from the place `from` on. It takes no memory.
    ///
    /// # Errors
    ///
    /// The number of the first of them that is no step's.
    pub fn of(lines: &'a Lines<'a>, from: usize, inputs: usize) -> Result<StepLines<'a>, usize>
        requires within { from ≤ length lines.now }
        ensures steps { IfOk result (λ steps. steps ≡ all_steps inputs (drop from lines.now)) }
        ensures sized { IfOk result (All (λ bits. length bits ≡ inputs)) }
        ensures shaped { OnOk result (first_misshapen inputs (drop from lines.now) ≡ None) }
        ensures misshapen { IfErr result (λ number. first_misshapen inputs (drop from lines.now) ≡ Some number) }
    {
        match first_misshapen(lines, from, inputs) {
            None => Ok(StepLines {
                lines,
                from,
                inputs,
            }),
            Some(number) => Err(number),
        }
    }

    /// How many steps there are.
    pub fn len(&self) -> usize
        ensures count { result ≡ length self.now }
    {
        self.lines.len() - self.from
    }

    /// Reads the input bits of a step, by its number from 0, into a list of as many bits. It takes no memory.
    pub fn read(&self, step: usize, bits: &mut Bits)
        requires step { step < length self.now }
        requires sized { length bits.old ≡ length (slice_index_or self.now step []) }
        ensures bits { bits.new ≡ slice_index_or self.now step [] }
    {
        // The step's line is one of the text's.
        let _lines = self.lines.len();
        if !bits.is_empty() {
            put_bits(bits, self.lines.word(self.from + step, 0));
        }
    }
}

/// Puts the bits of characters into a list of as many bits.
fn put_bits(bits: &mut Bits, word: &[u8])
    requires sized { length bits.old ≡ length word.now }
    ensures bits { bits.new ≡ map bit_of word.now }
{
    for place in 0..word.len() {
        bits.replace(place, bit_of(word[place]));
    }
}

/// The bit that a character is.
fn bit_of(character: u8) -> bool
    ensures bit { result ≡ bit_of character }
{
    character == b'1'
}

/// The number of the first line from the place `from` on that is no step's of so many inputs, if there is one.
fn first_misshapen(lines: &Lines, from: usize, inputs: usize) -> Option<usize>
    requires within { from ≤ length lines.now }
    ensures first { result ≡ first_misshapen inputs (drop from lines.now) }
{
    for line in from..lines.len() {
        if !is_step_line(lines, line, inputs) {
            return Some(lines.number(line));
        }
    }
    None
}

/// Whether a line is a step's of so many inputs.
fn is_step_line(lines: &Lines, line: usize, inputs: usize) -> bool
    requires line { line < length lines.now }
    ensures step { result ≡ is_step_line inputs (the_line lines.now line) }
{
    !lines.is_plan(line) && lines.words(line) == 1 && is_step_word(lines.word(line, 0), inputs)
}

/// Whether a word is a step's of so many inputs.
fn is_step_word(word: &[u8], inputs: usize) -> bool
    ensures step { result ≡ is_step_word inputs word.now }
{
    if inputs == 0 {
        word == b".".as_slice()
    } else {
        word.len() == inputs && are_bits(word)
    }
}

/// Whether each character is `0` or `1`.
fn are_bits(word: &[u8]) -> bool
    ensures bits { result ≡ list_all is_bit word.now }
{
    word.iter()
        .all(|character| *character == b'0' || *character == b'1')
}
