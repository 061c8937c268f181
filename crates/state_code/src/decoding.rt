//! Decoding of state words.
ghost use Rattle.std.specs.Prelude.{◌≡◌, ◌+◌, ◌*◌, ◌^◌, ◌<◌, ◌≤◌, ◌&&◌, not, ◌||◌, true, map, length, IfOk};
ghost use Rattle.tsc_bits.specs.Bits.{bit_worth, bits_of};
ghost use Rattle.gate_net.specs.Gates.{IsLine, AreLines, line_value, line_values};
ghost use Rattle.gate_net.specs.Growth.{Grows, added_gates, Computes, ComputesAll};
ghost use Rattle.gate_net.specs.Joined.{value_or, IsLineOrNone, ComputesOr};
ghost use Rattle.gate_net.specs.Negations.{is_negation, HasNo};
ghost use Rattle.state_code.specs.Lines.{GrowsWithout, foreign_to_decode, first_bits, has_ones, decoded};

use crate::growing::{add, both};
use crate::words::StateCode;
use gate_net::{Gate, Gates, Line, LineList};
use std::alloc::{AllocError, Global};
use tsc_cover::bit_at;

/// Adds the line of each of the first bits of the state.
#[tactic(auto, using(crate::proofs::Without::without_none))]
fn state_lines(alloc: Global, gates: &mut Gates, bits: usize) -> Result<LineList, AllocError>
    requires bits { bits ≤ gates.old.states }
    requires room { length gates.old.gates + bits < 2 ^ 32 }
    ensures lines { IfOk result (λ lines. ComputesAll gates.old gates.new (λ x s. first_bits bits s) lines) }
    ensures count { IfOk result (λ lines. length lines ≡ bits) }
    ensures grown { GrowsWithout foreign_to_decode gates.old gates.new }
    ensures few { length gates.new.gates ≤ length gates.old.gates + bits }
{
    let mut lines = LineList::new(alloc);
    for i in 0..bits {
        let line = add(gates, Gate::State { i })?;
        lines.push(line)?;
    }
    Ok(lines)
}

/// The line that is 1 where another one is, if there is another one, and a bit's line, if the bit is 1 in the word; none where
/// nothing is asked yet. The bit is that which is worth `2^place`.
#[tactic(auto, using(crate::proofs::Without::without_none))]
fn with_bit(
    gates: &mut Gates,
    made: Option<Line>,
    word: u64,
    place: usize,
    bit: Line,
) -> Result<Option<Line>, AllocError>
    requires made { IsLineOrNone gates.old made }
    requires bit { IsLine gates.old bit }
    requires below { place < 64 }
    requires room { length gates.old.gates + 1 < 2 ^ 32 }
    ensures computes { IfOk result (ComputesOr true gates.old gates.new (λ x s. value_or true gates.old x s made && (not (bit_worth place word) || line_value gates.old x s bit))) }
    ensures grown { GrowsWithout foreign_to_decode gates.old gates.new }
    ensures few { length gates.new.gates ≤ length gates.old.gates + 1 }
{
    if !bit_at(word, place) {
        return Ok(made);
    }
    let line = both(gates, made, bit)?;
    Ok(Some(line))
}

/// Adds the line that is 1 where all bits are 1 that are 1 in a word.
#[tactic(auto, using(crate::proofs::Without::without_none, crate::proofs::Decoded::word_done))]
fn word_line(gates: &mut Gates, word: u64, width: usize, bits: &[Line]) -> Result<Line, AllocError>
    requires bits { AreLines gates.old bits.now }
    requires sized { length bits.now ≡ width }
    requires wide { width ≤ 64 }
    requires room { length gates.old.gates + (width + 1) < 2 ^ 32 }
    ensures computes { IfOk result (Computes gates.old gates.new (λ x s. has_ones (bits_of width word) (line_values gates.old x s bits.now))) }
    ensures grown { GrowsWithout foreign_to_decode gates.old gates.new }
    ensures few { length gates.new.gates ≤ length gates.old.gates + (width + 1) }
{
    let mut made = None;
    for place in 0..width {
        made = with_bit(gates, made, word, width - 1 - place, bits[place])?;
    }
    match made {
        Some(line) => Ok(line),
        None => add(gates, Gate::One),
    }
}

/// Adds the line of each word.
#[tactic(auto, using(crate::proofs::Without::without_none, crate::proofs::Decoded::times_more, crate::proofs::Decoded::times_mono))]
fn word_lines(
    alloc: Global,
    gates: &mut Gates,
    words: &[u64],
    bits: &[Line],
) -> Result<LineList, AllocError>
    requires bits { AreLines gates.old bits.now }
    requires wide { length bits.now ≤ 64 }
    requires room { length gates.old.gates + length words.now * (length bits.now + 1) < 2 ^ 32 }
    ensures lines { IfOk result (λ lines. ComputesAll gates.old gates.new (λ x s. map (λ word. has_ones (bits_of (length bits.now) word) (line_values gates.old x s bits.now)) words.now) lines) }
    ensures count { IfOk result (λ lines. length lines ≡ length words.now) }
    ensures grown { GrowsWithout foreign_to_decode gates.old gates.new }
    ensures few { length gates.new.gates ≤ length gates.old.gates + length words.now * (length bits.now + 1) }
{
    let mut lines = LineList::new(alloc);
    for word in words {
        let line = word_line(gates, *word, bits.len(), bits)?;
        lines.push(line)?;
    }
    Ok(lines)
}

/// Adds a line for each word, in order, which is 1 exactly where all state bits are 1 that are 1 in the word; so on every
/// state word, be it one of these words or not. It adds at most the `n` state bits and `n + 1` gates per word, and only `And`,
/// `State` and, for a word without ones, `One`; all earlier gates stay, also where memory is missing.
///
/// # Errors
///
/// Want of memory.
#[tactic(auto, using(crate::proofs::Decoded::words_decoded))]
pub fn decode(alloc: Global, gates: &mut Gates, codes: &StateCode) -> Result<LineList, AllocError>
    requires states { gates.old.states ≡ codes.now.n }
    requires width { codes.now.words.width ≡ codes.now.n }
    requires room { length gates.old.gates + (codes.now.n + length codes.now.words.words * (codes.now.n + 1)) < 2 ^ 32 }
    ensures lines { IfOk result (λ lines. ComputesAll gates.old gates.new (λ x s. map (decoded codes.now.n s) codes.now.words.words) lines) }
    ensures count { IfOk result (λ lines. length lines ≡ length codes.now.words.words) }
    ensures grown { Grows gates.old gates.new }
    ensures only { HasNo foreign_to_decode (added_gates gates.old gates.new) }
    ensures positive { HasNo is_negation (added_gates gates.old gates.new) }
    ensures few { length gates.new.gates ≤ length gates.old.gates + (codes.now.n + length codes.now.words.words * (codes.now.n + 1)) }
{
    let bits = state_lines(alloc, gates, codes.words.width())?;
    let lines = word_lines(alloc, gates, codes.words.as_slice(), bits.as_slice())?;
    Ok(lines)
}
