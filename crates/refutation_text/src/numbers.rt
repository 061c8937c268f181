//! Reads the literals and the numbers of a line.
ghost use Rattle.std.specs.Prelude.{◌≡◌, ◌<◌, ◌≤◌, drop, length, IfOk, IfSome, Some, None, if◌then◌else◌};
ghost use Rattle.tsc_text.specs.TextLine.{the_line};
ghost use Rattle.refutation_text.specs.RefutationLine.{are_closed, front_of, numbers_of};
ghost use Rattle.refutation_text.specs.Reading.{front_at, numbers_with};

use crate::token::{Token, token_of};
use refutations::Literal;
use std::alloc::AllocError;
use tsc_io::Items;
use tsc_text::Lines;

/// Reads the literals of a line from the word after the first up to the first 0, and answers the place after the 0; none, if a
/// word is neither a literal nor a 0, or no 0 comes.
///
/// # Errors
///
/// Want of memory.
pub(crate) fn read_literals(
    lines: &Lines,
    line: usize,
    literals: &mut Items<Literal>,
) -> Result<Option<usize>, AllocError>
    requires line { line < length lines.now }
    ensures read { IfOk result (λ past. front_of (drop 1 (the_line lines.now line).words) ≡ front_at (the_line lines.now line).words literals.new past) }
    ensures within { IfOk result (λ past. IfSome past (λ p. p ≤ length (the_line lines.now line).words)) }
{
    literals.clear();
    let count = lines.words(line);
    if count == 0 {
        return Ok(None);
    }
    for place in 1..count {
        match token_of(lines.word(line, place)) {
            Token::Zero => return Ok(Some(place + 1)),
            Token::Positive(number) => literals.push(Literal {
                variable: number - 1,
                wants: true,
            })?,
            Token::Negative(number) => literals.push(Literal {
                variable: number - 1,
                wants: false,
            })?,
            Token::Other => return Ok(None),
        }
    }
    Ok(None)
}

/// Reads the numbers of a line from a place up to the closing 0, or to the first negative one, and answers whether there is a
/// negative one; none, if a word is no number, or the closing 0 isn't the last word and the only 0.
///
/// # Errors
///
/// Want of memory.
pub(crate) fn read_numbers(
    lines: &Lines,
    line: usize,
    from: usize,
    numbers: &mut Items<u32>,
) -> Result<Option<bool>, AllocError>
    requires line { line < length lines.now }
    requires from { from ≤ length (the_line lines.now line).words }
    ensures read { IfOk result (λ has_negative. numbers_of (drop from (the_line lines.now line).words) ≡ numbers_with numbers.new has_negative) }
{
    numbers.clear();
    let count = lines.words(line);
    for place in from..count {
        match token_of(lines.word(line, place)) {
            Token::Zero => return Ok(closed_with(false, place + 1 == count)),
            Token::Positive(number) => numbers.push(number)?,
            Token::Negative(_) => {
                return Ok(closed_with(true, are_closed(lines, line, place + 1)));
            }
            Token::Other => return Ok(None),
        }
    }
    Ok(None)
}

/// Whether a negative number came, if the words are closed.
fn closed_with(has_negative: bool, is_closed: bool) -> Option<bool>
    ensures closed { result ≡ (if is_closed then Some has_negative else None) }
{
    if is_closed { Some(has_negative) } else { None }
}

/// Whether the words of a line from a place on are numbers, with or without a `-`, and a 0 at the end alone.
fn are_closed(lines: &Lines, line: usize, from: usize) -> bool
    requires line { line < length lines.now }
    requires from { from ≤ length (the_line lines.now line).words }
    ensures closed { result ≡ are_closed (drop from (the_line lines.now line).words) }
{
    let count = lines.words(line);
    for place in from..count {
        match token_of(lines.word(line, place)) {
            Token::Zero => return place + 1 == count,
            Token::Positive(_) | Token::Negative(_) => {}
            Token::Other => return false,
        }
    }
    false
}
