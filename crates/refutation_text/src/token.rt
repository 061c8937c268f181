//! What a word of a refutation says.
ghost use Rattle.std.specs.Prelude.{◌≡◌, ◌<◌, length, IsTrue};
ghost use Rattle.tsc_text.specs.TextLine.{the_line, the_word};
ghost use Rattle.refutation_text.specs.Token.{counted, is_deletion, is_remark, negated, token_of};

use tsc_text::{Lines, number};

/// What a word of a refutation says. Its numbers are below 2^31.
#[derive(Clone, Copy, Debug)]
pub(crate) enum Token {
    /// The number 0.
    Zero,
    /// A number above 0.
    Positive(u32),
    /// A number above 0, after a `-`.
    Negative(u32),
    /// Nothing of these.
    Other,
}

/// What a word says.
pub(crate) fn token_of(word: &[u8]) -> Token
    ensures token { result ≡ token_of word.now }
{
    match word {
        [] => Token::Other,
        [first, rest @ ..] => {
            if *first == b'-' {
                negated(counted(number(rest)))
            } else {
                counted(number(word))
            }
        }
    }
}

/// What a number says.
fn counted(value: Option<u64>) -> Token
    ensures counted { result ≡ counted value }
{
    match value {
        None => Token::Other,
        Some(number) => {
            if number == 0 {
                Token::Zero
            } else if number < 2147483648 {
                Token::Positive(number as u32)
            } else {
                Token::Other
            }
        }
    }
}

/// What a word says with a `-` before it.
fn negated(token: Token) -> Token
    ensures negated { result ≡ negated token }
{
    match token {
        Token::Positive(number) => Token::Negative(number),
        _ => Token::Other,
    }
}

/// What the word at a place of a line says.
pub(crate) fn token_at(lines: &Lines, line: usize, place: usize) -> Token
    requires line { line < length lines.now }
    ensures token { result ≡ token_of (the_word (the_line lines.now line) place) }
{
    if place < lines.words(line) {
        token_of(lines.word(line, place))
    } else {
        Token::Other
    }
}

/// Whether a line is passed over: its first word is `c`.
pub(crate) fn is_remark(lines: &Lines, line: usize) -> bool
    requires line { line < length lines.now }
    ensures remark { result ≡ is_remark (the_line lines.now line) }
{
    !lines.is_plan(line) && lines.words(line) > 0 && lines.word(line, 0) == b"c".as_slice()
}

/// Whether a line is to be a deletion: its second word is `d`.
pub(crate) fn is_deletion(lines: &Lines, line: usize) -> bool
    requires line { line < length lines.now }
    ensures deletion { result ≡ is_deletion (the_line lines.now line) }
    ensures long { IsTrue result → 1 < length (the_line lines.now line).words }
{
    lines.words(line) > 1 && lines.word(line, 1) == b"d".as_slice()
}
