//! The words of a line.
ghost use Rattle.std.specs.Prelude.{◌≡◌};
ghost use Rattle.std.specs.Str.{bytes_eq};
ghost use Rattle.tsc_text.specs.TextLine.{the_word};

use tsc_text::TextLine;

/// Whether the word is this text.
pub fn is_word(word: &[u8], text: &[u8]) -> bool
    ensures same { result ≡ bytes_eq word.now text.now }
{
    word == text
}

/// A word of a line, empty where there is none.
pub fn word_or_empty<'a>(line: &'a TextLine, place: usize) -> &'a [u8]
    ensures word { result.now ≡ the_word line.now place }
{
    if place < line.words() {
        line.word(place)
    } else {
        b""
    }
}
