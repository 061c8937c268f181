//! The bits of all latches as a word, in memory that is taken once.
ghost use Rattle.std.specs.Prelude.{◌≡◌, ◌+◌, [], ◌∷◌, length, map, take, IfOk};
ghost use Rattle.sim_text.specs.StepLine.{bits_word, digit, word_width};

use crate::step_word::digit;
use std::alloc::{AllocError, Global};
use tsc_io::Bytes;

/// A blank and a word of so many bits, to be written over.
///
/// # Errors
///
/// Want of memory.
pub(crate) fn blank_word(alloc: Global, count: usize) -> Result<Bytes, AllocError>
    ensures room { IfOk result (λ word. length word ≡ word_width count + 1) }
{
    let mut word = Bytes::with_room(alloc, count)?;
    word.push(b' ')?;
    for _ in 0..count.max(1) {
        word.push(b'.')?;
    }
    Ok(word)
}

/// Writes a blank and bits as a word, `.` where there is none, over a word of as many bits. It takes no memory.
pub(crate) fn put_word(word: &mut Bytes, bits: &[bool])
    requires room { length word.old ≡ word_width (length bits.now) + 1 }
    ensures word { word.new ≡ 32 ∷ bits_word bits.now }
{
    word.replace(0, b' ');
    if bits.is_empty() {
        word.replace(1, b'.');
    } else {
        put_digits(word, bits);
    }
}

/// Puts the digits of bits after a blank.
fn put_digits(word: &mut Bytes, bits: &[bool])
    requires room { length word.old ≡ length bits.now + 1 }
    requires blank { take 1 word.old ≡ 32 ∷ [] }
    ensures digits { word.new ≡ 32 ∷ map digit bits.now }
{
    for place in 0..bits.len() {
        word.replace(place + 1, digit(bits[place]));
    }
}
