//! Words and the ends of lines.
ghost use Rattle.std.specs.Prelude.{◌≡◌, OnOk};
ghost use Rattle.tsc_text.specs.Lines.{ends_in};
ghost use Rattle.blif_write.specs.Layout.{bit_character};
ghost use Rattle.blif_write.specs.Steps.{after_word, after_end};

use std::alloc::AllocError;
use tsc_io::Bytes;

/// The character of a bit.
pub fn bit_byte(bit: bool) -> u8
    ensures character { result ≡ bit_character bit }
{
    if bit { b'1' } else { b'0' }
}

/// Adds a blank and a word.
pub fn push_word(out: &mut Bytes, word: &[u8]) -> Result<(), AllocError>
    ensures word { OnOk result (out.new ≡ after_word out.old word.now) }
{
    out.push(b' ')?;
    out.append(word)
}

/// Whether the last byte is a `\`.
fn ends_in_slash(bytes: &[u8]) -> bool
    ensures slash { result ≡ ends_in 92 bytes.now }
{
    match bytes.last() {
        Some(last) => *last == b'\\',
        None => false,
    }
}

/// Ends a line, with a blank before the LF where the line ends in a `\`.
pub fn end_line(out: &mut Bytes) -> Result<(), AllocError>
    ensures ended { OnOk result (out.new ≡ after_end out.old) }
{
    if ends_in_slash(out.as_slice()) {
        out.append(b" \n")
    } else {
        out.append(b"\n")
    }
}
