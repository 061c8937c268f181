//! Words and the ends of lines.
ghost use Rattle.std.specs.Prelude.{◌≡◌, ◌++◌, OnOk};
ghost use Rattle.tsc_text.specs.Lines.{ends_in};
ghost use Rattle.blif_write.specs.Steps.{after_word, after_words, after_end, line_end};

use std::alloc::AllocError;
use tsc_io::Bytes;
use tsc_net::NameTable;

/// Adds a blank and a word.
pub fn push_word(out: &mut Bytes, word: &[u8]) -> Result<(), AllocError>
    ensures word { OnOk result (out.new ≡ after_word out.old word.now) }
{
    out.push(b' ')?;
    out.append(word)
}

/// Adds the texts of a table, a blank before each.
pub fn push_table(out: &mut Bytes, table: &NameTable) -> Result<(), AllocError>
    ensures words { OnOk result (out.new ≡ after_words out.old table.now) }
{
    for number in 0..table.len() {
        push_word(out, table.text(number))?;
    }
    Ok(())
}

/// Whether the last byte is a `\`.
fn ends_in_slash(bytes: &[u8]) -> bool
    ensures slash { result ≡ ends_in 92 bytes.now }
{
    match bytes.last() {
        Some(last) => *last == b'\\',
        None => false,
    }
}

/// Ends a line, with a blank before the LF where the line ends in a `\`.
pub fn end_line(out: &mut Bytes) -> Result<(), AllocError>
    ensures ended { OnOk result (out.new ≡ after_end out.old) }
{
    if ends_in_slash(out.as_slice()) {
        out.append(b" \n")
    } else {
        out.append(b"\n")
    }
}

/// The end of a line whose last word is a label and a name.
pub fn line_end(label: &[u8], name: &[u8]) -> &'static [u8]
    ensures end { result.now ≡ line_end (label.now ++ name.now) }
{
    if ends_in_slash(last_of(label, name)) {
        b" \n"
    } else {
        b"\n"
    }
}

/// The second of two texts, or the first where the second is empty: what they end in, one after the other.
fn last_of<'a>(first: &'a [u8], second: &'a [u8]) -> &'a [u8]
    ensures last { ends_in 92 result.now ≡ ends_in 92 (first.now ++ second.now) }
{
    if second.is_empty() { first } else { second }
}
