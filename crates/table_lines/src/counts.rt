//! The counts and limits that lines state and keep.
ghost use Rattle.std.specs.Prelude.{◌≡◌, ◌==◌, length};
ghost use Rattle.table_lines.specs.LineFaults.{count_fault, is_long, is_pattern, long_name, names_of, number_fault, number_in, read_fault};

use crate::cause::Cause;
use crate::words::word_or_empty;
use tsc_cover::is_row_text;
use tsc_text::{TextLine, Which, number};

/// The greatest number of inputs and of outputs.
const MOST_PORTS: u64 = 64;

/// The greatest number of rows.
pub const MOST_ROWS: usize = 16384;

/// The most bytes of a name.
const MOST_NAME_BYTES: usize = 255;

/// The fault of a number of inputs or outputs.
fn number_fault(which: Which, number: Option<u64>) -> Option<Cause>
    ensures fault { result ≡ number_fault which number }
{
    match number {
        None => Some(Cause::Header),
        Some(number) => {
            if number == 0 {
                Some(Cause::Header)
            } else if number > MOST_PORTS {
                Some(Cause::Limit(which))
            } else {
                None
            }
        }
    }
}

/// The fault of a line with one number of inputs or outputs.
pub fn count_fault(which: Which, line: &TextLine) -> Option<Cause>
    ensures fault { result ≡ count_fault which line.now }
{
    if line.words() == 2 {
        number_fault(which, number(line.word(1)))
    } else {
        Some(Cause::Header)
    }
}

/// The fault of a line with a number that is only read.
pub fn read_fault(line: &TextLine) -> Option<Cause>
    ensures fault { result ≡ read_fault line.now }
{
    if line.words() == 2 && number(line.word(1)).is_some() {
        None
    } else {
        Some(Cause::Header)
    }
}

/// The number that a line gives.
pub fn number_in(line: &TextLine) -> usize
    ensures number { result ≡ number_in line.now }
{
    number(word_or_empty(line, 1)).unwrap_or(0) as usize
}

/// Whether a name has more bytes than a name may have.
pub fn is_long(name: &[u8]) -> bool
    ensures long { result ≡ is_long name.now }
{
    name.len() > MOST_NAME_BYTES
}

/// The limit that the bytes of a name of a line pass.
#[tactic(auto, using(crate::proofs::LongNames::long_here, crate::proofs::LongNames::long_later, crate::proofs::LongNames::long_end))]
pub fn long_name(line: &TextLine) -> Option<Cause>
    ensures limit { result ≡ long_name (names_of line.now) }
{
    for place in 1..line.words() {
        if is_long(line.word(place)) {
            return Some(Cause::Limit(Which::NameBytes));
        }
    }
    None
}

/// Whether a word has so many characters, each `0`, `1` or `-`.
pub fn is_pattern(width: usize, word: &[u8]) -> bool
    ensures pattern { result ≡ is_pattern width word.now }
{
    word.len() == width && is_row_text(word)
}
