//! How much room the lines of a text take.
ghost use Rattle.std.specs.Prelude.{◌≡◌, ◌≤◌, count_by, length};
ghost use Rattle.tsc_text.specs.Bytes.{is_feed};

use crate::byte::is_blank_byte;

/// What a plan line begins with.
const PLAN_MARK: [u8; 5] = *b"#tsc ";

/// For how many words room is taken: for each byte of a word that stands at the front or after a blank, comments left out.
///
/// No text has more words: what stands after a `#` has some in a plan line alone, and a `\` at the end of a line joins none.
pub fn most_words(text: &[u8]) -> usize
    ensures within { result ≤ length text.now }
{
    let mut count = 0;
    let mut is_plan = text.starts_with(&PLAN_MARK);
    let mut is_comment = false;
    let mut is_open = false;
    for (at, byte) in text.iter().enumerate() {
        if *byte == b'\n' {
            is_plan = text[at + 1..].starts_with(&PLAN_MARK);
            is_comment = false;
            is_open = false;
        } else if *byte == b'#' && !is_plan {
            is_comment = true;
        } else if !is_comment {
            let is_blank = is_blank_byte(*byte);
            if !is_blank && !is_open {
                count += 1;
            }
            is_open = !is_blank;
        }
    }
    count
}

/// How many physical lines end with LF.
pub fn count_feeds(text: &[u8]) -> usize
    ensures count { result ≡ count_by is_feed text.now }
    ensures within { result ≤ length text.now }
{
    let mut count = 0;
    for byte in text {
        if *byte == b'\n' {
            count += 1;
        }
    }
    count
}
