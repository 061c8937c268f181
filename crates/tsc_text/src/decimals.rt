//! Numbers as words.
ghost use Rattle.std.specs.Prelude.{◌≡◌, ◌≤◌, ◌++◌, drop, length, OnOk, OnErr};
ghost use Rattle.std.specs.Fmt.{decimal};
ghost use Rattle.tsc_text.specs.Number.{number_of, value_with};

use std::alloc::AllocError;
use tsc_io::Bytes;

/// The most digits of a number.
const MOST_DIGITS: usize = 20;

/// The number that a word of 1 to 20 decimal digits is, if it is below 2^64.
pub fn number(word: &[u8]) -> Option<u64>
    ensures number { result ≡ number_of word.now }
{
    if word.is_empty() || word.len() > MOST_DIGITS {
        return None;
    }
    let mut value = 0;
    for byte in word {
        value = with_digit(value, *byte)?;
    }
    Some(value)
}

/// The value of some digits and one more.
fn with_digit(value: u64, byte: u8) -> Option<u64>
    ensures value { result ≡ value_with value byte }
{
    if byte < b'0' || byte > b'9' {
        return None;
    }
    value.checked_mul(10)?.checked_add(u64::from(byte - b'0'))
}

/// Appends the decimal digits of `value`, without leading zeros. Where memory is missing nothing is appended.
///
/// # Errors
///
/// Want of memory.
pub fn push_number(out: &mut Bytes, value: u64) -> Result<(), AllocError>
    ensures ok { OnOk result (out.new ≡ out.old ++ decimal value) }
    ensures err { OnErr result (out.new ≡ out.old) }
{
    let mut digits = [0; MOST_DIGITS];
    let start = write_digits(&mut digits, value);
    out.append(&digits[start..])
}

/// Writes the decimal digits of `value` to the end of `digits`, and answers where they begin.
fn write_digits(digits: &mut [u8], value: u64) -> usize
    requires { length digits.old ≡ 20 }
    ensures within { result ≤ 20 }
    ensures digits { drop result digits.new ≡ decimal value }
{
    let mut start = digits.len();
    let mut rest = value;
    while rest >= 10 {
        start -= 1;
        digits[start] = b'0' + (rest % 10) as u8;
        rest /= 10;
    }
    start -= 1;
    digits[start] = b'0' + rest as u8;
    start
}
