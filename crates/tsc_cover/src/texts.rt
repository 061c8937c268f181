//! Rows as characters, and back.
ghost use Rattle.std.specs.Prelude.{◌≡◌, ℕ, ◌<◌, ◌≤◌, ◌^◌, ◌↔◌, [], ◌∷◌, ◌++◌, ◌+◌, length, IsTrue, IsSome, IfSome, IfOk};
ghost use Rattle.tsc_cover.specs.Cover.{literals, literal_at};
ghost use Rattle.tsc_cover.specs.Row.{IsRow, literal};
ghost use Rattle.tsc_cover.specs.Text.{is_row_text, literals_of_text, text_of_literals, character_of, is_literal, literal_of};

use crate::rows::{Row01, bit_at};
use std::alloc::{AllocError, Global};

/// Whether all characters are `0`, `1` or `-`.
pub fn is_row_text(text: &[u8]) -> bool
    ensures row { result ≡ is_row_text text.now }
{
    text.iter().all(|character| *character == b'0' || *character == b'1' || *character == b'-')
}

/// The row that the characters `0`, `1` and `-` stand for, the first pin first; `None` where
/// another character stands.
pub fn row_of(text: &[u8]) -> Option<Row01>
    requires room { length text.now ≤ 64 }
    ensures read { IsSome result ↔ IsTrue (is_row_text text.now) }
    ensures literals { IfSome result (λ row. literals (length text.now) row.care row.value ≡ literals_of_text text.now) }
    ensures fit { IfSome result (IsRow (length text.now)) }
{
    let mut row = Row01 { care: 0, value: 0 };
    for character in text {
        row = with_literal(row, *character)?;
    }
    Some(row)
}

/// The character of the row at a pin: `0`, `1` or `-`.
pub fn char_at(row: &Row01, width: usize, pin: usize) -> u8
    requires limit { width ≤ 64 }
    requires below { pin < width }
    ensures character { result ≡ character_of (literal_at (literals width row.now.care row.now.value) pin) }
{
    let place = width - 1 - pin;
    character(bit_at(row.care, place), bit_at(row.value, place))
}

/// The characters of the row, one per pin, the first pin first.
///
/// # Errors
///
/// Want of memory.
pub fn row_text(alloc: Global, row: &Row01, width: usize) -> Result<Vec<u8>, AllocError>
    requires limit { width ≤ 64 }
    ensures text { IfOk result (λ text. text.items ≡ text_of_literals (literals width row.now.care row.now.value)) }
{
    let mut text = Vec::new(alloc);
    for pin in 0..width {
        text.push(char_at(row, width, pin))?;
    }
    Ok(text)
}

/// The character of the pin of which a row keeps these two bits.
fn character(care: bool, value: bool) -> u8
    ensures character { result ≡ character_of (literal care value) }
{
    if !care {
        b'-'
    } else if value {
        b'1'
    } else {
        b'0'
    }
}

/// The row with one more pin at its end; `None` where the character is no literal.
fn with_literal(row: Row01, character: u8) -> Option<Row01>
    requires care { row.care < 2 ^ 63 }
    requires value { row.value < 2 ^ 63 }
    ensures read { IsSome result ↔ IsTrue (is_literal character) }
    ensures literals { IfSome result (λ next. (width : ℕ) → literals (width + 1) next.care next.value ≡ literals width row.care row.value ++ literal_of character ∷ []) }
    ensures fit { IfSome result (λ next. (width : ℕ) → IsRow width row → IsRow (width + 1) next) }
{
    match character {
        b'0' => Some(with_pin(row, true, false)),
        b'1' => Some(with_pin(row, true, true)),
        b'-' => Some(with_pin(row, false, false)),
        _ => None,
    }
}

/// The row with one more pin at its end, of which it keeps these two bits.
fn with_pin(row: Row01, care: bool, value: bool) -> Row01
    requires care { row.care < 2 ^ 63 }
    requires value { row.value < 2 ^ 63 }
    requires asked { IsTrue value → IsTrue care }
    ensures literals { (width : ℕ) → literals (width + 1) result.care result.value ≡ literals width row.care row.value ++ literal care value ∷ [] }
    ensures fit { (width : ℕ) → IsRow width row → IsRow (width + 1) result }
{
    Row01 {
        care: row.care * 2 + care as u64,
        value: row.value * 2 + value as u64,
    }
}
