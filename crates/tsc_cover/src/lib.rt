//! Single-output covers, as BLIF's `.names` writes them: rows of literals over up to 64 pins.
//! The main type is `Cover`, whose rows are `Row01`.
//! It stands on `tsc_bits`, lists of bits.
//! Main promise: `Cover::truth` is what BLIF says of the rows, and rows and their characters say the same.
//! Definitions: specs/Cover.antt (covers), Row.antt (rows), Gates.antt (covers of gates), Text.antt (rows as characters), Terms.antt (rows as what they ask).
#![tactic(auto)]

mod covers;
mod gates;
mod laws;
mod rows;
mod texts;

pub use covers::Cover;
pub use gates::{
    and_cover, buf_cover, is_and, is_buf, is_not, is_or, is_xor, not_cover, or_cover, xor_cover,
};
pub use laws::{rows_are_texts, truth_looks_at_its_pins};
pub use rows::{Row01, bit_at, meet};
pub use texts::{char_at, is_row_text, row_of, row_text};
