//! Lists of bits: the numbers that they stand for, and what is counted in them.
//! Its main definitions are `binary` and `bits_of`, a list of bits as a number and back; its main call is `number_of`.
//! It stands on nothing but the standard library.
//! Its main promise: lists of bits and numbers say the same.
//! Definitions: specs/Bits.antt (numbers), Counting.antt (ones, zeros, counters), Thermometer.antt.
#![tactic(auto)]

mod laws;
mod numbers;

pub use laws::bits_are_numbers;
pub use numbers::{number_of, push_bit};
