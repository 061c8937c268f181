//! Berger checks: the number of outputs that are 0, in binary, as a number and as gates.
//! Its main call is `add_berger`, beside `berger_width` and `check_of`, which take no memory, and `zero_line`, which mofn_code takes too.
//! It stands on gate_net, whose gates it adds to, and on fault_secure, which says what a Berger codeword is.
//! Its main promise: on every input and state the lines that are added have the bits of the number of zeros, which is a codeword's check.
//! Definitions: specs/Counter.antt; widths and codewords are fault_secure's specs/CodePlan.antt, zeros and numbers as bits tsc_bits' specs/Counting.antt and Bits.antt.
#![tactic(auto)]

mod berger_gates;
mod check_value;
mod counter;
mod half_sum;
mod laws;

pub use berger_gates::add_berger;
pub use check_value::{berger_width, check_of};
pub use counter::zero_line;
pub use laws::{width_is_one, zeros_are_checked};
