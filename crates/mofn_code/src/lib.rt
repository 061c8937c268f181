//! Thermometer checks of m-out-of-n codes: whether at least 1, 2 and so on of the outputs are 0, as a number and as gates.
//! Its main call is `add_thermo`, beside `thermo_of`, which takes no memory.
//! It stands on gate_net, whose gates it adds to, on berger_code, which counts zeros, and on fault_secure, which says what a codeword is.
//! Its main promise: on every input and state the j-th line that is added is 1 exactly where at least j outputs are 0, so outputs and checks together have as many ones as there are outputs.
//! Definitions: the checks that a synthesis under an unordered code writes are specs/CheckBits.antt; thermometers, zeros and numbers as bits are tsc_bits' specs/Thermometer.antt, Counting.antt and Bits.antt, codewords fault_secure's specs/CodePlan.antt.
#![tactic(auto)]

mod check_value;
mod laws;
mod thermo_gates;
mod threshold_cell;
mod thresholds;

pub use check_value::thermo_of;
pub use laws::{thermometers_are_checked, thermometers_count};
pub use thermo_gates::add_thermo;
