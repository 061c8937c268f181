//! The ways of synthesis: by which construction a network's netlist is made, and which code it has.
//! Its main type is `Way`.
//! It stands on `fault_secure`, for the codes.
//! Its main promise: the code of a way is the one that its definition says.
//! Its definitions are in `specs/`: Ways.
#![tactic(auto)]

mod way;

pub use way::Way;
