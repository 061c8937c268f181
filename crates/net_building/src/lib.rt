//! From parts that nothing refuses to their netlist, and fresh names.
//! Its main call is `built`, which gives the netlist of sound parts.
//! It stands on `tsc_net`.
//! Its main promise: sound parts become exactly their netlist, and nothing but memory can be missing.
//! Its definitions are in `specs/`: Sound (what nothing refuses) and Names.
#![tactic(auto)]

mod building;
mod fresh_names;

pub use building::built;
pub use fresh_names::add_fresh_names;
