//! BLIF: reading a source, and a netlist with its plan.
//! Its main call is `read_blif`, which gives a `BlifText`.
//! It stands on `tsc_text` for lines and on `tsc_net` for netlists and plans.
//! Its main promise: what is read is exactly what the text denotes, and each refusal comes exactly where it stands, in order.
//! Its definitions are in `specs/`: LineKind, Rows, NamedText and Clocks say what a text denotes, Faults, Clocks and FirstFault what is refused.
#![tactic(auto)]

mod builder;
mod cause;
mod clocks;
mod cover_rows;
mod error;
mod faults;
mod first_fault;
mod kinds;
mod limits;
mod net_reading;
mod parts_of;
mod plan_lines;
mod plan_names;
mod plan_parts;
mod plan_reading;
mod plan_rules;
mod plan_states;
mod reading;
mod register_rules;
mod seen;

pub use clocks::{Clock, Edge, clock_misfit, first_latch, used_clock};
pub use error::BlifError;
pub use kinds::Kind;
pub use reading::{BlifText, read_blif};
