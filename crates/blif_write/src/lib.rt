//! Netlists with their plans as BLIF texts.
//! Its main calls are `write_blif` and, for registers with a clock and a watch, `write_registers`, which give the text as `Bytes`.
//! It stands on `tsc_net`, `tsc_cover`, `tsc_io`, on the clock of `blif_read`, and on the definitions of `tsc_text`.
//! Its main promise: the text is exactly the layout of the netlist and the plan, and is read again as they are.
//! Its definitions are in `specs/`: `Layout` has the words of each line, `RegisterText` those of clocks and watches, `NamedPlan` plans by names; `Told` what a text says whatever the limits are; the bytes of a line are those of `tsc_text`'s `Written`.
#![tactic(auto)]

mod head;
mod latches;
mod laws;
mod net_names;
mod nodes;
mod plan_lines;
mod register_writing;
mod rows;
mod words;
mod writer;

pub use laws::{
    limits_alone_are_refused, read_nets_are_writable, register_plans_are_told, registers_are_told,
    written_netlists_are_read, written_netlists_are_told,
};
pub use register_writing::write_registers;
pub use writer::write_blif;
