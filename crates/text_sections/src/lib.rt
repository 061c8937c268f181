//! A text as sections: a source or a netlist in BLIF, a machine in KISS2, a network with free bits in PLA, and what stands after it.
//! Its main calls are `read_source`, `read_registers`, `read_netlist`, `read_any_netlist`, `machine_alone` and `table_alone`, for a text of one section; `first_any_netlist`, `first_source`, `first_machine`, `first_table`, `netlist_section`, `last_netlist` and `unplanned_behind`, for one of two; and `text_from`, for a section from a place on.
//! It stands on the lines of a text (`tsc_text`), the readers (`blif_read`, `kiss_read`, `pla_read`) and `refusals` for what a refusal is.
//! Its main promise: what is answered is what the section denotes, a function of the bytes; a refusal is the first one of the text, or want of memory.
//! Its definitions are in `specs/`: Denoted for what a text denotes, Refused for what is refused of it.
#![tactic(auto)]

mod machine_section;
mod pla_section;
mod planned_section;
mod section;

pub use machine_section::{first_machine, machine_alone};
pub use pla_section::{first_table, table_alone};
pub use planned_section::{last_netlist, netlist_section, read_netlist};
pub use section::{
    behind_first, first_any_netlist, first_source, read_any_netlist, read_registers, read_source,
    text_from, text_lines, unplanned_behind,
};
