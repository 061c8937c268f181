//! Laws of netlists of sources with registers, above all of twins: two copies of covers and registers, of which one copy's outputs are shown.
//! Its main definitions are `IsTwin`, `Reaches` (through registers) and `IsRegisterSecure`, secure against the runs of the source circuit itself.
//! It stands on `fault_secure` (circuits, runs, plans), `structure_laws`, `mapping_laws`, `tsc_cover` and `tsc_bits`.
//! Its main promise: a netlist that meets `IsTwin` gives no wrong output before its alarm, whatever any one cell, a cover or a register, gives at any steps (`twins_are_secure`).
//! Definitions, in reading order: specs/RegisterPlan, RegisterStructure, RegisterSecure, RegisterLaws, Twin, Watch, Part, RegisterMapping, Networks, SmallTwin, WrongTwins.
#![tactic(auto)]

mod mapped;
mod networks;
mod parts;
mod registers;
mod small_twin;
mod twins;
mod wrong_twins;

pub use mapped::{
    alarm_secure_registers_show_faults, mapped_plans_are_of_theirs,
    mapped_registers_are_alarm_secure, mapped_registers_are_block_alarm_secure,
    mapped_registers_are_secure, register_secure_is_alarm_secure,
};
pub use networks::without_registers_it_is_the_promise_on_networks;
pub use parts::{parts_answer_alike, secure_for_the_whole};
pub use registers::{marks_hold_what_reaches, registers_are_fault_secure, registers_are_secure};
pub use small_twin::{the_small_twin_is_secure, watches_read_copies};
pub use twins::{differing_registers_are_heard, twins_are_secure};
pub use wrong_twins::{
    apart_in_one_step_is_not_enough, copies_begin_as_their_registers, copies_read_copies,
};
