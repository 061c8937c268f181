//! The top call: what the program does with its words, a source of bytes and two sinks.
//! Its main call is `run`, which answers a `Status`.
//! It stands on `commands`, which reads the words, on `refusals` for why there may be no answer, on `answers`, `netlist_answers` and `made_report`, which answer them, on `text_sections` for what a text denotes, and on `tsc_io` for devices.
//! Its main promise: where a synthesis ends with `Done`, what was written is read as a netlist that is secure for the network, machine or network with free bits read, whichever one cell fails. Where `audit` by a format or `audit wide` does, so is the netlist read after its source; where `audit exact` does, it is alarm-secure; where `audit mapped` does, the second netlist read is the first one mapped cover by cover.
//! Its definitions are in `specs/`: Cause for what each status means, Help for the words that `help` answers, Written for how what goes out ends.
#![tactic(auto)]

mod fulfilling;
mod performing;
mod running;

pub use machine_maker::make_text;
pub use refusals::Status;
pub use running::run;
