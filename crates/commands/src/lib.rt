//! What the program's words ask for.
//! Its main types are `Request`, and `Command` for what is asked of a text.
//! It stands on `synth_ways`, on `tsc_net` for codes and the steps of a fault, and on `tsc_io` and `tsc_text` for words and numbers.
//! Its main promise: the request is the meaning of the words.
//! Its definitions are in `specs/`: Words for those by position, WhenWords and SimWords for those of a simulation, Meaning for all.
#![tactic(auto)]

mod command;
mod machine_code;
mod request;
mod row_count;
mod sim_words;
mod source_format;
mod when_words;

pub use command::Command;
pub use machine_code::MachineCode;
pub use request::{Request, request_of};
pub use row_count::RowCount;
pub use sim_words::SimFault;
pub use source_format::SourceFormat;
