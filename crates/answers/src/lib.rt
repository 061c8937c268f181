//! What a command answers to a text: the netlist of a synthesis, what `netlist_answers` says of a netlist in it, or the joint of netlists (`joint_answers`); a simulation is printed there as it is run.
//! Its main call is `answer`, which works an answer out; `machine_synthesis_of` is the synthesis of a machine that was read.
//! It stands on the sections of a text (`text_sections`), the synthesis (`tsc_synth`), the writer (`blif_write`) and `netlist_answers`.
//! Its main promise: an answer is what its command answers to what the text denotes; a refusal is the first one of the text, or want of memory.
//! Its definitions are in `specs/`: Answers for answers, Refused for refusals.
#![tactic(auto)]

mod answering;
mod blif_synthesis;
mod loose_synthesis;
mod machine_synthesis;
mod network_synthesis;

pub use answering::answer;
pub use machine_synthesis::machine_synthesis_of;
