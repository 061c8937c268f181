//! Machines under a Berger or an m-out-of-n code: latches hold state words, and logic that negates only inputs chooses by them.
//! Its main call is `machine_netlist`; its main type is `PlannedNetlist` of `tsc_net`, a netlist with a checker, and its plan.
//! It stands on `machine_lines`, whose gates it writes, `state_code`, `unate_synth`, `code_checkers`, `net_writing` and `gate_net`.
//! Its main promise: what `machine_netlist` answers is self-checking for its machine; its names, its plan, its rails and the bit
//! of each place of the word, on every input and state word, are the stated ones, and nothing else stands in it.
//! Definitions: specs/MachineNetlist.antt, MachineFunction (plan, chosen bits), MachineBound (the bound on covers), MachineParts.
#![tactic(auto)]

mod beginning;
mod composing;
mod fresh;
mod laws;
mod planning;
mod synthesis;

pub use laws::machine_is_secure;
pub use synthesis::machine_netlist;
