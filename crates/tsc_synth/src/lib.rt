//! Synthesis: from a source to a netlist with check bits and a checker, and its plan.
//! Its main calls are `synth`, for a network, `synth_loose`, for one with free bits, `synth_machine`, and `synth_registers`, for a network with registers.
//! It stands on `synth_ways`, `parity_synth`, `duplex_synth`, `twin_synth`, `unate_synth`, `machine_synth`, `parity_code` and `tsc_net`.
//! Its main promise: what it answers is fault-secure, and is what its source and its way ask for; under parity every node of it.
//! Its definitions are in `specs/`: WayNetlist (by the way), CoverBound and MachineLimits.
#![tactic(auto)]

mod bound;
mod loose_synthesis;
mod machine_covers;
mod machine_synthesis;
mod register_synthesis;
mod synthesis;

pub use loose_synthesis::synth_loose;
pub use machine_covers::machine_bound;
pub use machine_synthesis::synth_machine;
pub use parity_synth::one_parity_netlist;
pub use register_synthesis::synth_registers;
pub use synthesis::{SynthError, synth};
