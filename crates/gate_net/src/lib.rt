//! Two-input gates: a network of them, in which equal gates are one gate, read from a netlist and written into one.
//! Its main type is `Gates`, whose lines are functions of inputs and state bits.
//! It stands on tsc_net, tsc_cover and tsc_io.
//! Its main promise: an added line means its gate's signal, earlier lines keep theirs, and nets that realise lines have their values.
//! Definitions: specs/Signal.antt (signals, their values), Gates.antt (lines), Growth.antt, Negations.antt, Realised.antt (gates that stand in a netlist), Written.antt (by names).
#![tactic(auto)]

mod covers;
mod gate;
mod gate_covers;
mod gate_set;
mod gate_writing;
mod gates;
mod laws;
mod line;
mod needed;
mod net_gates;
mod net_reading;
mod owners;
mod realised_laws;
mod root;
mod root_writing;

pub use gate::Gate;
pub use gates::Gates;
pub use laws::{added_computes, growth_is_kept, line_of_gate};
pub use line::{Line, LineList};
pub use net_gates::NetGates;
pub use net_reading::from_net;
pub use realised_laws::{
    named_nets_realise, realised_cones, realised_signs, realised_values, root_is_driven,
};
pub use root::{Root, RootList};
pub use root_writing::to_net;
