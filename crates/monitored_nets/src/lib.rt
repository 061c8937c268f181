//! The monitored nets of a netlist with its plan, and marks: on the nodes of the function, and on these nets.
//! Its main calls are `monitored_nets`, which answers a list of nets, `function_marks`, with one mark per node, and `word_marks`, with one mark per net.
//! It stands on `tsc_net` (netlists and plans), `fault_secure` (what is monitored, what the function is) and `net_cones` (cones).
//! Its main promise: the outputs, the checks and the nets at the latch inputs, in this order; a node is marked exactly where it belongs to the function, a net exactly where it stands in the list.
//! Its definitions are in `specs/`: Marks.
#![tactic(auto)]

mod marks;
mod monitored;

pub use marks::{function_marks, word_marks};
pub use monitored::monitored_nets;
