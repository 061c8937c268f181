//! The parts of a joint.

use blif_read::Clock;
use tsc_net::{Netlist, Plan};

/// A part of a joint: a netlist with its plan, and the clock of its latches.
#[derive(Drop)]
pub struct Part {
    /// The netlist: the function, its check bits and its checker.
    pub net: Netlist,
    /// Which of its nets are outputs and which are the rails; it lists states, or latches are inputs to it.
    pub plan: Plan,
    /// The type and the control of its lines of latches, if they have them.
    pub clock: Option<Clock>,
}
