//! Netlists with their plans.
use crate::netlist::Netlist;
use crate::plan::Plan;

/// A netlist with check bits and a checker, and its plan.
#[derive(Drop)]
pub struct PlannedNetlist {
    /// The netlist: the function, its check bits and its checker.
    pub net: Netlist,
    /// Which of its nets are monitored, by which code, and which are the rails.
    pub plan: Plan,
}
