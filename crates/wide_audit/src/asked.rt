//! What a wide audit is asked.
ghost use Rattle.std.specs.Prelude.{◌≡◌, ◌≤◌, length};
ghost use Rattle.std.proofs.Props.{props};
ghost use Rattle.fault_secure.specs.CodePlan.{IsPlanOf};

use tsc_net::{Netlist, Plan};

/// A netlist with its plan, the network that it is held against, and how many rows there are.
#[derive(Clone, Copy)]
pub(crate) struct Asked<'a> {
    /// The network.
    pub source: &'a Netlist,
    /// The netlist.
    pub net: &'a Netlist,
    /// Its plan.
    pub plan: &'a Plan,
    /// The number of rows.
    pub rows: usize,
    ghost no_latch: { length source.now.circuit.latches ≡ 0 },
    ghost inputs: { source.now.circuit.inputs ≤ 1024 },
    ghost of: { IsPlanOf net.now.circuit plan.now } by { Prim.hlevel props },
    ghost some: { 2 ≤ rows },
    ghost few: { rows ≤ 4194304 },
}
