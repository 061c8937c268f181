//! How many bits a step shows.
ghost use Rattle.fault_sim.specs.PlanNets.{HasPlanNets};
ghost use Rattle.sim_text.specs.Widths.{AreWidthsOf};

use tsc_net::{Netlist, Plan};

/// How many bits of each kind a step shows.
#[derive(Clone, Copy)]
pub(crate) struct Widths {
    /// The number of the plan's outputs.
    pub outputs: usize,
    /// The number of checks.
    pub checks: usize,
    /// The number of latches.
    pub next: usize,
}

/// How many bits a step of the netlist shows.
pub(crate) fn widths_of(net: &Netlist, plan: &Plan) -> Widths
    requires plan { HasPlanNets net.now.circuit plan.now }
    ensures widths { AreWidthsOf net.now.circuit plan.now result }
{
    Widths {
        outputs: plan.outputs,
        checks: plan.checks.len(),
        next: net.latches(),
    }
}
