//! Faults that no rail hears: at nodes on which neither rail depends.
ghost use Rattle.std.specs.Prelude.{◌≡◌, ◌+◌, ◌-◌, ◌<◌, ◌≤◌, false, length, None, Some, IfOk, IfSome, IsTrue};
ghost use Rattle.fault_secure.specs.Circuit.{nets};
ghost use Rattle.fault_secure.specs.CodePlan.{IsPlanOf};
ghost use Rattle.fault_secure.specs.StuckAt.{fault_cell, is_listed};
ghost use Rattle.tsc_net.specs.Fault.{stuck_at};
ghost use Rattle.net_cones.specs.Cones.{MarksCone};
ghost use Rattle.lane_sim.specs.First.{IsFirstIn};
ghost use Rattle.lane_sim.specs.FaultBench.{AgreeUnder};
ghost use Rattle.vectors.specs.Trial.{IsTrialOf};
ghost use Rattle.vectors.specs.Unheard.{rails, IsKnown, IsUnheard};

use crate::trial::Trial;
use net_cones::cone_marks;
use std::alloc::{AllocError, Global};
use tsc_net::{Fault, NetId, Netlist, Plan};

/// What is known of the faults that no rail hears: all of them are exposed at the same points of a batch.
#[derive(Drop)]
pub(crate) struct Unheard {
    /// A mark for each node: whether a rail depends on it.
    heard: Vec<bool>,
    /// The first point of the batch that exposes them, if there is one; none where it wasn't sought.
    found: Option<Option<usize>>,
}

impl Unheard {
    /// The nodes on which no rail of a plan depends; nothing was sought.
    ///
    /// # Errors
    ///
    /// Want of memory.
    pub(crate) fn of(alloc: Global, net: &Netlist, plan: &Plan) -> Result<Unheard, AllocError>
        requires plan { IsPlanOf net.now.circuit plan.now }
        ensures marks { IfOk result (λ unheard. MarksCone net.now.circuit (rails plan.now) unheard.heard.items) }
    {
        let heard = cone_marks(alloc, net, &[plan.rail1, plan.rail2])?;
        Ok(Unheard { heard, found: None })
    }

    /// Forgets what was found, for a further batch.
    pub(crate) fn begin(&mut self)
        ensures marks { self.new.heard ≡ self.old.heard }
        ensures nothing { self.new.found ≡ None }
    {
        self.found = None;
    }

    /// The first of the first `many` points of a batch at which the rails agree under a fault. Of the faults that no rail hears one is
    /// tried.
    pub(crate) fn first_agreement(
        &mut self,
        trial: &mut Trial,
        net: &Netlist,
        plan: &Plan,
        fault: Fault,
        many: usize,
    ) -> Option<usize>
        requires trial { IsTrialOf net.now.circuit trial.old }
        requires plan { IsPlanOf net.now.circuit plan.now }
        requires settled { trial.old.bench.points ≡ Some trial.old.points }
        requires fault { IsTrue (is_listed net.now.circuit (stuck_at fault)) }
        requires many { many ≤ 1024 }
        requires known { IsKnown net.now.circuit plan.now trial.old.points many self.old }
        ensures found { IsFirstIn (AgreeUnder net.now.circuit (stuck_at fault) trial.old.points plan.now.rail1 plan.now.rail2) 0 many result }
        ensures known { IsKnown net.now.circuit plan.now trial.new.points many self.new }
        ensures trial { trial.new ≡ trial.old }
    {
        // That there is no ring is known from here on.
        let _order = net.order();
        let unheard = self.is_unheard(net, plan, fault);
        if unheard {
            if let Some(point) = self.found {
                return point;
            }
        }
        let point = trial
            .bench
            .first_agreement(fault, plan.rail1, plan.rail2, many);
        if unheard {
            self.found = Some(point);
        }
        point
    }

    /// Whether a fault is known to be one that no rail hears.
    fn is_unheard(&self, net: &Netlist, plan: &Plan, fault: Fault) -> bool
        requires marks { MarksCone net.now.circuit (rails plan.now) self.now.heard.items }
        requires fault { IsTrue (is_listed net.now.circuit (stuck_at fault)) }
        ensures unheard { IsTrue result → IsUnheard net.now.circuit plan.now (stuck_at fault) }
    {
        let cell = cell_of(fault).number as usize;
        let first = net.inputs() + net.latches();
        cell >= first && !self.heard[cell - first]
    }
}

/// The net of the cell at which a fault is.
fn cell_of(fault: Fault) -> NetId
    ensures cell { result.number ≡ fault_cell (stuck_at fault) }
{
    match fault {
        Fault::Stem { net, value: _ } => net,
        Fault::Pin {
            driver,
            index: _,
            value: _,
        } => driver,
    }
}
