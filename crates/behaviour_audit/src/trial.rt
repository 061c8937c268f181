//! What is audited, and what it is tried with.
ghost use Rattle.std.specs.Prelude.{◌≡◌, ℕ, ◌+◌, ◌%◌, ◌<◌, ◌≤◌};
ghost use Rattle.behaviour_audit.specs.Trial.{IsTrialOf, ShowsPoint};
ghost use Rattle.fault_secure.specs.Exposing.{point_count};
ghost use Rattle.lane_sim.specs.Places.{point_at};

use crate::putting::put_points;
use crate::reading::settle;
use crate::reference::{Reference, settle_source};
use crate::watch::Watch;
use tsc_net::{Netlist, Plan, SourceMeaning};

/// What is audited: a netlist with its plan, and the source that it is held against.
#[derive(Clone, Copy)]
pub(crate) struct Audited<'a> {
    /// The source.
    pub source: &'a SourceMeaning<'a>,
    /// The netlist.
    pub net: &'a Netlist,
    /// Its plan.
    pub plan: &'a Plan,
}

/// A bench of the netlist that watches the monitored nets, and those of its source.
pub(crate) struct Trial<'a> {
    /// The netlist's bench.
    pub watch: Watch<'a>,
    /// The source's benches.
    pub reference: Reference<'a>,
}

impl<'a> Trial<'a> {
    /// Ends the benches.
    pub(crate) fn close(self) {
        let Trial { watch, reference } = self;
        watch.close();
        reference.close();
    }
}

/// Settles at the points at the places from `first` on and below `past`.
pub(crate) fn settle_batch(trial: &mut Trial, audited: &Audited, first: usize, past: usize)
    requires trial { IsTrialOf audited.now trial.old }
    requires whole { first % 64 ≡ 0 }
    requires order { first ≤ past }
    requires batch { past ≤ first + 1024 }
    requires few { past ≤ 1048576 }
    requires places { past ≤ point_count audited.now.net.now.circuit audited.now.plan.now }
    ensures shows { (slot : ℕ) → first + slot < past → ShowsPoint audited.now trial.new slot (point_at audited.now.net.now.circuit.inputs (first + slot)) }
    ensures trial { IsTrialOf audited.now trial.new }
{
    let Audited { source, net, plan } = *audited;
    put_points(&mut trial.watch, net, plan, first, past);
    settle(&mut trial.watch, net);
    settle_source(&mut trial.reference, source, first, past);
}
