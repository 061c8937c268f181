//! What a netlist is tried with.
ghost use Rattle.std.specs.Prelude.{◌≡◌, ℕ, ◌+◌, ◌-◌, ◌*◌, ◌%◌, ◌<◌, ◌≤◌};
ghost use Rattle.fault_secure.specs.Exposing.{point_count};
ghost use Rattle.unheard_cells.specs.Trial.{ArePointsFrom, IsRoom, IsSettled, IsTrialOf};

use crate::spans::Span;
use lane_sim::{FaultBench, Points, put_places};
use tsc_io::Items;
use tsc_net::{Netlist, Nets, Plan};

/// A bench of faults with what it takes.
pub(crate) struct Trial<'a> {
    /// The bench.
    pub bench: FaultBench<'a>,
    /// Its points.
    pub points: Points,
    /// The rails, then the outputs and the nets at the latch inputs.
    pub watch: Nets,
    /// For each place after the rails a list: the rails, then these nets from the place on.
    pub near: Items<Nets>,
    /// For each node where after the rails the nets stand that depend on it.
    pub spans: Vec<Span>,
}

impl<'a> Trial<'a> {
    /// Ends the bench.
    pub(crate) fn close(self) {
        let Trial {
            bench,
            points: _,
            watch: _,
            near: _,
            spans: _,
        } = self;
        bench.close();
    }
}

/// Puts the points at the places from `first` on and below `past`, in order.
pub(crate) fn put_batch(trial: &mut Trial, net: &Netlist, plan: &Plan, first: usize, past: usize)
    requires trial { IsTrialOf net.now.circuit plan.now trial.old }
    requires inputs { net.now.circuit.inputs ≤ 20 }
    requires whole { first % 64 ≡ 0 }
    requires order { first ≤ past }
    requires batch { past ≤ first + 1024 }
    requires few { past ≤ 1048576 }
    requires places { past ≤ point_count net.now.circuit plan.now }
    ensures put { ArePointsFrom net.now.circuit plan.now trial.new.points first (past - first) }
    ensures trial { IsTrialOf net.now.circuit plan.now trial.new }
{
    put_places(&mut trial.points, plan, first, past);
}

/// Settles at the points that are put, and writes what the watched nets have there without a fault, sixteen words per net.
pub(crate) fn settle_batch(trial: &mut Trial, net: &Netlist, plan: &Plan, right: &mut [u64])
    requires trial { IsTrialOf net.now.circuit plan.now trial.old }
    requires room { IsRoom net.now.circuit plan.now right.old }
    ensures settled { IsSettled net.now.circuit plan.now trial.new right.new }
    ensures points { trial.new.points ≡ trial.old.points }
{
    // What a checked netlist keeps is known from here on.
    let _nets = net.nets();
    let _width = plan.states.width();
    trial.bench.settle(&trial.points);
    trial.bench.write_lanes(None, trial.watch.as_slice(), right);
}
