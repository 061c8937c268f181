//! What a netlist is tried with: a bench of faults, and its points.
ghost use Rattle.std.specs.Prelude.{◌≡◌, ◌≤◌, length, Some, IfOk};
ghost use Rattle.fault_secure.specs.Circuit.{nets};
ghost use Rattle.tsc_net.specs.Limits.{most_nets};
ghost use Rattle.lane_sim.specs.Points.{ArePointsOf};
ghost use Rattle.vectors.specs.Trial.{IsTrialOf};

use lane_sim::{FaultBench, Points};
use std::alloc::{AllocError, Global};
use tsc_net::Netlist;

/// A bench of faults, and the points at which it settles.
pub(crate) struct Trial<'a> {
    /// The bench.
    pub bench: FaultBench<'a>,
    /// Its points.
    pub points: Points,
}

impl<'a> Trial<'a> {
    /// Settles at the points without a fault.
    pub(crate) fn settle(&mut self)
        requires points { ArePointsOf self.old.bench.circuit self.old.points }
        ensures circuit { self.new.bench.circuit ≡ self.old.bench.circuit }
        ensures settled { self.new.bench.points ≡ Some self.old.points }
        ensures points { self.new.points ≡ self.old.points }
    {
        self.bench.settle(&self.points);
    }

    /// Ends the bench.
    pub(crate) fn close(self) {
        let Trial { bench, points: _ } = self;
        bench.close();
    }
}

/// What a netlist is tried with. It takes all the memory that it will ever have.
///
/// # Errors
///
/// Want of memory.
pub(crate) fn trial_of<'a>(alloc: Global, net: &'a Netlist) -> Result<Trial<'a>, AllocError>
    requires latches { length net.now.circuit.latches ≤ 64 }
    requires nets { nets net.now.circuit ≤ most_nets }
    ensures trial { IfOk result (IsTrialOf net.now.circuit) }
{
    let points = Points::new(alloc, net)?;
    let bench = FaultBench::open(alloc, net)?;
    Ok(Trial { bench, points })
}
