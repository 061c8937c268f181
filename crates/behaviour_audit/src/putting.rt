//! Puts the points at which a netlist is tried.
ghost use Rattle.std.specs.Prelude.{◌≡◌, ℕ, ◌+◌, ◌%◌, ◌<◌, ◌≤◌};
ghost use Rattle.fault_secure.specs.CodePlan.{IsPlanOf};
ghost use Rattle.behaviour_audit.specs.Points.{HasInput, HasPoint};
ghost use Rattle.behaviour_audit.specs.Trial.{IsWatchOf};
ghost use Rattle.fault_secure.specs.Exposing.{point_count};
ghost use Rattle.lane_sim.specs.Places.{point_at};

use crate::watch::Watch;
use tsc_net::{Netlist, Plan};

/// Puts the points at the places from `first` on and below `past`, in order.
pub(crate) fn put_points(watch: &mut Watch, net: &Netlist, plan: &Plan, first: usize, past: usize)
    requires watch { IsWatchOf net.now.circuit watch.old }
    requires plan { IsPlanOf net.now.circuit plan.now }
    requires inputs { net.now.circuit.inputs ≤ 20 }
    requires whole { first % 64 ≡ 0 }
    requires order { first ≤ past }
    requires batch { past ≤ first + 1024 }
    requires few { past ≤ 1048576 }
    requires places { past ≤ point_count net.now.circuit plan.now }
    ensures put { (slot : ℕ) → first + slot < past → HasPoint net.now.circuit plan.now watch.new.points slot (point_at net.now.circuit.inputs (first + slot)) }
    ensures watch { IsWatchOf net.now.circuit watch.new }
    ensures nets { watch.new.nets ≡ watch.old.nets }
{
    lane_sim::put_places(&mut watch.points, plan, first, past);
}

/// Puts the inputs of the points at the places from `first` on and below `past`, in order.
pub(crate) fn put_inputs(watch: &mut Watch, net: &Netlist, first: usize, past: usize)
    requires watch { IsWatchOf net.now.circuit watch.old }
    requires inputs { net.now.circuit.inputs ≤ 20 }
    requires whole { first % 64 ≡ 0 }
    requires order { first ≤ past }
    requires batch { past ≤ first + 1024 }
    ensures put { (slot : ℕ) → first + slot < past → HasInput net.now.circuit.inputs watch.new.points slot (point_at net.now.circuit.inputs (first + slot)) }
    ensures watch { IsWatchOf net.now.circuit watch.new }
    ensures nets { watch.new.nets ≡ watch.old.nets }
{
    lane_sim::put_inputs(&mut watch.points, first, past);
}
