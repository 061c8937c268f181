//! Puts the points at which faults are tried.
ghost use Rattle.std.specs.Prelude.{◌≡◌, ◌+◌, ◌-◌, ◌%◌, ◌≤◌};
ghost use Rattle.fault_secure.specs.CodePlan.{IsPlanOf};
ghost use Rattle.vectors.specs.Trial.{IsTrialOf, ArePointsFrom};
ghost use Rattle.fault_secure.specs.Exposing.{point_count};

use crate::trial::Trial;
use lane_sim::put_places;
use tsc_net::{Netlist, Plan};

/// Puts the points at the places from `first` on and below `past`, in order.
pub(crate) fn put_batch(trial: &mut Trial, net: &Netlist, plan: &Plan, first: usize, past: usize)
    requires trial { IsTrialOf net.now.circuit trial.old }
    requires plan { IsPlanOf net.now.circuit plan.now }
    requires inputs { net.now.circuit.inputs ≤ 16 }
    requires whole { first % 64 ≡ 0 }
    requires order { first ≤ past }
    requires batch { past ≤ first + 1024 }
    requires few { past ≤ 65536 }
    requires places { past ≤ point_count net.now.circuit plan.now }
    ensures put { ArePointsFrom net.now.circuit plan.now trial.new.points first (past - first) }
    ensures trial { IsTrialOf net.now.circuit trial.new }
{
    put_places(&mut trial.points, plan, first, past);
}
