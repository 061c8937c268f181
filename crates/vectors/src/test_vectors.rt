//! Test vectors of a netlist.
ghost use Rattle.std.specs.Prelude.{◌≡◌, ◌↔◌, ◌<◌, ◌≤◌, length, IfOk, IsErrOf};
ghost use Rattle.fault_secure.specs.Circuit.{nets};
ghost use Rattle.fault_secure.specs.CodePlan.{IsPlanOf};
ghost use Rattle.vectors.specs.Vectors.{AreTests};
ghost use Rattle.fault_secure.specs.Exposing.{point_count};
ghost use Rattle.tsc_net.specs.Limits.{most_nets};

use crate::counting::count_of;
use crate::places::Places;
use crate::search::find_places;
use crate::test_list::Tests;
use crate::trial::trial_of;
use crate::unheard::Unheard;
use crate::vec_error::VecError;
use std::alloc::{AllocError, Global};
use tsc_net::{Faults, Netlist, Plan};

/// For each listed fault, in order, the first point that exposes it, or none where no point does. A point is a listed state and
/// an input; points are ordered by state, then by the input as a binary number.
///
/// # Errors
///
/// `TooManyPoints` exactly where there are more than 65,536 points; want of memory.
pub fn vectors(alloc: Global, net: &Netlist, plan: &Plan) -> Result<Tests, VecError>
    requires plan { IsPlanOf net.now.circuit plan.now }
    requires latches { length net.now.circuit.latches ≤ 64 }
    requires nets { nets net.now.circuit ≤ most_nets }
    ensures tests { IfOk result (AreTests net.now.circuit plan.now) }
    ensures too_many { IsErrOf result VecError.TooManyPoints ↔ (65536 < point_count net.now.circuit plan.now) }
{
    let Some(count) = count_of(plan.listed_states(), net.inputs()) else {
        return Err(VecError::TooManyPoints);
    };
    let tests = tests_of(alloc, net, plan, count).map_err(VecError::Memory)?;
    Ok(tests)
}

/// The tests of a netlist with so many points.
fn tests_of(alloc: Global, net: &Netlist, plan: &Plan, count: usize) -> Result<Tests, AllocError>
    requires plan { IsPlanOf net.now.circuit plan.now }
    requires latches { length net.now.circuit.latches ≤ 64 }
    requires nets { nets net.now.circuit ≤ most_nets }
    requires inputs { net.now.circuit.inputs ≤ 16 }
    requires few { count ≤ 65536 }
    requires count { count ≡ point_count net.now.circuit plan.now }
    ensures tests { IfOk result (AreTests net.now.circuit plan.now) }
{
    let faults = Faults::of(alloc, net)?;
    let mut places = Places::none(alloc, faults.len())?;
    let mut unheard = Unheard::of(alloc, net, plan)?;
    let mut trial = trial_of(alloc, net)?;
    find_places(
        &mut trial,
        net,
        plan,
        &faults,
        count,
        &mut unheard,
        &mut places,
    );
    trial.close();
    Ok(Tests::at(net.inputs(), places))
}
