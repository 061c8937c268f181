//! Test vectors of a text.
ghost use Rattle.std.specs.Prelude.{◌≡◌, ◌≤◌, None, length, IfErr, IfOk, OnOk};
ghost use Rattle.fault_secure.specs.Circuit.{nets};
ghost use Rattle.fault_secure.specs.CodePlan.{IsPlanOf};
ghost use Rattle.tsc_net.specs.Limits.{most_nets};
ghost use Rattle.vectors.specs.Vectors.{AreTests};
ghost use Rattle.netlist_answers.specs.Answers.{IsVectorList};
ghost use Rattle.netlist_answers.specs.Printout.{IsTested};
ghost use Rattle.text_sections.specs.Denoted.{netlist_in, plan_in};
ghost use Rattle.text_sections.specs.Refused.{IsRefusedBy};
ghost use Rattle.netlist_answers.specs.Refused.{has_too_many_points, points_refusal, vectors_refusal};
ghost use Rattle.netlist_answers.specs.VectorList.{vector_list};

use crate::printout::TestedNetlist;
use refusals::{Limit, Refusal, TextRefusal};
use std::alloc::Global;
use text_sections::read_netlist;
use tsc_io::Bytes;
use tsc_net::{Faults, Netlist, Plan};
use vectors::{Tests, VecError, vectors};

/// The netlist that `text` denotes, its listed faults, and their tests.
///
/// # Errors
///
/// The first refusal of the text, or want of memory.
pub fn test_vectors(alloc: Global, text: &Bytes) -> Result<TestedNetlist, Refusal>
    requires short { length text.now ≤ 67108864 }
    ensures net { IfOk result (λ tested. tested.net ≡ netlist_in text.now) }
    ensures tests { IfOk result (λ tested. AreTests (netlist_in text.now).circuit (plan_in text.now) tested.tests) }
    ensures answers { IfOk result (λ tested. IsVectorList text.now (vector_list tested.net tested.tests)) }
    ensures tested { IfOk result IsTested }
    ensures allowed { OnOk result (vectors_refusal text.now ≡ None) }
    ensures refused { IfErr result (IsRefusedBy (vectors_refusal text.now)) }
{
    let read = read_netlist(alloc, text)?;
    let tests = tests_of(alloc, &read.net, &read.plan)?;
    match Faults::of(alloc, &read.net) {
        Ok(faults) => Ok(TestedNetlist {
            net: read.net,
            faults,
            tests,
        }),
        Err(error) => Err(Refusal::Memory(error)),
    }
}

/// The tests of a netlist.
fn tests_of(alloc: Global, net: &Netlist, plan: &Plan) -> Result<Tests, Refusal>
    requires plan { IsPlanOf net.now.circuit plan.now }
    requires latches { length net.now.circuit.latches ≤ 64 }
    requires nets { nets net.now.circuit ≤ most_nets }
    ensures tests { IfOk result (AreTests net.now.circuit plan.now) }
    ensures inputs { OnOk result (net.now.circuit.inputs ≤ 64) }
    ensures few { OnOk result (points_refusal (has_too_many_points net.now.circuit plan.now) ≡ None) }
    ensures refused { IfErr result (IsRefusedBy (points_refusal (has_too_many_points net.now.circuit plan.now))) }
{
    // What a plan keeps is known from here on.
    let _states = plan.states.len();
    match vectors(alloc, net, plan) {
        Ok(tests) => Ok(tests),
        Err(VecError::TooManyPoints) => Err(Refusal::Text(TextRefusal::TooMany(Limit::Points))),
        Err(VecError::Memory(error)) => Err(Refusal::Memory(error)),
    }
}
