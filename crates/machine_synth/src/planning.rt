//! The plan of a machine's netlist.
ghost use Rattle.std.specs.Prelude.{◌≡◌, length, IfOk};
ghost use Rattle.fault_secure.specs.CodePlan.{HasWidth, IsUnorderedCode, IsWellMade};
ghost use Rattle.tsc_net.specs.PlanView.{net_numbers};
ghost use Rattle.machine_synth.specs.MachineFunction.{IsMachinePlan};
ghost use Rattle.machine_synth.specs.MachineParts.{IsCodeOf};

use state_code::StateCode;
use std::alloc::{AllocError, Global};
use tsc_io::Items;
use tsc_net::{Code, Machine, NetId, Plan, StateList};

/// The plan with these state words and checks, as many as the code has for the machine's outputs, and these rails.
pub fn machine_plan(
    alloc: Global,
    machine: &Machine,
    code: Code,
    codes: &StateCode,
    checks: &[NetId],
    rails: (NetId, NetId),
) -> Result<Plan, AllocError>
    requires unordered { IsUnorderedCode code }
    requires width { HasWidth code machine.now.table.outputs (length checks.now) }
    requires codes { IsCodeOf machine.now.table.states codes.now }
    ensures plan { IfOk result (IsMachinePlan machine.now.table) }
    ensures code { IfOk result (λ plan. plan.code ≡ code) }
    ensures latches { IfOk result (λ plan. plan.latches ≡ codes.now.n) }
    ensures weight { IfOk result (λ plan. plan.weight ≡ codes.now.m) }
    ensures checks { IfOk result (λ plan. plan.checks ≡ net_numbers checks.now) }
    ensures first { IfOk result (λ plan. plan.rail1 ≡ rails.0.number) }
    ensures second { IfOk result (λ plan. plan.rail2 ≡ rails.1.number) }
    ensures well_made { IfOk result IsWellMade }
{
    // What the machine keeps is known from here on.
    let _reset = machine.reset();
    let states = same_words(alloc, &codes.words)?;
    let outputs = machine.outputs();
    Ok(Plan {
        version: 2,
        code,
        outputs,
        checks: Items::from_slice(alloc, checks)?,
        groups: Items::new(alloc),
        weight: codes.m,
        states,
        rail1: rails.0,
        rail2: rails.1,
    })
}

/// The same words once more.
fn same_words(alloc: Global, words: &StateList) -> Result<StateList, AllocError>
    ensures same { IfOk result (λ list. list ≡ words.now) }
{
    let mut list = StateList::new(alloc, words.width());
    for place in 0..words.len() {
        list.push(*words.get(place))?;
    }
    Ok(list)
}
