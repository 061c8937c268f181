//! A plan over groups of outputs, and the gates of its checker.
ghost use Rattle.std.specs.Prelude.{◌≡◌, ◌<◌, ◌≤◌, map, length, IfOk};
ghost use Rattle.tsc_net.specs.PlanView.{net_numbers};
ghost use Rattle.code_checkers.specs.GateList.{IsCheckerOf};
ghost use Rattle.code_checkers.specs.Within.{ReadsWord};
ghost use Rattle.code_checkers.specs.Size.{checker_size};
ghost use Rattle.parity_synth.specs.CheckedNet.{plan_over};
ghost use Rattle.parity_synth.specs.Planning.{AreGrouped};

use code_checkers::{CheckGates, checker};
use parity_code::Grouping;
use std::alloc::{AllocError, Global};
use tsc_io::Items;
use tsc_net::{Code, Group, GroupList, NetId, Plan, StateList};

/// The plan with these groups, checks and rails.
///
/// # Errors
///
/// Want of memory.
pub fn parity_plan(
    alloc: Global,
    outputs: usize,
    grouping: &Grouping,
    checks: &[NetId],
    rails: (NetId, NetId),
) -> Result<Plan, AllocError>
    requires some { 0 < outputs }
    requires few { outputs ≤ 64 }
    requires groups { AreGrouped outputs grouping.now }
    requires paired { length checks.now ≡ length grouping.now }
    ensures exact { IfOk result (λ plan. plan ≡ plan_over outputs (net_numbers checks.now) grouping.now rails.0.number rails.1.number) }
{
    let groups = plan_groups(alloc, grouping, checks)?;
    Ok(Plan {
        version: 1,
        code: Code::Parity,
        outputs,
        checks: Items::from_slice(alloc, checks)?,
        groups,
        weight: 0,
        states: StateList::new(alloc, 0),
        rail1: rails.0,
        rail2: rails.1,
    })
}

/// The gates of the plan's checker, which don't depend on which nets are the rails.
///
/// # Errors
///
/// Want of memory.
pub fn checker_gates(
    alloc: Global,
    outputs: usize,
    grouping: &Grouping,
    checks: &[NetId],
) -> Result<CheckGates, AllocError>
    requires some { 0 < outputs }
    requires few { outputs ≤ 64 }
    requires groups { AreGrouped outputs grouping.now }
    requires paired { length checks.now ≡ length grouping.now }
    ensures made { IfOk result (IsCheckerOf (plan_over outputs (net_numbers checks.now) grouping.now 0 0)) }
    ensures words { IfOk result (ReadsWord (plan_over outputs (net_numbers checks.now) grouping.now 0 0)) }
    ensures few { IfOk result (λ gates. length gates.gates ≤ checker_size (plan_over outputs (net_numbers checks.now) grouping.now 0 0)) }
{
    let none = NetId { number: 0 };
    let draft = parity_plan(alloc, outputs, grouping, checks, (none, none))?;
    checker(alloc, &draft)
}

/// Each group with its check.
fn plan_groups(
    alloc: Global,
    grouping: &Grouping,
    checks: &[NetId],
) -> Result<GroupList, AllocError>
    requires paired { length checks.now ≡ length grouping.now }
    ensures places { IfOk result (λ groups. map (λ group. group.places) groups ≡ grouping.now) }
    ensures checks { IfOk result (λ groups. map (λ group. group.check) groups ≡ checks.now) }
{
    let mut groups = Items::new(alloc);
    for (place, check) in checks.iter().enumerate() {
        let places = Items::from_slice(alloc, grouping.get(place).as_slice())?;
        groups.push(Group {
            places,
            check: *check,
        })?;
    }
    Ok(groups)
}
