//! Reading the plan of a netlist.
ghost use Rattle.std.specs.Prelude.{◌≡◌, ◌<◌, true, None, Some, length, map, slice_index_or, IfOk, IfErr, OnOk};
ghost use Rattle.fault_secure.specs.CodePlan.{IsPlanOf};
ghost use Rattle.tsc_net.specs.PlanView.{net_numbers};
ghost use Rattle.fault_secure.specs.declared.code.Code.TheVariants.{Parity};
ghost use Rattle.blif_read.specs.Denotes.{plan_at};
ghost use Rattle.blif_read.specs.PlanFault.{first_unknown, is_right, plan_refusal};
ghost use Rattle.blif_read.specs.Planned.{ArePlanned};
ghost use Rattle.blif_read.specs.PlanText.{checks_for, code_line, code_in, groups_for, net_named, plan_with, seen_circuit, seen_net, version_of};
ghost use Rattle.blif_read.specs.RegisterFault.{any_plan_refusal, lists_states};
ghost use Rattle.blif_read.specs.Refusal.{IsRefusedBy};

use crate::error::BlifError;
use crate::kinds::{is_word, word_or_empty};
use crate::plan_names::{code_line, first_unknown};
use crate::plan_parts::{check_nets, groups};
use crate::plan_rules::{code_named, fits_latches, has_checks_for, has_lines_for, weight};
use crate::plan_states::states;
use crate::register_rules::{check_registers, lists_states};
use std::alloc::{AllocError, Global};
use tsc_io::Items;
use tsc_net::{Code, Group, GroupList, IndexedNetlist, NetId, Netlist, Nets, Plan};
use tsc_text::{SectionLines, TextLine};

/// The groups and the checks of a plan.
#[derive(Drop)]
struct Draft {
    groups: GroupList,
    checks: Nets,
}

/// The checks of the groups.
fn checks_of(alloc: Global, groups: &[Group]) -> Result<Nets, AllocError>
    ensures checks { IfOk result (λ checks. checks ≡ map (λ group. group.check) groups.now) }
{
    let mut checks = Items::new(alloc);
    for group in groups {
        checks.push(group.check)?;
    }
    Ok(checks)
}

/// The groups and the checks that a section states for this code.
#[tactic(auto, using(crate::proofs::PlanMade::checks_numbered))]
fn collected(
    alloc: Global,
    code: Code,
    section: &SectionLines,
    net: &IndexedNetlist,
) -> Result<Draft, AllocError>
    requires planned { ArePlanned section.now }
    ensures groups { IfOk result (λ d. map (λ group. group.places) d.groups ≡ groups_for code net.now section.now) }
    ensures checks { IfOk result (λ d. net_numbers d.checks ≡ map (net_named net.now) (checks_for code section.now)) }
    ensures same { IfOk result (λ d. code ≡ Parity → map (λ group. group.check) d.groups ≡ d.checks) }
{
    match code {
        Code::Parity => {
            let groups = groups(alloc, section, net)?;
            let checks = checks_of(alloc, groups.as_slice())?;
            Ok(Draft { groups, checks })
        }
        Code::Berger | Code::MOutOfN => {
            let checks = check_nets(alloc, section, net)?;
            Ok(Draft {
                groups: Items::new(alloc),
                checks,
            })
        }
    }
}

/// How many latches a plan sees: one that lists no states sees none.
fn seen_latches(net: &Netlist, lists: bool) -> usize
    ensures count { result ≡ length (seen_circuit lists net.now.circuit).latches }
{
    if lists { net.latches() } else { 0 }
}

/// Whether the plan keeps its rules, as one that lists states or lists none.
fn is_right(
    alloc: Global,
    code: Code,
    draft: &Draft,
    section: &SectionLines,
    net: &Netlist,
    lists: bool,
) -> Result<bool, AllocError>
    requires groups { map (λ group. group.places) draft.now.groups ≡ groups_for code net.now section.now }
    requires checks { net_numbers draft.now.checks ≡ map (net_named net.now) (checks_for code section.now) }
    ensures right { IfOk result (λ right. right ≡ is_right code section.now (seen_net lists net.now)) }
{
    let outputs = net.outputs().len();
    let latches = seen_latches(net, lists);
    if outputs < 3 || outputs > 66 || latches > 64 || !has_lines_for(code, section) {
        return Ok(false);
    }
    if !has_checks_for(
        alloc,
        code,
        outputs - 2,
        draft.groups.as_slice(),
        draft.checks.len(),
    )? {
        return Ok(false);
    }
    fits_latches(alloc, latches, section)
}

/// The output at a place.
fn output_at(net: &Netlist, place: usize) -> NetId
    requires within { place < length net.now.circuit.outputs }
    ensures number { result.number ≡ slice_index_or net.now.circuit.outputs place 0 }
{
    let outputs = net.outputs();
    outputs[place]
}

/// The version of the code line.
pub fn version_of(line: &TextLine) -> u8
    ensures version { result ≡ version_of line.now }
{
    if is_word(word_or_empty(line, 0), b"1") {
        1
    } else {
        2
    }
}

/// The plan with these groups and checks, which keeps its rules.
fn put_together(
    alloc: Global,
    head: &TextLine,
    code: Code,
    draft: Draft,
    section: &SectionLines,
    net: &Netlist,
    lists: bool,
) -> Result<Plan, AllocError>
    requires code { code ≡ code_in head.now }
    requires planned { ArePlanned section.now }
    requires right { is_right code section.now (seen_net lists net.now) ≡ true }
    requires groups { map (λ group. group.places) draft.groups ≡ groups_for code net.now section.now }
    requires checks { net_numbers draft.checks ≡ map (net_named net.now) (checks_for code section.now) }
    requires same { code ≡ Parity → map (λ group. group.check) draft.groups ≡ draft.checks }
    requires known { first_unknown net.now.names section.now ≡ None }
    ensures of_net { IfOk result (IsPlanOf (seen_circuit lists net.now.circuit)) }
    ensures plan { IfOk result (λ plan. plan ≡ plan_with head.now section.now (seen_net lists net.now)) }
{
    let states = states(alloc, seen_latches(net, lists), section)?;
    let outputs = net.outputs().len() - 2;
    let weight = weight(section);
    let rail1 = output_at(net, outputs);
    let rail2 = output_at(net, outputs + 1);
    let version = version_of(head);
    // the clause of `nets` says that the netlist is checked, so its outputs are nets
    let _nets = net.nets();
    Ok(Plan {
        version,
        code,
        outputs,
        checks: draft.checks,
        groups: draft.groups,
        weight,
        states,
        rail1,
        rail2,
    })
}

/// The plan that the lines of a section state for their netlist, as one that lists states or lists none.
pub fn read_plan(
    alloc: Global,
    section: &SectionLines,
    net: &IndexedNetlist,
    lists: bool,
) -> Result<Plan, BlifError>
    requires planned { ArePlanned section.now }
    ensures plan { IfOk result (λ plan. plan_at (code_line section.now) section.now (seen_net lists net.now) ≡ Some plan) }
    ensures of_net { IfOk result (IsPlanOf (seen_circuit lists net.now.circuit)) }
    ensures sound { OnOk result (plan_refusal section.now (seen_net lists net.now) ≡ None) }
    ensures refused { IfErr result (IsRefusedBy (plan_refusal section.now (seen_net lists net.now))) }
{
    let head = match code_line(section) {
        Some(head) => head,
        None => return Err(BlifError::NoPlan),
    };
    match first_unknown(section, net) {
        Some(line) => return Err(BlifError::PlanName { line }),
        None => {}
    }
    let code = code_named(word_or_empty(&head, 1));
    let draft = collected(alloc, code, section, net).map_err(BlifError::Memory)?;
    let netlist = net.netlist();
    let right = is_right(alloc, code, &draft, section, netlist, lists).map_err(BlifError::Memory)?;
    if !right {
        return Err(BlifError::PlanShape {
            line: head.number(),
        });
    }
    let plan = put_together(alloc, &head, code, draft, section, netlist, lists).map_err(
        BlifError::Memory,
    )?;
    Ok(plan)
}

/// The plan that the lines of a section state for their netlist, which may list no states though there are registers.
pub fn read_any_plan(
    alloc: Global,
    section: &SectionLines,
    net: &IndexedNetlist,
) -> Result<Plan, BlifError>
    requires planned { ArePlanned section.now }
    ensures plan { IfOk result (λ plan. plan_at (code_line section.now) section.now (seen_net (lists_states section.now) net.now) ≡ Some plan) }
    ensures of_net { IfOk result (IsPlanOf (seen_circuit (lists_states section.now) net.now.circuit)) }
    ensures sound { OnOk result (any_plan_refusal section.now net.now ≡ None) }
    ensures refused { IfErr result (IsRefusedBy (any_plan_refusal section.now net.now)) }
{
    let plan = read_plan(alloc, section, net, lists_states(section))?;
    if let Some(head) = code_line(section) {
        check_registers(alloc, &head, section, net)?;
    }
    Ok(plan)
}
