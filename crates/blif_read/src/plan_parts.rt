//! The groups and the checks of a plan.
ghost use Rattle.std.specs.Prelude.{◌≡◌, ◌≤◌, ◌++◌, length, map, IfOk, OnOk};
ghost use Rattle.tsc_net.specs.PlanView.{net_numbers};
ghost use Rattle.blif_read.specs.LineKind.{net_of, pins_of};
ghost use Rattle.blif_read.specs.Planned.{ArePlanned, IsPlannedAt};
ghost use Rattle.blif_read.specs.PlanText.{check_names, checks_at, group_check_at, group_checks, group_outputs, group_outputs_at, kind_in_plan, net_named, output_place};

use crate::plan_lines::PlanKind;
use crate::plan_names::{kind_in_plan, net_named, nets_named, places_named};
use std::alloc::{AllocError, Global};
use tsc_io::Items;
use tsc_net::{Group, GroupList, IndexedNetlist, Nets};
use tsc_text::{SectionLines, TextLine};

/// The group of a line.
fn group_at(alloc: Global, line: &TextLine, net: &IndexedNetlist) -> Result<Group, AllocError>
    requires words { 2 ≤ length line.now.words }
    ensures places { IfOk result (λ group. group.places ≡ map (output_place net.now) (pins_of line.now)) }
    ensures check { IfOk result (λ group. group.check.number ≡ net_named net.now (net_of line.now)) }
{
    let places = places_named(alloc, line, net)?;
    let check = net_named(net, line.word(line.words() - 1));
    Ok(Group { places, check })
}

/// Adds the group of a line, if it is one of a group.
fn add_group(
    alloc: Global,
    groups: &mut GroupList,
    line: &TextLine,
    net: &IndexedNetlist,
) -> Result<(), AllocError>
    requires planned { IsPlannedAt (kind_in_plan line.now) line.now }
    ensures places { OnOk result (map (λ group. group.places) groups.new ≡ map (λ group. group.places) groups.old ++ map (λ names. map (output_place net.now) names) (group_outputs_at (kind_in_plan line.now) line.now)) }
    ensures checks { OnOk result (map (λ group. group.check.number) groups.new ≡ map (λ group. group.check.number) groups.old ++ map (net_named net.now) (group_check_at (kind_in_plan line.now) line.now)) }
{
    match kind_in_plan(line) {
        PlanKind::GroupLine => {
            let group = group_at(alloc, line, net)?;
            groups.push(group)?;
            Ok(())
        }
        _ => Ok(()),
    }
}

/// The groups of a section.
pub fn groups(
    alloc: Global,
    section: &SectionLines,
    net: &IndexedNetlist,
) -> Result<GroupList, AllocError>
    requires planned { ArePlanned section.now }
    ensures places { IfOk result (λ groups. map (λ group. group.places) groups ≡ map (λ names. map (output_place net.now) names) (group_outputs section.now)) }
    ensures checks { IfOk result (λ groups. map (λ group. group.check.number) groups ≡ map (net_named net.now) (group_checks section.now)) }
{
    let mut groups = Items::new(alloc);
    for place in 0..section.len() {
        let line = section.line(place);
        add_group(alloc, &mut groups, &line, net)?;
    }
    Ok(groups)
}

/// Adds the checks of a line, if it is one of checks.
fn add_checks(
    alloc: Global,
    nets: &mut Nets,
    line: &TextLine,
    net: &IndexedNetlist,
) -> Result<(), AllocError>
    ensures nets { OnOk result (net_numbers nets.new ≡ net_numbers nets.old ++ map (net_named net.now) (checks_at (kind_in_plan line.now) line.now)) }
{
    match kind_in_plan(line) {
        PlanKind::CheckLine => {
            let words = line.words();
            if words == 0 {
                return Ok(());
            }
            let more = nets_named(alloc, line, 1, words, net)?;
            nets.append(more.as_slice())?;
            Ok(())
        }
        _ => Ok(()),
    }
}

/// The nets that the check lines of a section name.
pub fn check_nets(
    alloc: Global,
    section: &SectionLines,
    net: &IndexedNetlist,
) -> Result<Nets, AllocError>
    ensures nets { IfOk result (λ nets. net_numbers nets ≡ map (net_named net.now) (check_names section.now)) }
{
    let mut nets = Items::new(alloc);
    for place in 0..section.len() {
        let line = section.line(place);
        add_checks(alloc, &mut nets, &line, net)?;
    }
    Ok(nets)
}
