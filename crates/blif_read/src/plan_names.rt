//! The names in a plan, and the nets that they name.
ghost use Rattle.std.specs.Prelude.{◌≡◌, ◌==◌, position, ◌≤◌, length, map, not, slice_range, IfOk};
ghost use Rattle.std.specs.List.{list_any};
ghost use Rattle.std.specs.Option.{is_some};
ghost use Rattle.tsc_net.specs.Names.{find_text};
ghost use Rattle.tsc_net.specs.PlanView.{net_numbers};
ghost use Rattle.blif_read.specs.LineKind.{names_of, pins_of};
ghost use Rattle.blif_read.specs.PlanFault.{first_unknown};
ghost use Rattle.blif_read.specs.PlanText.{code_line, kind_in_plan, names_at, net_named, output_place};

use crate::plan_lines::{PlanKind, plan_kind_of};
use std::alloc::{AllocError, Global};
use tsc_io::Items;
use tsc_net::{IndexedNetlist, NetId, Nets, PlaceList};
use tsc_text::{SectionLines, TextLine};

/// The kind of a line in a plan.
pub fn kind_in_plan(line: &TextLine) -> PlanKind
    ensures kind { result ≡ kind_in_plan line.now }
{
    if line.is_plan() {
        plan_kind_of(line)
    } else {
        PlanKind::OtherLine
    }
}

/// The first plan line.
#[tactic(auto, using(crate::proofs::PlanWalk::code_here, crate::proofs::PlanWalk::code_later, crate::proofs::PlanWalk::code_end))]
pub fn code_line<'a>(section: &SectionLines<'a>) -> Option<TextLine<'a>>
    ensures line { result ≡ code_line section.now }
{
    for place in 0..section.len() {
        let line = section.line(place);
        if line.is_plan() {
            return Some(line);
        }
    }
    None
}

/// Whether no net has the name.
fn is_unknown(net: &IndexedNetlist, name: &[u8]) -> bool
    ensures unknown { result ≡ not (is_some (find_text net.now.names name.now)) }
{
    net.net(name).is_none()
}

/// Whether a plan line names what is no net.
#[tactic(auto, using(crate::proofs::PlanWalk::unknown_here, crate::proofs::PlanWalk::unknown_later, crate::proofs::PlanWalk::unknown_end))]
fn has_unknown_from(line: &TextLine, net: &IndexedNetlist) -> bool
    ensures unknown { result ≡ list_any (λ name. not (is_some (find_text net.now.names name))) (names_of line.now) }
{
    for place in 1..line.words() {
        if is_unknown(net, line.word(place)) {
            return true;
        }
    }
    false
}

/// Whether a line names what is no net.
fn has_unknown(line: &TextLine, net: &IndexedNetlist) -> bool
    ensures unknown { result ≡ list_any (λ name. not (is_some (find_text net.now.names name))) (names_at (kind_in_plan line.now) line.now) }
{
    match kind_in_plan(line) {
        PlanKind::GroupLine | PlanKind::CheckLine | PlanKind::WatchLine => {
            has_unknown_from(line, net)
        }
        PlanKind::CodeLine | PlanKind::StateLine | PlanKind::OtherLine => false,
    }
}

/// The number of the first line that names what is no net.
#[tactic(auto, using(crate::proofs::PlanWalk::first_end))]
pub fn first_unknown(section: &SectionLines, net: &IndexedNetlist) -> Option<usize>
    ensures line { result ≡ first_unknown net.now.names section.now }
{
    for place in 0..section.len() {
        let line = section.line(place);
        if has_unknown(&line, net) {
            return Some(line.number());
        }
    }
    None
}

/// The net of a name.
pub fn net_named(net: &IndexedNetlist, name: &[u8]) -> NetId
    ensures number { result.number ≡ net_named net.now name.now }
{
    match net.net(name) {
        Some(id) => id,
        None => NetId { number: 0 },
    }
}

/// The place of the net with this number.
fn position_of(nets: &[NetId], number: u32) -> Option<usize>
    ensures place { result ≡ position (λ net. net.number == number) nets.now }
{
    nets.iter().position(|net| net.number == number)
}

/// The place of a name's net among the source's outputs.
pub fn output_place(net: &IndexedNetlist, name: &[u8]) -> usize
    ensures place { result ≡ output_place net.now name.now }
{
    let number = net_named(net, name).number;
    let outputs = net.netlist().outputs();
    let count = outputs.len().saturating_sub(2);
    match position_of(&outputs[..count], number) {
        Some(place) => place,
        None => count,
    }
}

/// The nets of the names from the word `from` up to the one before `to`.
pub fn nets_named(
    alloc: Global,
    line: &TextLine,
    from: usize,
    to: usize,
    net: &IndexedNetlist,
) -> Result<Nets, AllocError>
    requires order { from ≤ to }
    requires within { to ≤ length line.now.words }
    ensures nets { IfOk result (λ nets. net_numbers nets ≡ map (net_named net.now) (slice_range line.now.words from to)) }
{
    let mut nets = Items::new(alloc);
    for place in from..to {
        nets.push(net_named(net, line.word(place)))?;
    }
    Ok(nets)
}

/// The places of the outputs that a group names.
pub fn places_named(
    alloc: Global,
    line: &TextLine,
    net: &IndexedNetlist,
) -> Result<PlaceList, AllocError>
    requires words { 2 ≤ length line.now.words }
    ensures places { IfOk result (λ places. places ≡ map (output_place net.now) (pins_of line.now)) }
{
    let mut places = Items::new(alloc);
    for place in 1..line.words() - 1 {
        places.push(output_place(net, line.word(place)))?;
    }
    Ok(places)
}
