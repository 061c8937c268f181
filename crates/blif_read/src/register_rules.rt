//! The rules of a plan that may list no states.
ghost use Rattle.std.specs.Prelude.{◌≡◌, None, IfOk, IfErr, OnOk};
ghost use Rattle.std.specs.List.{list_all};
ghost use Rattle.tsc_net.specs.NetFault.{first_repeat};
ghost use Rattle.blif_read.specs.LineKind.{pins_of};
ghost use Rattle.blif_read.specs.PlanFault.{is_none};
ghost use Rattle.blif_read.specs.PlanText.{first_watch, is_parity, is_watch_line, kind_in_plan, watch_lines};
ghost use Rattle.blif_read.specs.Refusal.{IsRefusedBy};
ghost use Rattle.blif_read.specs.RegisterFault.{fits_registers, is_plain_parity, is_register, is_watch, lists_states, register_refusal, stateless_misfit, watches_registers};

use crate::clocks::clock_misfit;
use crate::error::BlifError;
use crate::kinds::word_or_empty;
use crate::plan_lines::PlanKind;
use crate::plan_names::{kind_in_plan, net_named};
use crate::plan_reading::version_of;
use crate::plan_rules::{code_named, has_no_state};
use std::alloc::{AllocError, Global};
use tsc_net::{Code, IndexedNetlist, NameTable};
use tsc_text::{SectionLines, TextLine};

/// Whether a line is one of what is watched.
fn is_watch_line(line: &TextLine) -> bool
    ensures watch { result ≡ is_watch_line (kind_in_plan line.now) }
{
    match kind_in_plan(line) {
        PlanKind::WatchLine => true,
        _ => false,
    }
}

/// The number of watch lines.
#[tactic(auto, using(crate::proofs::RuleWalk::watch_line_here, crate::proofs::RuleWalk::watch_line_not, crate::proofs::RuleWalk::watch_line_end))]
fn watch_lines(section: &SectionLines) -> usize
    ensures count { result ≡ watch_lines section.now }
{
    let mut count = 0;
    for place in 0..section.len() {
        let line = section.line(place);
        if is_watch_line(&line) {
            count += 1;
        }
    }
    count
}

/// The first watch line.
#[tactic(auto, using(crate::proofs::RuleWalk::watch_here, crate::proofs::RuleWalk::watch_later, crate::proofs::RuleWalk::watch_end))]
fn first_watch<'a>(section: &SectionLines<'a>) -> Option<TextLine<'a>>
    ensures line { result ≡ first_watch section.now }
{
    for place in 0..section.len() {
        let line = section.line(place);
        if is_watch_line(&line) {
            return Some(line);
        }
    }
    None
}

/// Whether the name is that of a register's net.
fn is_register(net: &IndexedNetlist, name: &[u8]) -> bool
    ensures register { result ≡ is_register net.now name.now }
{
    let number = net_named(net, name).number as usize;
    let first = net.netlist().inputs();
    first <= number && number < first + net.netlist().latches()
}

/// Whether a watch line names registers alone, except for its check.
#[tactic(auto, using(crate::proofs::RuleWalk::register_not, crate::proofs::RuleWalk::register_here, crate::proofs::RuleWalk::register_end))]
fn names_registers(line: &TextLine, net: &IndexedNetlist) -> bool
    ensures registers { result ≡ list_all (is_register net.now) (pins_of line.now) }
{
    for place in 1..line.words().saturating_sub(1) {
        if !is_register(net, line.word(place)) {
            return false;
        }
    }
    true
}

/// Whether a watch line names each of them once.
#[tactic(auto, using(crate::proofs::RuleWalk::names_end))]
fn are_distinct(alloc: Global, line: &TextLine, section: &SectionLines) -> Result<bool, AllocError>
    ensures distinct { IfOk result (λ distinct. distinct ≡ is_none (first_repeat (pins_of line.now))) }
{
    let mut table = NameTable::new(alloc, section.key());
    for place in 1..line.words().saturating_sub(1) {
        let name = line.word(place);
        if table.find(name).is_some() {
            return Ok(false);
        }
        table.add(name)?;
    }
    Ok(true)
}

/// Whether nothing is watched, or registers are by the first watch line.
fn is_watch(alloc: Global, section: &SectionLines, net: &IndexedNetlist) -> Result<bool, AllocError>
    ensures watch { IfOk result (λ watch. watch ≡ is_watch net.now (first_watch section.now)) }
{
    match first_watch(section) {
        None => Ok(true),
        Some(line) => {
            if !names_registers(&line, net) {
                return Ok(false);
            }
            are_distinct(alloc, &line, section)
        }
    }
}

/// Whether the version is 1 and the code is parity.
fn is_plain_parity(head: &TextLine) -> bool
    ensures plain { result ≡ is_plain_parity head.now }
{
    let code = code_named(word_or_empty(head, 1));
    version_of(head) == 1 && is_parity(code)
}

/// Whether the code is parity.
fn is_parity(code: Code) -> bool
    ensures parity { result ≡ is_parity code }
{
    match code {
        Code::Parity => true,
        Code::Berger | Code::MOutOfN => false,
    }
}

/// Whether a section lists states.
pub fn lists_states(section: &SectionLines) -> bool
    ensures lists { result ≡ lists_states section.now }
{
    !has_no_state(section)
}

/// Whether what is watched fits the registers.
fn fits_registers(
    alloc: Global,
    head: &TextLine,
    section: &SectionLines,
    net: &IndexedNetlist,
) -> Result<bool, AllocError>
    ensures fits { IfOk result (λ fits. fits ≡ fits_registers head.now section.now net.now) }
{
    let watched = watch_lines(section);
    if net.netlist().latches() == 0 || lists_states(section) {
        return Ok(watched == 0);
    }
    if !is_plain_parity(head) || watched > 1 {
        return Ok(false);
    }
    is_watch(alloc, section, net)
}

/// The number of the first line whose clock doesn't fit, where no states are listed.
fn stateless_misfit(section: &SectionLines) -> Option<usize>
    ensures line { result ≡ stateless_misfit section.now }
{
    if lists_states(section) {
        None
    } else {
        clock_misfit(section)
    }
}

/// Whether what is watched, and the clocks of registers, keep their rules.
///
/// # Errors
///
/// The first of them that doesn't, or want of memory.
pub fn check_registers(
    alloc: Global,
    head: &TextLine,
    section: &SectionLines,
    net: &IndexedNetlist,
) -> Result<(), BlifError>
    ensures sound { OnOk result (register_refusal head.now section.now net.now ≡ None) }
    ensures refused { IfErr result (IsRefusedBy (register_refusal head.now section.now net.now)) }
{
    if !fits_registers(alloc, head, section, net).map_err(BlifError::Memory)? {
        return Err(BlifError::PlanShape {
            line: head.number(),
        });
    }
    match stateless_misfit(section) {
        Some(line) => Err(BlifError::LatchClock { line }),
        None => Ok(()),
    }
}
