//! Reading a text as a netlist with its plan. Where it has registers of which the plan lists no states, that is what refuses it last.
ghost use Rattle.std.specs.Prelude.{◌≡◌, ◌≤◌, ◌==◌, ◌&&◌, if◌then◌else◌, Option, None, Some, length, nat_lt, IfOk, IfErr, OnOk};
ghost use Rattle.fault_secure.specs.Circuit.{nets};
ghost use Rattle.fault_secure.specs.CodePlan.{IsPlanOf};
ghost use Rattle.tsc_net.specs.NetlistOf.{netlist_of};
ghost use Rattle.tsc_net.specs.Limits.{most_nets};
ghost use Rattle.tsc_text.specs.Lines.{lines_of};
ghost use Rattle.blif_read.specs.Denotes.{DenotesNetlist};
ghost use Rattle.blif_read.specs.NamedText.{named_text};
ghost use Rattle.text_sections.specs.Denoted.{first_lines, lines_from, net_from};
ghost use Rattle.text_sections.specs.Refused.{IsRefusedBy, first_of, lacks_states, last_netlist_refusal, left_behind, netlist_section_refusal, netlist_text_refusal};

use crate::section::{last_listed, netlist_from, text_from, text_lines};
use blif_read::Kind;
use refusals::{Refusal, TextRefusal};
use std::alloc::{AllocError, Global};
use tsc_io::Bytes;
use tsc_net::{Netlist, Plan, PlannedNetlist};
use tsc_text::{End, Lines};

/// The netlist with its plan that `text` denotes, all of whose lines belong to it.
///
/// # Errors
///
/// The first refusal of the text; registers of which no states are listed; or want of memory.
pub fn read_netlist(alloc: Global, text: &Bytes) -> Result<PlannedNetlist, Refusal>
    requires short { length text.now ≤ 67108864 }
    ensures denoted { IfOk result (λ read. DenotesNetlist (first_lines (lines_of text.now)) read.net read.plan) }
    ensures exact { IfOk result (λ read. read.net ≡ netlist_of (named_text (first_lines (lines_of text.now)))) }
    ensures of_net { IfOk result (λ read. IsPlanOf read.net.circuit read.plan) }
    ensures allowed { OnOk result (netlist_text_refusal text.now ≡ None) }
    ensures refused { IfErr result (IsRefusedBy (netlist_text_refusal text.now)) }
{
    let lines = text_lines(alloc, text)?;
    let read = last_netlist(alloc, &lines, 0)?;
    Ok(read)
}

/// The netlist with its plan that the lines from the place `from` on denote, all of which belong to it.
///
/// # Errors
///
/// The first refusal of the lines; registers of which no states are listed; or want of memory.
pub fn last_netlist(alloc: Global, lines: &Lines, from: usize) -> Result<PlannedNetlist, Refusal>
    requires within { from ≤ length lines.now }
    ensures denoted { IfOk result (λ read. DenotesNetlist (lines_from lines.now from) read.net read.plan) }
    ensures exact { IfOk result (λ read. read.net ≡ net_from lines.now from) }
    ensures of_net { IfOk result (λ read. IsPlanOf read.net.circuit read.plan) }
    ensures allowed { OnOk result (last_netlist_refusal lines.now from ≡ None) }
    ensures refused { IfErr result (IsRefusedBy (last_netlist_refusal lines.now from)) }
{
    match last_listed(alloc, lines, from) {
        Ok(read) => Ok(read),
        Err(refusal) => Err(unless_stateless(
            alloc,
            lines,
            from,
            refusal,
            left_or_stateless(lines, from),
        )),
    }
}

/// The netlist with its plan that the section of the lines from the place `from` on denotes, whatever stands after it.
///
/// # Errors
///
/// The first refusal of the section; registers of which no states are listed; or want of memory.
pub fn netlist_section(alloc: Global, lines: &Lines, from: usize) -> Result<PlannedNetlist, Refusal>
    requires within { from ≤ length lines.now }
    ensures denoted { IfOk result (λ read. DenotesNetlist (lines_from lines.now from) read.net read.plan) }
    ensures exact { IfOk result (λ read. read.net ≡ net_from lines.now from) }
    ensures of_net { IfOk result (λ read. IsPlanOf read.net.circuit read.plan) }
    ensures latches { IfOk result (λ read. length read.net.circuit.latches ≤ 64) }
    ensures nets { IfOk result (λ read. nets read.net.circuit ≤ most_nets) }
    ensures allowed { OnOk result (netlist_section_refusal lines.now from ≡ None) }
    ensures refused { IfErr result (IsRefusedBy (netlist_section_refusal lines.now from)) }
{
    match netlist_from(alloc, lines, from) {
        Ok(read) => Ok(read),
        Err(refusal) => Err(unless_stateless(alloc, lines, from, refusal, TextRefusal::NoStates)),
    }
}

/// Why there is no netlist: what is told where the section of the lines from the place `from` on lacks states, or what was given.
fn unless_stateless(
    alloc: Global,
    lines: &Lines,
    from: usize,
    given: Refusal,
    stateless: TextRefusal,
) -> Refusal
    requires within { from ≤ length lines.now }
    ensures refused { (first : Option TextRefusal) → IsRefusedBy first given → IsRefusedBy (if lacks_states lines.now from then Some stateless else first) result }
{
    match given {
        Refusal::Memory(error) => Refusal::Memory(error),
        given => match lacks_states(alloc, lines, from) {
            Ok(true) => Refusal::Text(stateless),
            Ok(false) => given,
            Err(error) => Refusal::Memory(error),
        },
    }
}

/// Whether the section of the lines from the place `from` on has registers, and a plan that lists no states of them.
fn lacks_states(alloc: Global, lines: &Lines, from: usize) -> Result<bool, AllocError>
    requires within { from ≤ length lines.now }
    ensures lacks { IfOk result (λ lacks. lacks ≡ lacks_states lines.now from) }
{
    let text = match text_from(alloc, lines, from, Kind::AnyPlan) {
        Ok(text) => text,
        Err(Refusal::Memory(error)) => return Err(error),
        Err(_) => return Ok(false),
    };
    match &text.plan {
        Some(plan) => Ok(lists_none(&text.net, plan)),
        None => Ok(false),
    }
}

/// Whether a netlist has registers of which a plan lists no states.
fn lists_none(net: &Netlist, plan: &Plan) -> bool
    ensures none { result ≡ (nat_lt 0 (length net.now.circuit.latches) && length plan.now.states == 0) }
{
    net.latches() > 0 && plan.states.len() == 0
}

/// What refuses the lines from the place `from` on where nothing but missing states refuses their section: a line after it, or that.
fn left_or_stateless(lines: &Lines, from: usize) -> TextRefusal
    requires within { from ≤ length lines.now }
    ensures first { first_of (left_behind lines.now from) (Some TextRefusal.NoStates) ≡ Some result }
{
    let next = lines.section(from, End::Blif).next;
    if next < lines.len() {
        return TextRefusal::AfterTheEnd {
            line: lines.number(next),
        };
    }
    TextRefusal::NoStates
}
