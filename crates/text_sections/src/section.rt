//! Reading a text as one section, or a section of it.
ghost use Rattle.std.specs.Prelude.{◌≡◌, ◌≤◌, None, length, IfOk, IfErr, IfSome, OnOk};
ghost use Rattle.fault_secure.specs.Circuit.{nets};
ghost use Rattle.fault_secure.specs.CodePlan.{IsPlanOf};
ghost use Rattle.tsc_net.specs.NetlistOf.{named_of, netlist_of};
ghost use Rattle.tsc_net.specs.Limits.{most_nets};
ghost use Rattle.tsc_bits.specs.Lists.{AreApart};
ghost use Rattle.tsc_text.specs.Bytes.{bad_line};
ghost use Rattle.tsc_text.specs.Lines.{lines_of};
ghost use Rattle.blif_read.specs.Clocks.{clock_text};
ghost use Rattle.blif_read.specs.Denotes.{DenotesNetlist, DenotesSource, plan_circuit, plan_text};
ghost use Rattle.blif_read.specs.NamedText.{named_text};
ghost use Rattle.blif_write.specs.Told.{IsTellable, IsToldClock};
ghost use Rattle.blif_write.specs.Writable.{IsWritable};
ghost use Rattle.text_sections.specs.Refused.{IsRefusedBy, as_refusal, behind_refusal, byte_refusal, first_refusal, last_refusal, lines_refusal, refusal_from, text_refusal};
ghost use Rattle.text_sections.specs.Denoted.{first_any_plan, first_lines, first_net, first_section, lines_from, net_from};

use blif_read::{BlifError, BlifText, Kind, read_blif};
use blif_write::read_nets_are_writable;
use refusals::{Refusal, TextRefusal};
use std::alloc::Global;
use tsc_io::Bytes;
use tsc_net::{Netlist, PlannedNetlist};
use tsc_text::{End, Lines, TextError};

/// The network that `text` denotes, all of whose lines belong to it.
///
/// # Errors
///
/// The first refusal of the text, or want of memory.
pub fn read_source(alloc: Global, text: &Bytes) -> Result<Netlist, Refusal>
    requires short { length text.now ≤ 67108864 }
    ensures denoted { IfOk result (DenotesSource (first_lines (lines_of text.now))) }
    ensures exact { IfOk result (λ source. source ≡ netlist_of (named_text (first_lines (lines_of text.now)))) }
    ensures combinational { IfOk result (λ source. length source.circuit.latches ≡ 0) }
    ensures few { IfOk result (λ source. length source.circuit.outputs ≤ 64) }
    ensures once { IfOk result (λ source. AreApart source.circuit.outputs) }
    ensures writable { IfOk result (λ source. IsWritable source) }
    ensures allowed { OnOk result (text_refusal Kind.Source text.now ≡ None) }
    ensures refused { IfErr result (IsRefusedBy (text_refusal Kind.Source text.now)) }
{
    read_nets_are_writable();
    let lines = text_lines(alloc, text)?;
    let source = source_of(alloc, &lines)?;
    Ok(source)
}

/// The network with registers that `text` denotes, all of whose lines belong to it, and their clock. It may have no registers.
///
/// # Errors
///
/// The first refusal of the text, or want of memory.
pub fn read_registers(alloc: Global, text: &Bytes) -> Result<BlifText, Refusal>
    requires short { length text.now ≤ 67108864 }
    ensures exact { IfOk result (λ source. source.net ≡ netlist_of (named_text (first_lines (lines_of text.now)))) }
    ensures clock { IfOk result (λ source. source.clock ≡ clock_text Kind.Registers (first_lines (lines_of text.now))) }
    ensures latches { IfOk result (λ source. length source.net.circuit.latches ≤ 16384) }
    ensures few { IfOk result (λ source. length source.net.circuit.outputs ≤ 64) }
    ensures once { IfOk result (λ source. AreApart source.net.circuit.outputs) }
    ensures writable { IfOk result (λ source. length source.net.circuit.latches ≡ 0 → IsWritable source.net) }
    ensures tellable { IfOk result (λ source. IsTellable source.net) }
    ensures told { IfOk result (λ source. IsToldClock source.clock) }
    ensures allowed { OnOk result (text_refusal Kind.Registers text.now ≡ None) }
    ensures refused { IfErr result (IsRefusedBy (text_refusal Kind.Registers text.now)) }
{
    read_nets_are_writable();
    let lines = text_lines(alloc, text)?;
    let source = registers_of(alloc, &lines)?;
    Ok(source)
}

/// The network with registers that the lines denote, all of which belong to it, and their clock.
fn registers_of(alloc: Global, lines: &Lines) -> Result<BlifText, Refusal>
    ensures exact { IfOk result (λ source. source.net ≡ netlist_of (named_text (first_lines lines.now))) }
    ensures clock { IfOk result (λ source. source.clock ≡ clock_text Kind.Registers (first_lines lines.now)) }
    ensures latches { IfOk result (λ source. length source.net.circuit.latches ≤ 16384) }
    ensures few { IfOk result (λ source. length source.net.circuit.outputs ≤ 64) }
    ensures once { IfOk result (λ source. AreApart source.net.circuit.outputs) }
    ensures allowed { OnOk result (lines_refusal Kind.Registers lines.now ≡ None) }
    ensures refused { IfErr result (IsRefusedBy (lines_refusal Kind.Registers lines.now)) }
{
    match last_text(alloc, lines, 0, Kind::Registers) {
        Ok(text) => Ok(text),
        Err(refusal) => Err(refusal),
    }
}

/// The netlist that `text` denotes, all of whose lines belong to it, with a plan that may list no states.
///
/// # Errors
///
/// The first refusal of the text, or want of memory.
pub fn read_any_netlist(alloc: Global, text: &Bytes) -> Result<Netlist, Refusal>
    requires short { length text.now ≤ 67108864 }
    ensures exact { IfOk result (λ net. net ≡ netlist_of (named_text (first_lines (lines_of text.now)))) }
    ensures allowed { OnOk result (text_refusal Kind.AnyPlan text.now ≡ None) }
    ensures refused { IfErr result (IsRefusedBy (text_refusal Kind.AnyPlan text.now)) }
{
    let lines = text_lines(alloc, text)?;
    let net = any_netlist_of(alloc, &lines)?;
    Ok(net)
}

/// The netlist that the lines denote, all of which belong to it, with a plan that may list no states.
fn any_netlist_of(alloc: Global, lines: &Lines) -> Result<Netlist, Refusal>
    ensures exact { IfOk result (λ net. net ≡ netlist_of (named_text (first_lines lines.now))) }
    ensures allowed { OnOk result (lines_refusal Kind.AnyPlan lines.now ≡ None) }
    ensures refused { IfErr result (IsRefusedBy (lines_refusal Kind.AnyPlan lines.now)) }
{
    match last_text(alloc, lines, 0, Kind::AnyPlan) {
        Ok(text) => Ok(text.net),
        Err(refusal) => Err(refusal),
    }
}

/// The lines of a text.
///
/// # Errors
///
/// The first byte that a text may not hold, or want of memory.
pub fn text_lines<'a>(alloc: Global, text: &'a Bytes) -> Result<Lines<'a>, Refusal>
    requires short { length text.now ≤ 67108864 }
    ensures lines { IfOk result (λ lines. lines ≡ lines_of text.now) }
    ensures allowed { OnOk result (bad_line text.now ≡ None) }
    ensures refused { IfErr result (IsRefusedBy (byte_refusal (bad_line text.now))) }
{
    match Lines::of(alloc, text) {
        Ok(lines) => Ok(lines),
        Err(TextError::BadByte { line }) => Err(Refusal::Text(TextRefusal::BadByte { line })),
        Err(TextError::Memory(error)) => Err(Refusal::Memory(error)),
    }
}

/// The network that the lines denote, all of which belong to it.
fn source_of(alloc: Global, lines: &Lines) -> Result<Netlist, Refusal>
    ensures denoted { IfOk result (DenotesSource (first_lines lines.now)) }
    ensures exact { IfOk result (λ source. source ≡ netlist_of (named_text (first_lines lines.now))) }
    ensures combinational { IfOk result (λ source. length source.circuit.latches ≡ 0) }
    ensures few { IfOk result (λ source. length source.circuit.outputs ≤ 64) }
    ensures once { IfOk result (λ source. AreApart source.circuit.outputs) }
    ensures allowed { OnOk result (lines_refusal Kind.Source lines.now ≡ None) }
    ensures refused { IfErr result (IsRefusedBy (lines_refusal Kind.Source lines.now)) }
{
    match last_text(alloc, lines, 0, Kind::Source) {
        Ok(text) => Ok(text.net),
        Err(refusal) => Err(refusal),
    }
}

/// The network that the first section of the lines denotes, whatever stands after it.
///
/// # Errors
///
/// The first refusal of the lines, or want of memory.
pub fn first_source(alloc: Global, lines: &Lines) -> Result<Netlist, Refusal>
    ensures exact { IfOk result (λ source. source ≡ first_net lines.now) }
    ensures combinational { IfOk result (λ source. length source.circuit.latches ≡ 0) }
    ensures inputs { IfOk result (λ source. source.circuit.inputs ≤ 1024) }
    ensures nets { IfOk result (λ source. nets source.circuit ≤ most_nets) }
    ensures allowed { OnOk result (first_refusal Kind.Source lines.now ≡ None) }
    ensures refused { IfErr result (IsRefusedBy (first_refusal Kind.Source lines.now)) }
{
    match text_from(alloc, lines, 0, Kind::Source) {
        Ok(text) => Ok(text.net),
        Err(refusal) => Err(refusal),
    }
}

/// The netlist with its plan that the lines from the place `from` on denote, all of which belong to it. Where it has registers, the plan
/// has to list their states.
///
/// # Errors
///
/// The first refusal of the lines, or want of memory.
pub fn last_listed(alloc: Global, lines: &Lines, from: usize) -> Result<PlannedNetlist, Refusal>
    requires within { from ≤ length lines.now }
    ensures denoted { IfOk result (λ read. DenotesNetlist (lines_from lines.now from) read.net read.plan) }
    ensures exact { IfOk result (λ read. read.net ≡ net_from lines.now from) }
    ensures of_net { IfOk result (λ read. IsPlanOf read.net.circuit read.plan) }
    ensures allowed { OnOk result (last_refusal Kind.Netlist lines.now from ≡ None) }
    ensures refused { IfErr result (IsRefusedBy (last_refusal Kind.Netlist lines.now from)) }
{
    let BlifText {
        net,
        plan,
        clock: _,
    } = match last_text(alloc, lines, from, Kind::Netlist) {
        Ok(text) => text,
        Err(refusal) => return Err(refusal),
    };
    match plan {
        Some(plan) => Ok(PlannedNetlist { net, plan }),
        None => Err(Refusal::Text(TextRefusal::Blif {
            kind: Kind::Netlist,
            error: BlifError::NoPlan,
        })),
    }
}

/// The netlist that the lines from the place `from` on denote, all of which belong to it, its plan lines passed over.
///
/// # Errors
///
/// No line from there on; the first refusal of the lines; or want of memory.
pub fn unplanned_behind(alloc: Global, lines: &Lines, from: usize) -> Result<Netlist, Refusal>
    requires within { from ≤ length lines.now }
    ensures exact { IfOk result (λ net. net ≡ net_from lines.now from) }
    ensures latches { IfOk result (λ net. length net.circuit.latches ≤ 32768) }
    ensures nets { IfOk result (λ net. nets net.circuit ≤ most_nets) }
    ensures allowed { OnOk result (behind_refusal Kind.Unplanned lines.now from ≡ None) }
    ensures refused { IfErr result (IsRefusedBy (behind_refusal Kind.Unplanned lines.now from)) }
{
    if from >= lines.len() {
        return Err(Refusal::Text(TextRefusal::NoNetlist));
    }
    match last_text(alloc, lines, from, Kind::Unplanned) {
        Ok(text) => Ok(text.net),
        Err(refusal) => Err(refusal),
    }
}

/// What the lines from the place `from` on denote as a section of this kind, all of which belong to it.
fn last_text(alloc: Global, lines: &Lines, from: usize, kind: Kind) -> Result<BlifText, Refusal>
    requires within { from ≤ length lines.now }
    ensures named { IfOk result (λ text. named_of text.net ≡ named_text (lines_from lines.now from)) }
    ensures exact { IfOk result (λ text. text.net ≡ net_from lines.now from) }
    ensures plan { IfOk result (λ text. text.plan ≡ plan_text kind (lines_from lines.now from) text.net) }
    ensures clock { IfOk result (λ text. text.clock ≡ clock_text kind (lines_from lines.now from)) }
    ensures of_net { IfOk result (λ text. IfSome text.plan (IsPlanOf (plan_circuit kind (lines_from lines.now from) text.net))) }
    ensures allowed { OnOk result (last_refusal kind lines.now from ≡ None) }
    ensures refused { IfErr result (IsRefusedBy (last_refusal kind lines.now from)) }
{
    let text = match text_from(alloc, lines, from, kind) {
        Ok(text) => text,
        Err(refusal) => return Err(refusal),
    };
    let next = lines.section(from, End::Blif).next;
    if next < lines.len() {
        return Err(Refusal::Text(TextRefusal::AfterTheEnd {
            line: lines.number(next),
        }));
    }
    Ok(text)
}

/// The netlist that the first section of the lines denotes, with its plan, which may list no states, whatever stands after it.
///
/// # Errors
///
/// The first refusal of the lines, or want of memory.
pub fn first_any_netlist(alloc: Global, lines: &Lines) -> Result<PlannedNetlist, Refusal>
    ensures exact { IfOk result (λ read. read.net ≡ first_net lines.now) }
    ensures plan { IfOk result (λ read. read.plan ≡ first_any_plan lines.now) }
    ensures of_net { IfOk result (λ read. IsPlanOf (plan_circuit Kind.AnyPlan (first_lines lines.now) read.net) read.plan) }
    ensures nets { IfOk result (λ read. nets read.net.circuit ≤ most_nets) }
    ensures allowed { OnOk result (first_refusal Kind.AnyPlan lines.now ≡ None) }
    ensures refused { IfErr result (IsRefusedBy (first_refusal Kind.AnyPlan lines.now)) }
{
    let BlifText {
        net,
        plan,
        clock: _,
    } = match text_from(alloc, lines, 0, Kind::AnyPlan) {
        Ok(text) => text,
        Err(refusal) => return Err(refusal),
    };
    match plan {
        Some(plan) => Ok(PlannedNetlist { net, plan }),
        None => Err(Refusal::Text(TextRefusal::Blif {
            kind: Kind::AnyPlan,
            error: BlifError::NoPlan,
        })),
    }
}

/// The netlist with its plan that the section of the lines from the place `from` on denotes, whatever stands after it. Where it has
/// registers, the plan has to list their states.
///
/// # Errors
///
/// The first refusal of the section, or want of memory.
pub fn netlist_from(alloc: Global, lines: &Lines, from: usize) -> Result<PlannedNetlist, Refusal>
    requires within { from ≤ length lines.now }
    ensures denoted { IfOk result (λ read. DenotesNetlist (lines_from lines.now from) read.net read.plan) }
    ensures exact { IfOk result (λ read. read.net ≡ net_from lines.now from) }
    ensures of_net { IfOk result (λ read. IsPlanOf read.net.circuit read.plan) }
    ensures latches { IfOk result (λ read. length read.net.circuit.latches ≤ 64) }
    ensures nets { IfOk result (λ read. nets read.net.circuit ≤ most_nets) }
    ensures allowed { OnOk result (refusal_from Kind.Netlist lines.now from ≡ None) }
    ensures refused { IfErr result (IsRefusedBy (refusal_from Kind.Netlist lines.now from)) }
{
    let BlifText {
        net,
        plan,
        clock: _,
    } = match text_from(alloc, lines, from, Kind::Netlist) {
        Ok(text) => text,
        Err(refusal) => return Err(refusal),
    };
    match plan {
        Some(plan) => Ok(PlannedNetlist { net, plan }),
        None => Err(Refusal::Text(TextRefusal::Blif {
            kind: Kind::Netlist,
            error: BlifError::NoPlan,
        })),
    }
}

/// The place after the first section of the lines.
pub fn behind_first(lines: &Lines) -> usize
    ensures behind { result ≡ (first_section lines.now).next }
    ensures within { result ≤ length lines.now }
{
    lines.section(0, End::Blif).next
}

/// What the section of the lines from the place `from` on denotes, as one of this kind.
pub fn text_from(alloc: Global, lines: &Lines, from: usize, kind: Kind) -> Result<BlifText, Refusal>
    requires within { from ≤ length lines.now }
    ensures named { IfOk result (λ text. named_of text.net ≡ named_text (lines_from lines.now from)) }
    ensures exact { IfOk result (λ text. text.net ≡ net_from lines.now from) }
    ensures plan { IfOk result (λ text. text.plan ≡ plan_text kind (lines_from lines.now from) text.net) }
    ensures clock { IfOk result (λ text. text.clock ≡ clock_text kind (lines_from lines.now from)) }
    ensures of_net { IfOk result (λ text. IfSome text.plan (IsPlanOf (plan_circuit kind (lines_from lines.now from) text.net))) }
    ensures allowed { OnOk result (refusal_from kind lines.now from ≡ None) }
    ensures refused { IfErr result (IsRefusedBy (refusal_from kind lines.now from)) }
{
    match read_blif(alloc, lines, lines.section(from, End::Blif), kind) {
        Ok(text) => Ok(text),
        Err(error) => Err(as_refusal(kind, error)),
    }
}

/// The refusal of a section of this kind with this error.
fn as_refusal(kind: Kind, error: BlifError) -> Refusal
    ensures refusal { result ≡ as_refusal kind error }
{
    match error {
        BlifError::Memory(error) => Refusal::Memory(error),
        error => Refusal::Text(TextRefusal::Blif { kind, error }),
    }
}
