//! The audit of a text: of the netlist after a source.
ghost use Rattle.std.specs.Prelude.{◌≡◌, ◌≤◌, None, length, IfErr, IfOk, OnOk};
ghost use Rattle.audit.specs.Laws.{IsSecureWhereYes};
ghost use Rattle.audit.specs.Shown.{IsShownIn};
ghost use Rattle.audit.specs.Verdict.{IsVerdict};
ghost use Rattle.tsc_net.specs.SourceView.{logic_of};
ghost use Rattle.behaviour_audit.specs.Meaning.{FitsABench};
ghost use Rattle.fault_secure.specs.Circuit.{nets};
ghost use Rattle.fault_secure.specs.CodePlan.{IsPlanOf};
ghost use Rattle.tsc_net.specs.Limits.{most_nets};
ghost use Rattle.netlist_answers.specs.Audited.{ending_of, logic_in};
ghost use Rattle.netlist_answers.specs.Answers.{IsLinesReply, IsVerdictReply, IsVerdictReplyOf};
ghost use Rattle.text_sections.specs.Denoted.{behind_source, net_from, plan_from, source_of};
ghost use Rattle.text_sections.specs.Refused.{IsRefusedBy, netlist_refusal, source_refusal};
ghost use Rattle.netlist_answers.specs.Refused.{audit_behind_refusal, audit_lines_refusal, audit_points_refusal, audit_refusal, has_too_many_audit_points};
ghost use Rattle.netlist_answers.specs.VerdictText.{verdict_text};

use crate::reply::Reply;
use crate::verdict_line::verdict_text;
use audit::{AuditError, SourceMeaning, Verdict, audit};
use commands::SourceFormat;
use refusals::{Ending, Limit, Refusal, TextRefusal};
use std::alloc::{AllocError, Global};
use text_sections::{
    behind_first, first_machine, first_source, first_table, last_netlist, text_lines,
};
use tsc_io::Bytes;
use tsc_net::{Loose, Machine, Netlist, PlannedNetlist};
use tsc_text::{End, Lines};

/// The source of an audit, as it was read.
#[derive(Drop)]
pub enum AuditSource {
    /// A network.
    Network(Netlist),
    /// A machine.
    Machine(Machine),
    /// A network with free bits.
    Loose(Loose),
}

/// The audit of the netlist after the source of this format that `text` begins with.
///
/// # Errors
///
/// The first refusal of the text, or want of memory.
pub fn audit_text(alloc: Global, format: SourceFormat, text: &Bytes) -> Result<Reply, Refusal>
    requires short { length text.now ≤ 67108864 }
    ensures answers { IfOk result (λ reply. IsVerdictReply reply.ending format text.now reply.bytes) }
    ensures allowed { OnOk result (audit_refusal format text.now ≡ None) }
    ensures refused { IfErr result (IsRefusedBy (audit_refusal format text.now)) }
{
    let lines = text_lines(alloc, text)?;
    audit_lines(alloc, format, &lines)
}

/// The audit of the netlist after the source of this format that the lines begin with.
fn audit_lines(alloc: Global, format: SourceFormat, lines: &Lines) -> Result<Reply, Refusal>
    ensures answers { IfOk result (λ reply. IsLinesReply reply.ending format lines.now reply.bytes) }
    ensures allowed { OnOk result (audit_lines_refusal format lines.now ≡ None) }
    ensures refused { IfErr result (IsRefusedBy (audit_lines_refusal format lines.now)) }
{
    let source = audit_source(alloc, format, lines)?;
    audit_behind(alloc, &source, lines, behind_source(format, lines))
}

/// The audit, against a source, of the netlist that the lines from the place `from` on denote.
fn audit_behind(
    alloc: Global,
    source: &AuditSource,
    lines: &Lines,
    from: usize,
) -> Result<Reply, Refusal>
    requires within { from ≤ length lines.now }
    requires auditable { FitsABench (logic_in source.now) }
    ensures answers { IfOk result (λ reply. IsVerdictReplyOf reply.ending (logic_in source.now) (net_from lines.now from) (plan_from lines.now from) reply.bytes) }
    ensures allowed { OnOk result (audit_behind_refusal lines.now from (logic_in source.now) ≡ None) }
    ensures refused { IfErr result (IsRefusedBy (audit_behind_refusal lines.now from (logic_in source.now))) }
{
    let read = netlist_behind(alloc, lines, from)?;
    audit_read(alloc, source, &read)
}

/// The audit of a netlist with its plan against a source.
fn audit_read(alloc: Global, source: &AuditSource, read: &PlannedNetlist) -> Result<Reply, Refusal>
    requires auditable { FitsABench (logic_in source.now) }
    requires plan { IsPlanOf read.now.net.circuit read.now.plan }
    requires latches { length read.now.net.circuit.latches ≤ 64 }
    requires nets { nets read.now.net.circuit ≤ most_nets }
    ensures answers { IfOk result (λ reply. IsVerdictReplyOf reply.ending (logic_in source.now) read.now.net read.now.plan reply.bytes) }
    ensures few { OnOk result (audit_points_refusal (has_too_many_audit_points (logic_in source.now)) ≡ None) }
    ensures refused { IfErr result (IsRefusedBy (audit_points_refusal (has_too_many_audit_points (logic_in source.now)))) }
{
    let verdict = verdict_on(alloc, source, read)?;
    match reply_of(alloc, &read.net, verdict) {
        Ok(reply) => Ok(reply),
        Err(error) => Err(Refusal::Memory(error)),
    }
}

/// The source of this format that the lines begin with.
///
/// # Errors
///
/// The first refusal of its section, or want of memory.
pub fn audit_source(
    alloc: Global,
    format: SourceFormat,
    lines: &Lines,
) -> Result<AuditSource, Refusal>
    ensures source { IfOk result (λ source. logic_in source ≡ source_of format lines.now) }
    ensures auditable { IfOk result (λ source. FitsABench (logic_in source)) }
    ensures allowed { OnOk result (source_refusal format lines.now ≡ None) }
    ensures refused { IfErr result (IsRefusedBy (source_refusal format lines.now)) }
{
    match format {
        SourceFormat::Blif => match first_source(alloc, lines) {
            Ok(net) => Ok(AuditSource::Network(net)),
            Err(refusal) => Err(refusal),
        },
        SourceFormat::Kiss => match first_machine(alloc, lines) {
            Ok(text) => Ok(AuditSource::Machine(text.machine)),
            Err(refusal) => Err(refusal),
        },
        SourceFormat::Pla => match first_table(alloc, lines) {
            Ok(text) => Ok(AuditSource::Loose(text.loose)),
            Err(refusal) => Err(refusal),
        },
    }
}

/// The place after the source of this format that the lines begin with.
pub fn behind_source(format: SourceFormat, lines: &Lines) -> usize
    ensures behind { result ≡ behind_source format lines.now }
    ensures within { result ≤ length lines.now }
{
    match format {
        SourceFormat::Blif => behind_first(lines),
        SourceFormat::Kiss | SourceFormat::Pla => lines.section(0, End::Kiss).next,
    }
}

/// The netlist with its plan that the lines from the place `from` on denote, all of which belong to it.
///
/// # Errors
///
/// There is no line; the first refusal of the section; a line left behind it; registers of which no states are listed; or want of memory.
pub fn netlist_behind(alloc: Global, lines: &Lines, from: usize) -> Result<PlannedNetlist, Refusal>
    requires within { from ≤ length lines.now }
    ensures net { IfOk result (λ read. read.net ≡ net_from lines.now from) }
    ensures plan { IfOk result (λ read. read.plan ≡ plan_from lines.now from) }
    ensures of_net { IfOk result (λ read. IsPlanOf read.net.circuit read.plan) }
    ensures latches { IfOk result (λ read. length read.net.circuit.latches ≤ 64) }
    ensures nets { IfOk result (λ read. nets read.net.circuit ≤ most_nets) }
    ensures allowed { OnOk result (netlist_refusal lines.now from ≡ None) }
    ensures refused { IfErr result (IsRefusedBy (netlist_refusal lines.now from)) }
{
    if from >= lines.len() {
        return Err(Refusal::Text(TextRefusal::NoNetlist));
    }
    match last_netlist(alloc, lines, from) {
        Ok(read) => Ok(read),
        Err(refusal) => Err(refusal),
    }
}

/// The verdict on a netlist with its plan against a source.
fn verdict_on(
    alloc: Global,
    source: &AuditSource,
    read: &PlannedNetlist,
) -> Result<Verdict, Refusal>
    requires source { FitsABench (logic_in source.now) }
    requires plan { IsPlanOf read.now.net.circuit read.now.plan }
    requires latches { length read.now.net.circuit.latches ≤ 64 }
    requires nets { nets read.now.net.circuit ≤ most_nets }
    ensures verdict { IfOk result (IsVerdict (logic_in source.now) read.now.net.circuit read.now.plan) }
    ensures shown { IfOk result (IsShownIn read.now.net.circuit) }
    ensures secure { IfOk result (IsSecureWhereYes (logic_in source.now) read.now.net.circuit read.now.plan) }
    ensures few { OnOk result (audit_points_refusal (has_too_many_audit_points (logic_in source.now)) ≡ None) }
    ensures refused { IfErr result (IsRefusedBy (audit_points_refusal (has_too_many_audit_points (logic_in source.now)))) }
{
    match audit(alloc, &meaning_of(source), &read.net, &read.plan) {
        Ok(verdict) => Ok(verdict),
        Err(AuditError::TooManyPoints) => Err(Refusal::Text(TextRefusal::TooMany(
            Limit::AuditPoints,
        ))),
        Err(AuditError::Memory(error)) => Err(Refusal::Memory(error)),
    }
}

/// What a source means.
pub fn meaning_of<'a>(source: &'a AuditSource) -> SourceMeaning<'a>
    ensures logic { logic_of result ≡ logic_in source.now }
{
    match source {
        AuditSource::Network(net) => SourceMeaning::Network(net),
        AuditSource::Machine(machine) => SourceMeaning::Machine(machine),
        AuditSource::Loose(loose) => SourceMeaning::Loose(loose),
    }
}

/// What an audit answers with this verdict on a netlist.
fn reply_of(alloc: Global, net: &Netlist, verdict: Verdict) -> Result<Reply, AllocError>
    requires shown { IsShownIn net.now.circuit verdict }
    ensures text { IfOk result (λ reply. reply.bytes ≡ verdict_text net.now verdict) }
    ensures ending { IfOk result (λ reply. reply.ending ≡ ending_of verdict) }
{
    let bytes = verdict_text(alloc, net, verdict)?;
    Ok(Reply {
        bytes,
        ending: ending_of(verdict),
    })
}

/// How an audit with this verdict ends.
fn ending_of(verdict: Verdict) -> Ending
    ensures ending { result ≡ ending_of verdict }
{
    match verdict {
        Verdict::Yes => Ending::Finished,
        Verdict::No(_) => Ending::Rejected,
    }
}
