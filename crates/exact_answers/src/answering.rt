//! The exact audit of a text: of the netlist after a source.
ghost use Rattle.std.specs.Prelude.{◌≡◌, ◌≤◌, None, length, IfErr, IfOk, OnOk};
ghost use Rattle.behaviour_audit.specs.Meaning.{FitsABench};
ghost use Rattle.exact_audit.specs.ExactVerdict.{IsExactIn, IsExactVerdict};
ghost use Rattle.fault_secure.specs.Circuit.{nets};
ghost use Rattle.fault_secure.specs.CodePlan.{IsPlanOf};
ghost use Rattle.tsc_net.specs.Limits.{most_nets};
ghost use Rattle.netlist_answers.specs.Audited.{logic_in};
ghost use Rattle.netlist_answers.specs.Refused.{audit_behind_refusal, audit_lines_refusal, audit_points_refusal, audit_refusal, has_too_many_audit_points};
ghost use Rattle.text_sections.specs.Denoted.{net_from, plan_from};
ghost use Rattle.text_sections.specs.Refused.{IsRefusedBy};
ghost use Rattle.exact_answers.specs.ExactReply.{IsExactLinesReply, IsExactReply, IsExactReplyOf, IsShownWhereYes, exact_ending};
ghost use Rattle.exact_answers.specs.ExactText.{exact_text};

use crate::exact_line::exact_text;
use commands::SourceFormat;
use exact_audit::{AuditError, ExactVerdict, exact_audit};
use netlist_answers::{
    AuditSource, Reply, audit_source, behind_source, meaning_of, netlist_behind,
};
use refusals::{Ending, Limit, Refusal, TextRefusal};
use std::alloc::{AllocError, Global};
use text_sections::text_lines;
use tsc_io::Bytes;
use tsc_net::{Netlist, PlannedNetlist};
use tsc_text::Lines;

/// Whether the netlist after the source of this format that `text` begins with follows it, and no one failing cell makes a wrong output or
/// next bit without an alarm. It is decided at every listed state and input; if not, the first reason.
///
/// # Errors
///
/// The first refusal of the text, or want of memory.
pub fn audit_exactly(alloc: Global, format: SourceFormat, text: &Bytes) -> Result<Reply, Refusal>
    requires short { length text.now ≤ 67108864 }
    ensures answers { IfOk result (λ reply. IsExactReply reply.ending format text.now reply.bytes) }
    ensures allowed { OnOk result (audit_refusal format text.now ≡ None) }
    ensures refused { IfErr result (IsRefusedBy (audit_refusal format text.now)) }
{
    let lines = text_lines(alloc, text)?;
    exact_lines(alloc, format, &lines)
}

/// The exact audit of the netlist after the source of this format that the lines begin with.
fn exact_lines(alloc: Global, format: SourceFormat, lines: &Lines) -> Result<Reply, Refusal>
    ensures answers { IfOk result (λ reply. IsExactLinesReply reply.ending format lines.now reply.bytes) }
    ensures allowed { OnOk result (audit_lines_refusal format lines.now ≡ None) }
    ensures refused { IfErr result (IsRefusedBy (audit_lines_refusal format lines.now)) }
{
    let source = audit_source(alloc, format, lines)?;
    exact_behind(alloc, &source, lines, behind_source(format, lines))
}

/// The exact audit, against a source, of the netlist that the lines from the place `from` on denote.
fn exact_behind(
    alloc: Global,
    source: &AuditSource,
    lines: &Lines,
    from: usize,
) -> Result<Reply, Refusal>
    requires within { from ≤ length lines.now }
    requires auditable { FitsABench (logic_in source.now) }
    ensures answers { IfOk result (λ reply. IsExactReplyOf reply.ending (logic_in source.now) (net_from lines.now from) (plan_from lines.now from) reply.bytes) }
    ensures allowed { OnOk result (audit_behind_refusal lines.now from (logic_in source.now) ≡ None) }
    ensures refused { IfErr result (IsRefusedBy (audit_behind_refusal lines.now from (logic_in source.now))) }
{
    let read = netlist_behind(alloc, lines, from)?;
    exact_read(alloc, source, &read)
}

/// The exact audit of a netlist with its plan against a source.
fn exact_read(alloc: Global, source: &AuditSource, read: &PlannedNetlist) -> Result<Reply, Refusal>
    requires auditable { FitsABench (logic_in source.now) }
    requires plan { IsPlanOf read.now.net.circuit read.now.plan }
    requires latches { length read.now.net.circuit.latches ≤ 64 }
    requires nets { nets read.now.net.circuit ≤ most_nets }
    ensures answers { IfOk result (λ reply. IsExactReplyOf reply.ending (logic_in source.now) read.now.net read.now.plan reply.bytes) }
    ensures few { OnOk result (audit_points_refusal (has_too_many_audit_points (logic_in source.now)) ≡ None) }
    ensures refused { IfErr result (IsRefusedBy (audit_points_refusal (has_too_many_audit_points (logic_in source.now)))) }
{
    let verdict = exact_on(alloc, source, read)?;
    match reply_of(alloc, &read.net, verdict) {
        Ok(reply) => Ok(reply),
        Err(error) => Err(Refusal::Memory(error)),
    }
}

/// The exact verdict on a netlist with its plan against a source.
fn exact_on(
    alloc: Global,
    source: &AuditSource,
    read: &PlannedNetlist,
) -> Result<ExactVerdict, Refusal>
    requires source { FitsABench (logic_in source.now) }
    requires plan { IsPlanOf read.now.net.circuit read.now.plan }
    requires latches { length read.now.net.circuit.latches ≤ 64 }
    requires nets { nets read.now.net.circuit ≤ most_nets }
    ensures verdict { IfOk result (IsExactVerdict (logic_in source.now) read.now.net.circuit read.now.plan) }
    ensures shown { IfOk result (IsExactIn read.now.net.circuit) }
    ensures secure { IfOk result (IsShownWhereYes (logic_in source.now) read.now.net read.now.plan) }
    ensures few { OnOk result (audit_points_refusal (has_too_many_audit_points (logic_in source.now)) ≡ None) }
    ensures refused { IfErr result (IsRefusedBy (audit_points_refusal (has_too_many_audit_points (logic_in source.now)))) }
{
    match exact_audit(alloc, &meaning_of(source), &read.net, &read.plan) {
        Ok(verdict) => Ok(verdict),
        Err(AuditError::TooManyPoints) => Err(Refusal::Text(TextRefusal::TooMany(
            Limit::AuditPoints,
        ))),
        Err(AuditError::Memory(error)) => Err(Refusal::Memory(error)),
    }
}

/// What an exact audit answers with this verdict on a netlist.
fn reply_of(alloc: Global, net: &Netlist, verdict: ExactVerdict) -> Result<Reply, AllocError>
    requires shown { IsExactIn net.now.circuit verdict }
    ensures text { IfOk result (λ reply. reply.bytes ≡ exact_text net.now verdict) }
    ensures ending { IfOk result (λ reply. reply.ending ≡ exact_ending verdict) }
{
    let bytes = exact_text(alloc, net, verdict)?;
    Ok(Reply {
        bytes,
        ending: exact_ending(verdict),
    })
}

/// How an exact audit with this verdict ends.
fn exact_ending(verdict: ExactVerdict) -> Ending
    ensures ending { result ≡ exact_ending verdict }
{
    match verdict {
        ExactVerdict::Yes => Ending::Finished,
        ExactVerdict::No(_) => Ending::Rejected,
    }
}
