//! The wide audit of a text: of the netlist after a network.
ghost use Rattle.std.specs.Prelude.{◌≡◌, ◌≤◌, None, length, IfErr, IfOk, OnOk};
ghost use Rattle.fault_secure.specs.CodePlan.{IsPlanOf};
ghost use Rattle.wide_audit.specs.Laws.{IsSecureWhereYes};
ghost use Rattle.wide_audit.specs.WideVerdict.{IsWideVerdict};
ghost use Rattle.wide_audit.specs.Shown.{IsWideIn};
ghost use Rattle.wide_answers.specs.WideReply.{IsWideReply, IsWideReplyOf, StopsJudged, StopsWide, refusal_by, wide_ending};
ghost use Rattle.wide_answers.specs.WideSections.{wide_refusal};
ghost use Rattle.wide_answers.specs.WideText.{wide_text};

use crate::judged::{JudgedNetlist, judged_netlist};
use crate::wide_line::wide_text;
use commands::RowCount;
use netlist_answers::Reply;
use refusals::{Ending, OwnLimit, Refusal};
use std::alloc::{AllocError, Global};
use tsc_io::Bytes;
use tsc_net::Netlist;
use wide_audit::{WideError, WideVerdict, audit_wide};

/// The audit of the netlist without latches after the network that `text` begins with, whatever the number of inputs, with so many
/// rows of decision diagrams.
///
/// # Errors
///
/// The first refusal of the text, more different cofactors than rows, or want of memory.
pub fn audit_widely(alloc: Global, rows: RowCount, text: &Bytes) -> Result<Reply, Refusal>
    requires short { length text.now ≤ 67108864 }
    ensures answers { IfOk result (λ reply. IsWideReply reply.ending rows text.now reply.bytes) }
    ensures allowed { OnOk result (wide_refusal text.now ≡ None) }
    ensures stopped { IfErr result (StopsWide rows text.now) }
{
    let rows = rows.get();
    let read = match judged_netlist(alloc, text) {
        Ok(read) => read,
        Err(refusal) => return Err(refusal),
    };
    answer_on(alloc, rows, &read)
}

/// The answer on a network and a netlist.
fn answer_on(alloc: Global, rows: usize, read: &JudgedNetlist) -> Result<Reply, Refusal>
    requires source { length read.now.source.circuit.latches ≡ 0 }
    requires inputs { read.now.source.circuit.inputs ≤ 1024 }
    requires plan { IsPlanOf read.now.net.circuit read.now.plan }
    requires some { 2 ≤ rows }
    requires few { rows ≤ 4194304 }
    ensures answers { IfOk result (λ reply. IsWideReplyOf reply.ending rows read.now.source.circuit read.now.net read.now.plan reply.bytes) }
    ensures stopped { IfErr result (StopsJudged rows read.now.source.circuit read.now.net read.now.plan) }
{
    match audit_wide(alloc, &read.source, &read.net, &read.plan, rows) {
        Ok(verdict) => match reply_of(alloc, &read.net, verdict) {
            Ok(reply) => Ok(reply),
            Err(error) => Err(Refusal::Memory(error)),
        },
        Err(error) => Err(refusal_by(error)),
    }
}

/// Why there is no answer where there is no verdict.
fn refusal_by(error: WideError) -> Refusal
    ensures refusal { result ≡ refusal_by error }
{
    match error {
        WideError::Spent { rows } => Refusal::Beyond(OwnLimit::Rows(rows)),
        WideError::Memory(error) => Refusal::Memory(error),
    }
}

/// What a wide audit answers with this verdict on a netlist.
fn reply_of(alloc: Global, net: &Netlist, verdict: WideVerdict) -> Result<Reply, AllocError>
    requires shown { IsWideIn net.now.circuit verdict }
    ensures text { IfOk result (λ reply. reply.bytes ≡ wide_text net.now verdict) }
    ensures ending { IfOk result (λ reply. reply.ending ≡ wide_ending verdict) }
{
    let bytes = wide_text(alloc, net, &verdict)?;
    Ok(Reply {
        bytes,
        ending: wide_ending(&verdict),
    })
}

/// How a wide audit with this verdict ends.
fn wide_ending(verdict: &WideVerdict) -> Ending
    ensures ending { result ≡ wide_ending verdict.now }
{
    match verdict {
        WideVerdict::Yes => Ending::Finished,
        WideVerdict::No(_) => Ending::Rejected,
    }
}
