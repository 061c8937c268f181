//! The answer to a text.
ghost use Rattle.std.specs.Prelude.{◌≡◌, ◌≤◌, ◌↔◌, false, true, None, length, IsTrue, IfErr, IfOk, OnOk};
ghost use Rattle.fault_secure.specs.Settle.{Acyclic};
ghost use Rattle.mapping_audit.specs.MappedAnswer.{IsMappedAnswer, IsSecureWhereYes, IsShownIn};
ghost use Rattle.mapping_audit.specs.declared.answer.MappedAnswer.TheVariants.{No};
ghost use Rattle.mapping_audit.specs.declared.reason.MappedReason.TheVariants.{Inputs};
ghost use Rattle.mapping_answers.specs.MappedReply.{IsClockReason, IsMappedReply, IsReplyOn, StopsMapped, StopsPair};
ghost use Rattle.mapping_answers.specs.MappedSections.{mapped_refusal};

use crate::mapped_line::{no_text, yes_text};
use crate::pair::netlist_pair;
use mapping_audit::{MappedAnswer, MappedReason, mapped_answer};
use netlist_answers::{Reply, finished};
use refusals::{Ending, OwnLimit, Refusal};
use std::alloc::Global;
use tsc_io::Bytes;
use tsc_net::Netlist;

/// Whether the netlist after the first one of `text` is that one mapped cover by cover, and no latch has another clock; if not, the
/// first reason.
///
/// # Errors
///
/// The first refusal of the text, a cover that is too wide to be tried, or want of memory.
pub fn audit_mapped(alloc: Global, text: &Bytes) -> Result<Reply, Refusal>
    requires short { length text.now ≤ 67108864 }
    ensures answers { IfOk result (λ reply. IsMappedReply reply.ending text.now reply.bytes) }
    ensures allowed { OnOk result (mapped_refusal text.now ≡ None) }
    ensures stopped { IfErr result (StopsMapped text.now) }
{
    let pair = match netlist_pair(alloc, text) {
        Ok(pair) => pair,
        Err(refusal) => return Err(refusal),
    };
    answer_on(alloc, &pair.plain, &pair.mapped, pair.other_clock)
}

/// The answer on two netlists, of which some latch has another clock, or none has.
fn answer_on(
    alloc: Global,
    plain: &Netlist,
    mapped: &Netlist,
    other_clock: bool,
) -> Result<Reply, Refusal>
    ensures answers { IfOk result (λ reply. IsReplyOn other_clock reply.ending plain.now mapped.now reply.bytes) }
    ensures stopped { IfErr result (StopsPair other_clock plain.now mapped.now) }
{
    // What the mapped netlist keeps is known from here on.
    let _order = mapped.order();
    match mapped_answer(alloc, plain, mapped) {
        Ok(answer) => {
            if other_clock {
                clock_reply(alloc, plain, mapped, answer)
            } else {
                reply_with(alloc, plain, mapped, answer)
            }
        }
        Err(error) => Err(Refusal::Memory(error)),
    }
}

/// The answer that says this of two netlists, of which no latch has another clock.
fn reply_with(
    alloc: Global,
    plain: &Netlist,
    mapped: &Netlist,
    answer: MappedAnswer,
) -> Result<Reply, Refusal>
    requires answer { IsMappedAnswer plain.now mapped.now answer }
    requires secure { IsSecureWhereYes plain.now mapped.now answer }
    requires shown { IsShownIn plain.now mapped.now answer }
    requires acyclic { Acyclic mapped.now.circuit }
    ensures answers { IfOk result (λ reply. IsReplyOn false reply.ending plain.now mapped.now reply.bytes) }
    ensures stopped { IfErr result (StopsPair false plain.now mapped.now) }
{
    match answer {
        MappedAnswer::Yes => match yes_text(alloc) {
            Ok(bytes) => Ok(finished(bytes)),
            Err(error) => Err(Refusal::Memory(error)),
        },
        MappedAnswer::No(reason) => match no_text(alloc, plain, mapped, reason) {
            Ok(bytes) => Ok(Reply {
                bytes,
                ending: Ending::Rejected,
            }),
            Err(error) => Err(Refusal::Memory(error)),
        },
        MappedAnswer::Wide { .. } => Err(Refusal::Beyond(OwnLimit::Pins)),
    }
}

/// Whether the inputs differ, by the answer on two netlists.
fn has_other_inputs(answer: MappedAnswer) -> bool
    ensures inputs { IsTrue result ↔ (answer ≡ No Inputs) }
{
    match answer {
        MappedAnswer::No(MappedReason::Inputs) => true,
        _ => false,
    }
}

/// The answer where some latch has another clock, by what would be answered if none had.
fn clock_reply(
    alloc: Global,
    plain: &Netlist,
    mapped: &Netlist,
    answer: MappedAnswer,
) -> Result<Reply, Refusal>
    requires answer { IsMappedAnswer plain.now mapped.now answer }
    ensures answers { IfOk result (λ reply. IsReplyOn true reply.ending plain.now mapped.now reply.bytes) }
    ensures stopped { IfErr result (StopsPair true plain.now mapped.now) }
{
    if has_other_inputs(answer) {
        clock_no(alloc, plain, mapped, MappedReason::Inputs)
    } else {
        clock_no(alloc, plain, mapped, MappedReason::Latches)
    }
}

/// The no with this reason, where some latch has another clock.
fn clock_no(
    alloc: Global,
    plain: &Netlist,
    mapped: &Netlist,
    reason: MappedReason,
) -> Result<Reply, Refusal>
    requires reason { IsClockReason plain.now mapped.now reason }
    requires shown { IsShownIn plain.now mapped.now (No reason) }
    ensures answers { IfOk result (λ reply. IsReplyOn true reply.ending plain.now mapped.now reply.bytes) }
    ensures stopped { IfErr result (StopsPair true plain.now mapped.now) }
{
    match no_text(alloc, plain, mapped, reason) {
        Ok(bytes) => Ok(Reply {
            bytes,
            ending: Ending::Rejected,
        }),
        Err(error) => Err(Refusal::Memory(error)),
    }
}
