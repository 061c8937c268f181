//! The proof of a text: whether the netlist after a network has the exact audit's yes, by the refutation after it.
ghost use Rattle.std.specs.Prelude.{◌≡◌, ◌≤◌, None, drop, length, IfErr, IfOk, OnOk};
ghost use Rattle.fault_secure.specs.CodePlan.{IsPlanOf};
ghost use Rattle.text_sections.specs.Denoted.{net_from, plan_from};
ghost use Rattle.text_sections.specs.Refused.{IsRefusedBy};
ghost use Rattle.question_answers.specs.NoQuestion.{no_question_text};
ghost use Rattle.refusals.specs.declared.ending.Ending.TheVariants.{Rejected};
ghost use Rattle.proof_answers.specs.ProofReply.{IsProofLinesReply, IsProofReply, IsProofReplyFrom, IsProofReplyOf};
ghost use Rattle.proof_answers.specs.Refused.{proof_lines_refusal, proof_refusal, proof_refusal_from, refutation_refusal};
ghost use Rattle.proof_answers.specs.Sizes.{AreFew, AreSmall};

use crate::refuting::proved;
use netlist_answers::Reply;
use question_answers::{NoQuestion, no_question, no_question_text};
use refusals::{Ending, Refusal, TextRefusal};
use std::alloc::{AllocError, Global};
use text_sections::{behind_first, first_source, netlist_section, text_lines};
use tsc_io::Bytes;
use tsc_net::{Netlist, PlannedNetlist};
use tsc_text::{End, Lines};

/// Whether the netlist after the network that `text` begins with follows it, its rails differ, and each failing cell is heard, at each
/// input: yes where the refutation after them refutes their exact question. Where the netlist doesn't fit, has a latch, or its plan's code
/// isn't parity, the first such reason; then the refutation isn't looked at.
///
/// # Errors
///
/// The first refusal of the text: of its bytes, the network, the netlist, or the refutation; or want of memory.
pub fn audit_proof(alloc: Global, text: &Bytes) -> Result<Reply, Refusal>
    requires short { length text.now ≤ 67108864 }
    ensures answers { IfOk result (λ reply. IsProofReply reply.ending text.now reply.bytes) }
    ensures allowed { OnOk result (proof_refusal text.now ≡ None) }
    ensures refused { IfErr result (IsRefusedBy (proof_refusal text.now)) }
{
    let lines = text_lines(alloc, text)?;
    proof_lines(alloc, &lines)
}

/// The answer on the network that the lines begin with, and what stands after it.
fn proof_lines(alloc: Global, lines: &Lines) -> Result<Reply, Refusal>
    requires few { AreFew lines.now }
    ensures answers { IfOk result (λ reply. IsProofLinesReply reply.ending lines.now reply.bytes) }
    ensures allowed { OnOk result (proof_lines_refusal lines.now ≡ None) }
    ensures refused { IfErr result (IsRefusedBy (proof_lines_refusal lines.now)) }
{
    let source = first_source(alloc, lines)?;
    proof_from(alloc, &source, lines, behind_first(lines))
}

/// The answer on a network, the netlist that the lines from the place `from` on denote, and the refutation after it.
fn proof_from(alloc: Global, source: &Netlist, lines: &Lines, from: usize) -> Result<Reply, Refusal>
    requires within { from ≤ length lines.now }
    requires few { AreFew lines.now }
    requires latches { length source.now.circuit.latches ≡ 0 }
    requires inputs { source.now.circuit.inputs ≤ 1024 }
    requires small_source { AreSmall source.now.circuit.nodes }
    ensures answers { IfOk result (λ reply. IsProofReplyFrom reply.ending source.now lines.now from reply.bytes) }
    ensures allowed { OnOk result (proof_refusal_from source.now.circuit lines.now from ≡ None) }
    ensures refused { IfErr result (IsRefusedBy (proof_refusal_from source.now.circuit lines.now from)) }
{
    if from >= lines.len() {
        return Err(Refusal::Text(TextRefusal::NoNetlist));
    }
    let read = netlist_section(alloc, lines, from)?;
    proof_read(
        alloc,
        source,
        &read,
        lines,
        lines.section(from, End::Blif).next,
    )
}

/// The answer on a network, a netlist with its plan, and the refutation that the lines from the place `from` on are.
fn proof_read(
    alloc: Global,
    source: &Netlist,
    read: &PlannedNetlist,
    lines: &Lines,
    from: usize,
) -> Result<Reply, Refusal>
    requires latches { length source.now.circuit.latches ≡ 0 }
    requires inputs { source.now.circuit.inputs ≤ 1024 }
    requires small_source { AreSmall source.now.circuit.nodes }
    requires small { AreSmall read.now.net.circuit.nodes }
    requires plan { IsPlanOf read.now.net.circuit read.now.plan }
    ensures answers { IfOk result (λ reply. IsProofReplyOf reply.ending source.now read.now.net read.now.plan (drop from lines.now) reply.bytes) }
    ensures allowed { OnOk result (refutation_refusal source.now.circuit read.now.net.circuit read.now.plan (drop from lines.now) ≡ None) }
    ensures refused { IfErr result (IsRefusedBy (refutation_refusal source.now.circuit read.now.net.circuit read.now.plan (drop from lines.now))) }
{
    match no_question(source, &read.net, &read.plan) {
        None => proved(alloc, source, &read.net, &read.plan, lines, from),
        Some(why) => match not_asked(alloc, why) {
            Ok(reply) => Ok(reply),
            Err(error) => Err(Refusal::Memory(error)),
        },
    }
}

/// The answer where no question is asked.
fn not_asked(alloc: Global, why: NoQuestion) -> Result<Reply, AllocError>
    ensures text { IfOk result (λ reply. reply.bytes ≡ no_question_text why) }
    ensures ending { IfOk result (λ reply. reply.ending ≡ Rejected) }
{
    let bytes = no_question_text(alloc, why)?;
    Ok(Reply {
        bytes,
        ending: Ending::Rejected,
    })
}
