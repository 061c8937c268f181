//! The exact question of a text: of the netlist after a network.
ghost use Rattle.std.specs.Prelude.{◌≡◌, ◌≤◌, None, length, IfErr, IfOk, OnOk};
ghost use Rattle.fault_secure.specs.CodePlan.{IsPlanOf};
ghost use Rattle.text_sections.specs.Denoted.{net_from, plan_from};
ghost use Rattle.text_sections.specs.Refused.{IsRefusedBy, netlist_refusal};
ghost use Rattle.question_answers.specs.NoQuestion.{FitsQuestion};
ghost use Rattle.question_answers.specs.QuestionReply.{IsQuestionLinesReply, IsQuestionReply, IsQuestionReplyOf};
ghost use Rattle.question_answers.specs.Refused.{question_lines_refusal, question_refusal};
ghost use Rattle.question_answers.specs.Sizes.{most_lines, size_of};

use crate::reason::{no_question, no_question_text};
use exact_question::question_decides;
use netlist_answers::{Reply, netlist_behind};
use question_text::question_text;
use refusals::{Ending, Refusal};
use std::alloc::{AllocError, Global};
use text_sections::{behind_first, first_source, text_lines};
use tsc_io::Bytes;
use tsc_net::{Netlist, Plan, PlannedNetlist};
use tsc_text::Lines;

/// The exact question of the netlist after the network that `text` begins with, in DIMACS. It has no model exactly where, at each input,
/// the netlist follows the network, its rails differ, and each failing cell is heard. Where the netlist doesn't fit, has a latch, or its
/// plan's code isn't parity, the first such reason.
///
/// # Errors
///
/// The first refusal of the text, or want of memory.
pub fn ask_exactly(alloc: Global, text: &Bytes) -> Result<Reply, Refusal>
    requires short { length text.now ≤ 67108864 }
    ensures answers { IfOk result (λ reply. IsQuestionReply reply.ending text.now reply.bytes) }
    ensures allowed { OnOk result (question_refusal text.now ≡ None) }
    ensures refused { IfErr result (IsRefusedBy (question_refusal text.now)) }
{
    let lines = text_lines(alloc, text)?;
    question_lines(alloc, &lines)
}

/// The exact question of the netlist after the network that the lines begin with.
fn question_lines(alloc: Global, lines: &Lines) -> Result<Reply, Refusal>
    requires few { length lines.now ≤ most_lines }
    ensures answers { IfOk result (λ reply. IsQuestionLinesReply reply.ending lines.now reply.bytes) }
    ensures allowed { OnOk result (question_lines_refusal lines.now ≡ None) }
    ensures refused { IfErr result (IsRefusedBy (question_lines_refusal lines.now)) }
{
    let source = first_source(alloc, lines)?;
    question_behind(alloc, &source, lines, behind_first(lines))
}

/// The exact question, of a network, of the netlist that the lines from the place `from` on denote.
fn question_behind(
    alloc: Global,
    source: &Netlist,
    lines: &Lines,
    from: usize,
) -> Result<Reply, Refusal>
    requires within { from ≤ length lines.now }
    requires few { length lines.now ≤ most_lines }
    requires latches { length source.now.circuit.latches ≡ 0 }
    requires inputs { source.now.circuit.inputs ≤ 1024 }
    requires small { size_of source.now.circuit.nodes ≤ most_lines }
    ensures answers { IfOk result (λ reply. IsQuestionReplyOf reply.ending source.now (net_from lines.now from) (plan_from lines.now from) reply.bytes) }
    ensures allowed { OnOk result (netlist_refusal lines.now from ≡ None) }
    ensures refused { IfErr result (IsRefusedBy (netlist_refusal lines.now from)) }
{
    let read = netlist_behind(alloc, lines, from)?;
    match question_read(alloc, source, &read) {
        Ok(reply) => Ok(reply),
        Err(error) => Err(Refusal::Memory(error)),
    }
}

/// The exact question of a network and a netlist with its plan, or the first reason why there is none.
fn question_read(
    alloc: Global,
    source: &Netlist,
    read: &PlannedNetlist,
) -> Result<Reply, AllocError>
    requires latches { length source.now.circuit.latches ≡ 0 }
    requires inputs { source.now.circuit.inputs ≤ 1024 }
    requires small_source { size_of source.now.circuit.nodes ≤ most_lines }
    requires small { size_of read.now.net.circuit.nodes ≤ most_lines }
    requires plan { IsPlanOf read.now.net.circuit read.now.plan }
    ensures answers { IfOk result (λ reply. IsQuestionReplyOf reply.ending source.now read.now.net read.now.plan reply.bytes) }
{
    match no_question(source, &read.net, &read.plan) {
        None => asked(alloc, source, &read.net, &read.plan),
        Some(why) => {
            let bytes = no_question_text(alloc, why)?;
            Ok(Reply {
                bytes,
                ending: Ending::Rejected,
            })
        }
    }
}

/// The question, where it is asked.
fn asked(alloc: Global, source: &Netlist, net: &Netlist, plan: &Plan) -> Result<Reply, AllocError>
    requires fits { FitsQuestion source.now.circuit net.now.circuit plan.now }
    requires latches { length source.now.circuit.latches ≡ 0 }
    requires inputs { source.now.circuit.inputs ≤ 1024 }
    requires small_source { size_of source.now.circuit.nodes ≤ most_lines }
    requires small { size_of net.now.circuit.nodes ≤ most_lines }
    requires plan { IsPlanOf net.now.circuit plan.now }
    ensures answers { IfOk result (λ reply. IsQuestionReplyOf reply.ending source.now net.now plan.now reply.bytes) }
{
    question_decides();
    // What the netlists and the plan keep is known from here on.
    let _source = source.nets();
    let _nets = net.nets();
    let _states = plan.states.len();
    let bytes = question_text(alloc, source, net, plan)?;
    Ok(Reply {
        bytes,
        ending: Ending::Finished,
    })
}
