//! A refutation of the exact question of a network and a netlist with its plan: its first fault, or the exact audit's yes.
ghost use Rattle.std.specs.Prelude.{◌≡◌, ◌<◌, ◌≤◌, ◌^◌, [], ◌∷◌, ◌++◌, codes, None, drop, length, IfErr, IfOk, OnOk};
ghost use Rattle.fault_secure.specs.CodePlan.{IsPlanOf};
ghost use Rattle.refutations.specs.Clauses.{HaveNoModel};
ghost use Rattle.exact_question.specs.Laws.{IsAsked};
ghost use Rattle.exact_question.specs.Question.{question, variables};
ghost use Rattle.question_answers.specs.NoQuestion.{FitsQuestion};
ghost use Rattle.refusals.specs.declared.ending.Ending.TheVariants.{Finished};
ghost use Rattle.text_sections.specs.Refused.{IsRefusedBy};
ghost use Rattle.proof_answers.specs.ProofReply.{IsProofReplyOf};
ghost use Rattle.proof_answers.specs.Refused.{question_fault, refutation_refusal};
ghost use Rattle.proof_answers.specs.Sizes.{AreSmall};

use exact_question::question_decides;
use netlist_answers::Reply;
use question_text::question_checker;
use refusals::{Ending, Refusal, TextRefusal};
use refutation_text::{RefutationFault, follow};
use std::alloc::{AllocError, Global};
use tsc_io::Bytes;
use tsc_net::{Netlist, Plan};
use tsc_text::Lines;

/// The yes of a refutation, which the lines from the place `from` on are, of a question that is asked.
pub(crate) fn proved(
    alloc: Global,
    source: &Netlist,
    net: &Netlist,
    plan: &Plan,
    lines: &Lines,
    from: usize,
) -> Result<Reply, Refusal>
    requires fits { FitsQuestion source.now.circuit net.now.circuit plan.now }
    requires latches { length source.now.circuit.latches ≡ 0 }
    requires inputs { source.now.circuit.inputs ≤ 1024 }
    requires small_source { AreSmall source.now.circuit.nodes }
    requires small { AreSmall net.now.circuit.nodes }
    requires plan { IsPlanOf net.now.circuit plan.now }
    ensures answers { IfOk result (λ reply. IsProofReplyOf reply.ending source.now net.now plan.now (drop from lines.now) reply.bytes) }
    ensures allowed { OnOk result (refutation_refusal source.now.circuit net.now.circuit plan.now (drop from lines.now) ≡ None) }
    ensures refused { IfErr result (IsRefusedBy (refutation_refusal source.now.circuit net.now.circuit plan.now (drop from lines.now))) }
{
    question_decides();
    // What the netlists and the plan keep is known from here on.
    let _source = source.nets();
    let _nets = net.nets();
    let _states = plan.states.len();
    match refutation_fault(alloc, source, net, plan, lines, from) {
        Ok(None) => match yes(alloc) {
            Ok(reply) => Ok(reply),
            Err(error) => Err(Refusal::Memory(error)),
        },
        Ok(Some(fault)) => Err(Refusal::Text(TextRefusal::Refutation(fault))),
        Err(error) => Err(Refusal::Memory(error)),
    }
}

/// The first fault of a refutation, which the lines from the place `from` on are, of a question that is asked.
fn refutation_fault(
    alloc: Global,
    source: &Netlist,
    net: &Netlist,
    plan: &Plan,
    lines: &Lines,
    from: usize,
) -> Result<Option<RefutationFault>, AllocError>
    requires asked { IsAsked source.now.circuit net.now.circuit plan.now }
    requires few { length (variables source.now.circuit net.now.circuit plan.now) < 2 ^ 32 }
    requires few_clauses { length (question source.now.circuit net.now.circuit plan.now) < 2 ^ 32 }
    ensures fault { IfOk result (λ fault. fault ≡ question_fault source.now.circuit net.now.circuit plan.now (drop from lines.now)) }
    ensures refuted { IfOk result (λ fault. fault ≡ None → HaveNoModel (question source.now.circuit net.now.circuit plan.now)) }
{
    let mut checker = question_checker(alloc, source, net, plan)?;
    follow(alloc, &mut checker, lines, from)
}

/// The answer `yes`.
fn yes(alloc: Global) -> Result<Reply, AllocError>
    ensures text { IfOk result (λ reply. reply.bytes ≡ codes "yes" ++ 10 ∷ []) }
    ensures ending { IfOk result (λ reply. reply.ending ≡ Finished) }
{
    let bytes = Bytes::from_slice(alloc, b"yes\n")?;
    Ok(Reply {
        bytes,
        ending: Ending::Finished,
    })
}
