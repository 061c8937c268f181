//! The question and its text.
ghost use Rattle.std.specs.Prelude.{◌≡◌, ◌+◌, ◌<◌, ◌^◌, ◌++◌, length, IfOk, OnOk};
ghost use Rattle.std.specs.List.{flat_map};
ghost use Rattle.exact_question.specs.Laws.{IsAsked};
ghost use Rattle.exact_question.specs.Question.{question, variables};
ghost use Rattle.question_text.specs.Giving.{LiteralsAreWithin};
ghost use Rattle.question_text.specs.Groups.{AreGroups};
ghost use Rattle.question_text.specs.Lines.{comment_lines};
ghost use Rattle.question_text.specs.Text.{clause_line, header, question_text};
ghost use Rattle.question_text.specs.Whole.{numbers_of, rails_first};

use crate::clauses::Clauses;
use crate::numbers::{Numbers, numbers_of};
use crate::parts::clauses_of;
use crate::text::{
    push_cells_lines, push_clauses, push_header, push_inputs_lines, push_nodes_lines,
};
use std::alloc::{AllocError, Global};
use tsc_io::Bytes;
use tsc_net::{Group, Netlist, Plan};

/// The text of the exact question of a source and a netlist with its plan under parity, in DIMACS: comments that name variables, the
/// header, and a line per clause.
///
/// # Errors
///
/// Want of memory.
pub fn question_text(
    alloc: Global,
    source: &Netlist,
    net: &Netlist,
    plan: &Plan,
) -> Result<Bytes, AllocError>
    requires asked { IsAsked source.now.circuit net.now.circuit plan.now }
    requires few { length (variables source.now.circuit net.now.circuit plan.now) < 2 ^ 32 }
    ensures text { IfOk result (λ text. text ≡ question_text source.now net.now plan.now) }
    ensures within { IfOk result (λ text. LiteralsAreWithin source.now.circuit net.now.circuit plan.now) }
{
    let groups = plan.groups.as_slice();
    let numbers = numbers_of(alloc, source, net, groups)?;
    let clauses = question_over(alloc, &numbers, source, net, plan, groups)?;
    let text = text_over(alloc, &numbers, source, net, &clauses)?;
    Ok(text)
}

/// The clauses of the question over the numbers of its variables.
fn question_over(
    alloc: Global,
    numbers: &Numbers,
    source: &Netlist,
    net: &Netlist,
    plan: &Plan,
    groups: &[Group],
) -> Result<Clauses, AllocError>
    requires asked { IsAsked source.now.circuit net.now.circuit plan.now }
    requires groups { AreGroups plan.now groups.now }
    requires numbers { numbers.now ≡ numbers_of source.now.circuit net.now.circuit groups.now }
    requires few { rails_first source.now.circuit net.now.circuit groups.now + 3 < 2 ^ 32 }
    ensures question { IfOk result (λ clauses. clauses ≡ question source.now.circuit net.now.circuit plan.now) }
{
    let rails = (plan.rail1, plan.rail2);
    let clauses = clauses_of(alloc, numbers, source, net, groups, rails, plan.outputs)?;
    Ok(clauses)
}

/// The text of clauses whose variables have these numbers.
fn text_over(
    alloc: Global,
    numbers: &Numbers,
    source: &Netlist,
    net: &Netlist,
    clauses: &Clauses,
) -> Result<Bytes, AllocError>
    requires room { numbers.now.rails + 3 < 2 ^ 32 }
    ensures text { IfOk result (λ text. text ≡ comment_lines source.now net.now numbers.now ++ header (numbers.now.rails + 3) (length clauses.now) ++ flat_map clause_line clauses.now) }
{
    let mut out = Bytes::new(alloc);
    push_comments(&mut out, numbers, source, net)?;
    let lines = clauses.as_slice();
    push_header(&mut out, numbers.rails + 3, lines.len())?;
    push_clauses(&mut out, lines)?;
    Ok(out)
}

/// Adds the comments.
fn push_comments(
    out: &mut Bytes,
    numbers: &Numbers,
    source: &Netlist,
    net: &Netlist,
) -> Result<(), AllocError>
    ensures lines { OnOk result (out.new ≡ out.old ++ comment_lines source.now net.now numbers.now) }
{
    let right = numbers.right.as_slice();
    push_inputs_lines(out, net, right)?;
    push_nodes_lines(out, source, numbers.source.as_slice())?;
    push_nodes_lines(out, net, right)?;
    push_cells_lines(out, net, numbers.cells.as_slice())
}
