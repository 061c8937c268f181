//! The clauses of the question, part by part.
ghost use Rattle.std.specs.Prelude.{◌≡◌, ◌+◌, ◌<◌, ◌≤◌, ◌^◌, [], ◌∷◌, ◌++◌, length, take, IfOk, OnOk};
ghost use Rattle.tsc_net.specs.PlanView.{net_numbers};
ghost use Rattle.exact_question.specs.Rows.{written};
ghost use Rattle.question_text.specs.Gates.{after_clauses, is_one, is_zero, kept};
ghost use Rattle.question_text.specs.Nodes.{HasRoom};
ghost use Rattle.question_text.specs.Failing.{CellsHaveRoom};
ghost use Rattle.question_text.specs.Reasons.{groups_end, groups_even, ones_from};
ghost use Rattle.question_text.specs.Whole.{alarm_gates, clauses_over, copies_gates, numbers_of, rails_first, rest_over, word_gates};

use crate::clauses::{Clauses, Literals};
use crate::failing::push_failing;
use crate::gates::{one, zero};
use crate::nodes::push_nodes;
use crate::numbers::Numbers;
use crate::reasons::{push_groups, push_ones, push_outputs, push_rails, push_unheard};
use std::alloc::{AllocError, Global};
use tsc_io::Items;
use tsc_net::{Group, NetId, Netlist};

/// Adds the clauses of the three copies.
fn push_copies(
    out: &mut Clauses,
    numbers: &Numbers,
    source: &Netlist,
    net: &Netlist,
) -> Result<(), AllocError>
    requires source_room { HasRoom numbers.now.source source.now.circuit }
    requires right_room { HasRoom numbers.now.right net.now.circuit }
    requires failing_room { CellsHaveRoom numbers.now.cells net.now.circuit }
    ensures clauses { OnOk result (out.new ≡ after_clauses out.old (copies_gates numbers.now source.now.circuit net.now.circuit)) }
{
    let right = numbers.right.as_slice();
    push_nodes(out, numbers.source.as_slice(), source)?;
    push_nodes(out, right, net)?;
    push_failing(
        out,
        numbers.failing.as_slice(),
        right,
        numbers.cells.as_slice(),
        net,
    )
}

/// Adds the clauses of outputs and groups, and to the last clause what they are wrong by.
fn push_word(
    out: &mut Clauses,
    wrong: &mut Literals,
    numbers: &Numbers,
    source: &Netlist,
    net: &Netlist,
    groups: &[Group],
) -> Result<(), AllocError>
    requires outputs_room { numbers.now.outputs + length source.now.circuit.outputs < 2 ^ 32 }
    requires groups_room { groups_end numbers.now.groups groups.now < 2 ^ 32 }
    ensures clauses { OnOk result (out.new ≡ after_clauses out.old (word_gates numbers.now source.now.circuit net.now.circuit groups.now)) }
    ensures wrong { OnOk result (wrong.new ≡ wrong.old ++ ones_from numbers.now.outputs source.now.circuit.outputs ++ groups_even numbers.now.right net.now.circuit.outputs numbers.now.groups groups.now) }
{
    let right = numbers.right.as_slice();
    let of_source = numbers.source.as_slice();
    let nets = source.outputs();
    push_outputs(out, of_source, right, net.outputs(), numbers.outputs, nets)?;
    push_ones(wrong, numbers.outputs, nets)?;
    push_groups(out, wrong, right, net.outputs(), numbers.groups, groups)
}

/// Adds the clauses of the rails, and of a failing cell that is unheard.
fn push_alarm(
    out: &mut Clauses,
    numbers: &Numbers,
    inputs: usize,
    rail1: NetId,
    rail2: NetId,
    shown: &[NetId],
) -> Result<(), AllocError>
    requires room { numbers.now.rails + 3 < 2 ^ 32 }
    ensures clauses { OnOk result (out.new ≡ after_clauses out.old (alarm_gates numbers.now inputs rail1.number rail2.number (net_numbers shown.now))) }
{
    let rails = numbers.rails;
    push_rails(out, numbers.right.as_slice(), rails, rail1, rail2)?;
    push_rails(out, numbers.failing.as_slice(), rails + 1, rail1, rail2)?;
    push_unheard(
        out,
        rails + 1,
        rails + 2,
        inputs,
        numbers.cells.as_slice(),
        shown,
    )
}

/// Adds the last clause, which ends in that the rails agree or a failing cell is unheard.
fn push_last(out: &mut Clauses, wrong: &mut Literals, rails: u32) -> Result<(), AllocError>
    requires room { rails + 3 < 2 ^ 32 }
    ensures clauses { OnOk result (out.new ≡ out.old ++ kept (wrong.old ++ is_zero rails ∷ is_one (rails + 2) ∷ [])) }
{
    wrong.push(zero(rails))?;
    wrong.push(one(rails + 2))?;
    out.push(wrong.as_slice())
}

/// Adds the clauses after those of the copies, where these are the rails and the outputs.
pub(crate) fn push_rest(
    out: &mut Clauses,
    numbers: &Numbers,
    source: &Netlist,
    net: &Netlist,
    groups: &[Group],
    rails: (NetId, NetId),
    shown: &[NetId],
) -> Result<(), AllocError>
    requires outputs_room { numbers.now.outputs + length source.now.circuit.outputs < 2 ^ 32 }
    requires groups_room { groups_end numbers.now.groups groups.now < 2 ^ 32 }
    requires room { numbers.now.rails + 3 < 2 ^ 32 }
    ensures clauses { OnOk result (out.new ≡ after_clauses out.old (rest_over numbers.now source.now.circuit net.now.circuit groups.now rails.0.number rails.1.number (net_numbers shown.now))) }
{
    let mut wrong = Items::new(out.alloc());
    push_word(out, &mut wrong, numbers, source, net, groups)?;
    push_alarm(out, numbers, net.inputs(), rails.0, rails.1, shown)?;
    push_last(out, &mut wrong, numbers.rails)?;
    Ok(())
}

/// Adds all clauses, where these are the rails and the outputs.
fn push_clauses(
    out: &mut Clauses,
    numbers: &Numbers,
    source: &Netlist,
    net: &Netlist,
    groups: &[Group],
    rails: (NetId, NetId),
    shown: &[NetId],
) -> Result<(), AllocError>
    requires numbers { numbers.now ≡ numbers_of source.now.circuit net.now.circuit groups.now }
    requires source_latches { length source.now.circuit.latches ≡ 0 }
    requires latches { length net.now.circuit.latches ≡ 0 }
    requires few { rails_first source.now.circuit net.now.circuit groups.now + 3 < 2 ^ 32 }
    ensures clauses { OnOk result (out.new ≡ after_clauses out.old (clauses_over numbers.now source.now.circuit net.now.circuit groups.now rails.0.number rails.1.number (net_numbers shown.now))) }
{
    push_copies(out, numbers, source, net)?;
    push_rest(out, numbers, source, net, groups, rails, shown)
}

/// All clauses, where these are the rails, and the plan has so many outputs.
pub(crate) fn clauses_of(
    alloc: Global,
    numbers: &Numbers,
    source: &Netlist,
    net: &Netlist,
    groups: &[Group],
    rails: (NetId, NetId),
    outputs: usize,
) -> Result<Clauses, AllocError>
    requires numbers { numbers.now ≡ numbers_of source.now.circuit net.now.circuit groups.now }
    requires source_latches { length source.now.circuit.latches ≡ 0 }
    requires latches { length net.now.circuit.latches ≡ 0 }
    requires few { rails_first source.now.circuit net.now.circuit groups.now + 3 < 2 ^ 32 }
    requires shown { outputs ≤ length net.now.circuit.outputs }
    ensures clauses { IfOk result (λ clauses. clauses ≡ written (clauses_over numbers.now source.now.circuit net.now.circuit groups.now rails.0.number rails.1.number (take outputs net.now.circuit.outputs))) }
{
    let mut out = Clauses::new(alloc);
    let shown = &net.outputs()[..outputs];
    push_clauses(&mut out, numbers, source, net, groups, rails, shown)?;
    Ok(out)
}
