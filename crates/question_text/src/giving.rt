//! A checker of refutations that holds the question. Its clauses are made node by node, so that no list of all of them stands beside the checker.
ghost use Rattle.std.specs.Prelude.{◌≡◌, ◌+◌, ◌<◌, ◌≤◌, ◌^◌, ◌++◌, length, slice_index, take, IfOk, OnOk};
ghost use Rattle.fault_secure.specs.Circuit.{node, node_net};
ghost use Rattle.tsc_net.specs.PlanView.{net_numbers};
ghost use Rattle.refutations.specs.Checking.{IsSound};
ghost use Rattle.exact_question.specs.Laws.{IsAsked};
ghost use Rattle.exact_question.specs.Question.{question, variables};
ghost use Rattle.exact_question.specs.Rows.{written};
ghost use Rattle.question_text.specs.Failing.{CellsHaveRoom, cell_at, cell_gates, choice_gates, failing_gates};
ghost use Rattle.question_text.specs.Giving.{CanBeGiven, given, question_state};
ghost use Rattle.question_text.specs.Nodes.{HasRoom, node_gates, nodes_gates, wide_of};
ghost use Rattle.question_text.specs.Reasons.{groups_end};
ghost use Rattle.question_text.specs.Whole.{clauses_over, copies_gates, numbers_of, rails_first, rest_over};

use crate::cells::Cell;
use crate::clauses::{Clauses, Literals};
use crate::covers::number_at;
use crate::failing::{push_cell, push_choice};
use crate::nodes::push_node;
use crate::numbers::{Numbers, numbers_of};
use crate::parts::push_rest;
use refutations::Checker;
use std::alloc::{AllocError, Global};
use tsc_net::{Group, NetId, Netlist, Plan};

/// A checker of refutations that holds the clauses of the exact question of a source and a netlist with its plan under parity, with the
/// numbers from 1 on, and is sound for them. It takes time linear in their literals but for the clause of a cover's rows, of which each literal is looked up
/// among those before it.
///
/// # Errors
///
/// Want of memory.
pub fn question_checker(
    alloc: Global,
    source: &Netlist,
    net: &Netlist,
    plan: &Plan,
) -> Result<Checker, AllocError>
    requires asked { IsAsked source.now.circuit net.now.circuit plan.now }
    requires few { length (variables source.now.circuit net.now.circuit plan.now) < 2 ^ 32 }
    requires few_clauses { length (question source.now.circuit net.now.circuit plan.now) < 2 ^ 32 }
    ensures given { IfOk result (λ checker. checker ≡ question_state source.now.circuit net.now.circuit plan.now) }
    ensures sound { IfOk result (λ checker. IsSound (question source.now.circuit net.now.circuit plan.now) checker) }
{
    let groups = plan.groups.as_slice();
    let numbers = numbers_of(alloc, source, net, groups)?;
    let mut checker = Checker::new(alloc, (numbers.rails + 3) as usize)?;
    let rails = (plan.rail1, plan.rail2);
    let shown = &net.outputs()[..plan.outputs];
    give_question(
        alloc,
        &mut checker,
        &numbers,
        source,
        net,
        groups,
        rails,
        shown,
    )?;
    Ok(checker)
}

/// Gives all clauses, where these are the rails and the outputs.
fn give_question(
    alloc: Global,
    checker: &mut Checker,
    numbers: &Numbers,
    source: &Netlist,
    net: &Netlist,
    groups: &[Group],
    rails: (NetId, NetId),
    shown: &[NetId],
) -> Result<(), AllocError>
    requires numbers { numbers.now ≡ numbers_of source.now.circuit net.now.circuit groups.now }
    requires source_latches { length source.now.circuit.latches ≡ 0 }
    requires latches { length net.now.circuit.latches ≡ 0 }
    requires few { rails_first source.now.circuit net.now.circuit groups.now + 3 < 2 ^ 32 }
    requires can { CanBeGiven checker.old (written (clauses_over numbers.now source.now.circuit net.now.circuit groups.now rails.0.number rails.1.number (net_numbers shown.now))) }
    ensures given { OnOk result (checker.new ≡ given checker.old (written (clauses_over numbers.now source.now.circuit net.now.circuit groups.now rails.0.number rails.1.number (net_numbers shown.now)))) }
{
    give_copies(alloc, checker, numbers, source, net)?;
    give_rest(alloc, checker, numbers, source, net, groups, rails, shown)
}

/// Gives the clauses of the three copies.
fn give_copies(
    alloc: Global,
    checker: &mut Checker,
    numbers: &Numbers,
    source: &Netlist,
    net: &Netlist,
) -> Result<(), AllocError>
    requires source_room { HasRoom numbers.now.source source.now.circuit }
    requires right_room { HasRoom numbers.now.right net.now.circuit }
    requires failing_room { CellsHaveRoom numbers.now.cells net.now.circuit }
    requires can { CanBeGiven checker.old (written (copies_gates numbers.now source.now.circuit net.now.circuit)) }
    ensures given { OnOk result (checker.new ≡ given checker.old (written (copies_gates numbers.now source.now.circuit net.now.circuit))) }
{
    let right = numbers.right.as_slice();
    give_nodes(alloc, checker, numbers.source.as_slice(), source)?;
    give_nodes(alloc, checker, right, net)?;
    give_failing(
        alloc,
        checker,
        numbers.failing.as_slice(),
        right,
        numbers.cells.as_slice(),
        net,
    )
}

/// Gives the clauses after those of the copies, where these are the rails and the outputs.
fn give_rest(
    alloc: Global,
    checker: &mut Checker,
    numbers: &Numbers,
    source: &Netlist,
    net: &Netlist,
    groups: &[Group],
    rails: (NetId, NetId),
    shown: &[NetId],
) -> Result<(), AllocError>
    requires outputs_room { numbers.now.outputs + length source.now.circuit.outputs < 2 ^ 32 }
    requires groups_room { groups_end numbers.now.groups groups.now < 2 ^ 32 }
    requires room { numbers.now.rails + 3 < 2 ^ 32 }
    requires can { CanBeGiven checker.old (written (rest_over numbers.now source.now.circuit net.now.circuit groups.now rails.0.number rails.1.number (net_numbers shown.now))) }
    ensures given { OnOk result (checker.new ≡ given checker.old (written (rest_over numbers.now source.now.circuit net.now.circuit groups.now rails.0.number rails.1.number (net_numbers shown.now)))) }
{
    let mut some = Clauses::new(alloc);
    push_rest(&mut some, numbers, source, net, groups, rails, shown)?;
    give_all(checker, some.as_slice())?;
    Ok(())
}

/// Gives the clauses of all nodes, whose nets have these numbers.
fn give_nodes(
    alloc: Global,
    checker: &mut Checker,
    numbers: &[u32],
    net: &Netlist,
) -> Result<(), AllocError>
    requires room { HasRoom numbers.now net.now.circuit }
    requires can { CanBeGiven checker.old (written (nodes_gates numbers.now (node_net net.now.circuit 0) net.now.circuit.nodes)) }
    ensures given { OnOk result (checker.new ≡ given checker.old (written (nodes_gates numbers.now (node_net net.now.circuit 0) net.now.circuit.nodes))) }
{
    for place in 0..net.nodes() {
        give_node(alloc, checker, numbers, net, place)?;
    }
    Ok(())
}

/// Gives the clauses of a node.
fn give_node(
    alloc: Global,
    checker: &mut Checker,
    numbers: &[u32],
    net: &Netlist,
    place: usize,
) -> Result<(), AllocError>
    requires within { place < length net.now.circuit.nodes }
    requires room { slice_index numbers.now (node_net net.now.circuit place) + 1 + wide_of (node net.now.circuit place) < 2 ^ 32 }
    requires can { CanBeGiven checker.old (written (node_gates numbers.now (slice_index numbers.now (node_net net.now.circuit place)) (node net.now.circuit place))) }
    ensures given { OnOk result (checker.new ≡ given checker.old (written (node_gates numbers.now (slice_index numbers.now (node_net net.now.circuit place)) (node net.now.circuit place)))) }
{
    let mut some = Clauses::new(alloc);
    push_node(&mut some, numbers, net, place)?;
    give_all(checker, some.as_slice())?;
    Ok(())
}

/// Gives the clauses of all nodes in the copy with a failing cell, whose nets have these numbers, and the numbers `right` without a fault.
fn give_failing(
    alloc: Global,
    checker: &mut Checker,
    numbers: &[u32],
    right: &[u32],
    cells: &[Cell],
    net: &Netlist,
) -> Result<(), AllocError>
    requires room { CellsHaveRoom cells.now net.now.circuit }
    requires can { CanBeGiven checker.old (written (failing_gates numbers.now right.now net.now.circuit.inputs cells.now 0 (node_net net.now.circuit 0) net.now.circuit.nodes)) }
    ensures given { OnOk result (checker.new ≡ given checker.old (written (failing_gates numbers.now right.now net.now.circuit.inputs cells.now 0 (node_net net.now.circuit 0) net.now.circuit.nodes))) }
{
    for place in 0..net.nodes() {
        let variable = number_at(right, net.node_net(place).number as usize);
        give_cell(alloc, checker, numbers, variable, cells, net, place)?;
    }
    Ok(())
}

/// Gives the clauses of a node in the copy with a failing cell, whose net has the number `right` without a fault.
fn give_cell(
    alloc: Global,
    checker: &mut Checker,
    numbers: &[u32],
    right: u32,
    cells: &[Cell],
    net: &Netlist,
    place: usize,
) -> Result<(), AllocError>
    requires within { place < length net.now.circuit.nodes }
    requires room { (cell_at cells.now place).rows + wide_of (node net.now.circuit place) < 2 ^ 32 }
    requires can { CanBeGiven checker.old (written (cell_gates numbers.now right net.now.circuit.inputs cells.now (cell_at cells.now place) (node net.now.circuit place) ++ choice_gates cells.now place)) }
    ensures given { OnOk result (checker.new ≡ given checker.old (written (cell_gates numbers.now right net.now.circuit.inputs cells.now (cell_at cells.now place) (node net.now.circuit place) ++ choice_gates cells.now place))) }
{
    let mut some = Clauses::new(alloc);
    push_cell(&mut some, numbers, right, cells, net, place)?;
    push_choice(&mut some, cells, place)?;
    give_all(checker, some.as_slice())?;
    Ok(())
}

/// Gives some clauses.
fn give_all(checker: &mut Checker, clauses: &[Literals]) -> Result<(), AllocError>
    requires can { CanBeGiven checker.old clauses.now }
    ensures given { OnOk result (checker.new ≡ given checker.old clauses.now) }
{
    for clause in clauses {
        checker.give(clause.as_slice())?;
    }
    Ok(())
}
