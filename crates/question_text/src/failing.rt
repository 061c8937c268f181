//! The clauses of the copy with a failing cell.
ghost use Rattle.std.specs.Prelude.{◌≡◌, ◌+◌, ◌<◌, ◌^◌, [], ◌∷◌, ◌++◌, length, slice_index, OnOk};
ghost use Rattle.fault_secure.specs.Circuit.{node, node_net};
ghost use Rattle.tsc_net.specs.PlanView.{net_numbers};
ghost use Rattle.question_text.specs.Gates.{after_clauses, is_one, is_zero};
ghost use Rattle.question_text.specs.Failing.{CellsHaveRoom, cell_at, cell_gates, choice_gates, differs_of, failing_gates, wrong_gates};
ghost use Rattle.question_text.specs.Nodes.{wide_of};

use crate::cells::{Cell, cell_at};
use crate::clauses::{Clauses, Literals};
use crate::covers::number_at;
use crate::gates::{one, push_xor, zero};
use crate::nodes::push_gate;
use std::alloc::AllocError;
use tsc_io::Items;
use tsc_net::{NetId, Netlist};

/// Adds that one of these nets differs, of those that a node drives.
pub(crate) fn push_differs(
    list: &mut Literals,
    inputs: usize,
    cells: &[Cell],
    nets: &[NetId],
) -> Result<(), AllocError>
    ensures literals { OnOk result (list.new ≡ list.old ++ differs_of inputs cells.now (net_numbers nets.now)) }
{
    for net in nets {
        push_difference(list, inputs, cells, *net)?;
    }
    Ok(())
}

/// Adds that a net differs, where a node drives it.
fn push_difference(
    list: &mut Literals,
    inputs: usize,
    cells: &[Cell],
    net: NetId,
) -> Result<(), AllocError>
    ensures literals { OnOk result (list.new ≡ list.old ++ differs_of inputs cells.now (net.number ∷ [])) }
{
    let number = net.number as usize;
    if inputs <= number {
        list.push(one(cell_at(cells, number - inputs).differs))
    } else {
        Ok(())
    }
}

/// Adds that at most one node is chosen, up to this one.
pub(crate) fn push_choice(out: &mut Clauses, cells: &[Cell], place: usize) -> Result<(), AllocError>
    ensures clauses { OnOk result (out.new ≡ after_clauses out.old (choice_gates cells.now place)) }
{
    if place == 0 {
        return Ok(());
    }
    let before = cell_at(cells, place - 1).chosen;
    let cell = cell_at(cells, place);
    out.push(&[zero(before), one(cell.chosen)])?;
    out.push(&[zero(cell.choice), one(cell.chosen)])?;
    out.push(&[zero(cell.choice), zero(before)])
}

/// Adds that a net differs only where the node is chosen or a net at its pins differs.
fn push_cause(
    out: &mut Clauses,
    inputs: usize,
    cells: &[Cell],
    cell: Cell,
    reads: &[NetId],
) -> Result<(), AllocError>
    ensures clauses { OnOk result (out.new ≡ after_clauses out.old ((is_zero cell.differs ∷ is_one cell.choice ∷ differs_of inputs cells.now (net_numbers reads.now)) ∷ [])) }
{
    let mut clause = Items::from_slice(out.alloc(), &[zero(cell.differs), one(cell.choice)])?;
    push_differs(&mut clause, inputs, cells, reads)?;
    out.push(clause.as_slice())
}

/// Adds what the net of a node with these variables is, and what its cover gives.
fn push_wrong(
    out: &mut Clauses,
    numbers: &[u32],
    cell: Cell,
    net: &Netlist,
    place: usize,
) -> Result<(), AllocError>
    requires within { place < length net.now.circuit.nodes }
    requires room { cell.rows + wide_of (node net.now.circuit place) < 2 ^ 32 }
    ensures clauses { OnOk result (out.new ≡ after_clauses out.old (wrong_gates numbers.now cell (node net.now.circuit place))) }
{
    push_xor(out, cell.net, one(cell.gate), one(cell.choice))?;
    push_gate(out, numbers, cell.rows, cell.gate, net, place)
}

/// Adds the clauses of a node, whose net has the number `right` without a fault.
pub(crate) fn push_cell(
    out: &mut Clauses,
    numbers: &[u32],
    right: u32,
    cells: &[Cell],
    net: &Netlist,
    place: usize,
) -> Result<(), AllocError>
    requires within { place < length net.now.circuit.nodes }
    requires room { (cell_at cells.now place).rows + wide_of (node net.now.circuit place) < 2 ^ 32 }
    ensures clauses { OnOk result (out.new ≡ after_clauses out.old (cell_gates numbers.now right net.now.circuit.inputs cells.now (cell_at cells.now place) (node net.now.circuit place))) }
{
    let cell = cell_at(cells, place);
    push_wrong(out, numbers, cell, net, place)?;
    push_xor(out, cell.differs, one(right), one(cell.net))?;
    push_cause(out, net.inputs(), cells, cell, net.node_reads(place))
}

/// Adds the clauses of all nodes, whose nets have these numbers, and the numbers `right` without a fault.
pub(crate) fn push_failing(
    out: &mut Clauses,
    numbers: &[u32],
    right: &[u32],
    cells: &[Cell],
    net: &Netlist,
) -> Result<(), AllocError>
    requires room { CellsHaveRoom cells.now net.now.circuit }
    ensures clauses { OnOk result (out.new ≡ after_clauses out.old (failing_gates numbers.now right.now net.now.circuit.inputs cells.now 0 (node_net net.now.circuit 0) net.now.circuit.nodes)) }
{
    for place in 0..net.nodes() {
        let variable = number_at(right, net.node_net(place).number as usize);
        push_cell(out, numbers, variable, cells, net, place)?;
        push_choice(out, cells, place)?;
    }
    Ok(())
}
