//! The clauses of the nodes of a circuit.
ghost use Rattle.std.specs.Prelude.{◌≡◌, ◌+◌, ◌<◌, ◌^◌, length, slice_index, OnOk};
ghost use Rattle.fault_secure.specs.Circuit.{node, node_net};
ghost use Rattle.exact_question.specs.Rows.{literal, rows_of};
ghost use Rattle.question_text.specs.Gates.{after_clauses};
ghost use Rattle.question_text.specs.Covers.{cover_gates};
ghost use Rattle.question_text.specs.Nodes.{HasRoom, node_gates, nodes_gates, wide_of};

use crate::clauses::Clauses;
use crate::covers::{number_at, push_cover};
use crate::rows::rows_of;
use refutations::Literal;
use std::alloc::AllocError;
use tsc_net::Netlist;

/// Adds the clauses of all nodes, whose nets have these numbers.
pub(crate) fn push_nodes(
    out: &mut Clauses,
    numbers: &[u32],
    net: &Netlist,
) -> Result<(), AllocError>
    requires room { HasRoom numbers.now net.now.circuit }
    ensures clauses { OnOk result (out.new ≡ after_clauses out.old (nodes_gates numbers.now (node_net net.now.circuit 0) net.now.circuit.nodes)) }
{
    for place in 0..net.nodes() {
        push_node(out, numbers, net, place)?;
    }
    Ok(())
}

/// Adds the clauses of a node.
pub(crate) fn push_node(
    out: &mut Clauses,
    numbers: &[u32],
    net: &Netlist,
    place: usize,
) -> Result<(), AllocError>
    requires within { place < length net.now.circuit.nodes }
    requires room { slice_index numbers.now (node_net net.now.circuit place) + 1 + wide_of (node net.now.circuit place) < 2 ^ 32 }
    ensures clauses { OnOk result (out.new ≡ after_clauses out.old (node_gates numbers.now (slice_index numbers.now (node_net net.now.circuit place)) (node net.now.circuit place))) }
{
    let variable = number_at(numbers, net.node_net(place).number as usize);
    push_gate(out, numbers, variable + 1, variable, net, place)
}

/// Adds that a variable is what the cover of a node gives, with the variables of its rows from `first` on.
pub(crate) fn push_gate(
    out: &mut Clauses,
    numbers: &[u32],
    first: u32,
    variable: u32,
    net: &Netlist,
    place: usize,
) -> Result<(), AllocError>
    requires within { place < length net.now.circuit.nodes }
    requires room { first + wide_of (node net.now.circuit place) < 2 ^ 32 }
    ensures clauses { OnOk result (out.new ≡ after_clauses out.old (cover_gates numbers.now first (literal variable (node net.now.circuit place).cover.on) (rows_of (node net.now.circuit place)))) }
{
    let cover = net.node_cover(place);
    let rows = rows_of(out.alloc(), cover, net.node_reads(place))?;
    let gives = Literal {
        variable,
        wants: cover.on(),
    };
    push_cover(out, numbers, first, gives, rows.as_slice())
}
