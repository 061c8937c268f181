//! The text of the question.
ghost use Rattle.std.specs.Prelude.{◌≡◌, ◌+◌, ◌<◌, ◌≤◌, ◌++◌, codes, length, OnOk};
ghost use Rattle.std.specs.List.{flat_map};
ghost use Rattle.fault_secure.specs.Circuit.{nets, node_net};
ghost use Rattle.tsc_net.specs.Names.{text_at};
ghost use Rattle.question_text.specs.Text.{clause_line, header, literal_word, name_line};
ghost use Rattle.question_text.specs.Lines.{cell_lines, cells_lines, net_lines};

use crate::cells::{Cell, cell_at};
use crate::clauses::Literals;
use crate::covers::number_at;
use refutations::Literal;
use std::alloc::AllocError;
use tsc_io::Bytes;
use tsc_net::{NetId, Netlist};
use tsc_text::push_number;

/// Adds a comment that names a variable.
fn push_name_line(
    out: &mut Bytes,
    kind: &[u8],
    variable: u32,
    name: &[u8],
) -> Result<(), AllocError>
    ensures line { OnOk result (out.new ≡ out.old ++ name_line kind.now variable name.now) }
{
    out.append(b"c ")?;
    out.append(kind)?;
    out.push(b' ')?;
    push_number(out, u64::from(variable) + 1)?;
    out.push(b' ')?;
    out.append(name)?;
    out.push(b'\n')
}

/// Adds the comments of so many nets, from a net on.
fn push_net_lines(
    out: &mut Bytes,
    kind: &[u8],
    net: &Netlist,
    numbers: &[u32],
    first: usize,
    count: usize,
) -> Result<(), AllocError>
    requires known { first + count ≤ nets net.now.circuit }
    ensures lines { OnOk result (out.new ≡ out.old ++ net_lines kind.now net.now.names numbers.now first count) }
{
    // What each netlist keeps is known from here on.
    let _nets = net.nets();
    for place in 0..count {
        let number = first + place;
        let name = net.name(NetId {
            number: number as u32,
        });
        push_name_line(out, kind, number_at(numbers, number), name)?;
    }
    Ok(())
}

/// Adds the comments of the inputs.
pub(crate) fn push_inputs_lines(
    out: &mut Bytes,
    net: &Netlist,
    numbers: &[u32],
) -> Result<(), AllocError>
    ensures lines { OnOk result (out.new ≡ out.old ++ net_lines (codes "input") net.now.names numbers.now 0 net.now.circuit.inputs) }
{
    push_net_lines(out, b"input", net, numbers, 0, net.inputs())
}

/// Adds the comments of the nets that nodes drive.
pub(crate) fn push_nodes_lines(
    out: &mut Bytes,
    net: &Netlist,
    numbers: &[u32],
) -> Result<(), AllocError>
    ensures lines { OnOk result (out.new ≡ out.old ++ net_lines (codes "net") net.now.names numbers.now (node_net net.now.circuit 0) (length net.now.circuit.nodes)) }
{
    // What each netlist keeps is known from here on.
    let _nets = net.nets();
    let first = net.inputs() + net.latches();
    push_net_lines(out, b"net", net, numbers, first, net.nodes())
}

/// Adds the comments of a node.
fn push_cell_lines(
    out: &mut Bytes,
    cell: Cell,
    net: &Netlist,
    number: NetId,
) -> Result<(), AllocError>
    requires known { number.number < nets net.now.circuit }
    ensures lines { OnOk result (out.new ≡ out.old ++ cell_lines net.now.names cell number.number) }
{
    let name = net.name(number);
    push_name_line(out, b"cell", cell.choice, name)?;
    push_name_line(out, b"wrong", cell.net, name)
}

/// Adds the comments of all nodes.
pub(crate) fn push_cells_lines(
    out: &mut Bytes,
    net: &Netlist,
    cells: &[Cell],
) -> Result<(), AllocError>
    ensures lines { OnOk result (out.new ≡ out.old ++ cells_lines net.now.names cells.now 0 (node_net net.now.circuit 0) (length net.now.circuit.nodes)) }
{
    for place in 0..net.nodes() {
        push_cell_lines(out, cell_at(cells, place), net, net.node_net(place))?;
    }
    Ok(())
}

/// Adds the header.
pub(crate) fn push_header(out: &mut Bytes, variables: u32, clauses: usize) -> Result<(), AllocError>
    ensures header { OnOk result (out.new ≡ out.old ++ header variables clauses) }
{
    out.append(b"p cnf ")?;
    push_number(out, u64::from(variables))?;
    out.push(b' ')?;
    push_number(out, clauses as u64)?;
    out.push(b'\n')
}

/// Adds a literal, and a blank.
fn push_literal(out: &mut Bytes, it: Literal) -> Result<(), AllocError>
    ensures word { OnOk result (out.new ≡ out.old ++ literal_word it) }
{
    if !it.wants {
        out.push(b'-')?;
    }
    push_number(out, u64::from(it.variable) + 1)?;
    out.push(b' ')
}

/// Adds the line of a clause.
fn push_clause(out: &mut Bytes, clause: &[Literal]) -> Result<(), AllocError>
    ensures line { OnOk result (out.new ≡ out.old ++ clause_line clause.now) }
{
    for it in clause {
        push_literal(out, *it)?;
    }
    out.append(b"0\n")
}

/// Adds the lines of all clauses.
pub(crate) fn push_clauses(out: &mut Bytes, clauses: &[Literals]) -> Result<(), AllocError>
    ensures lines { OnOk result (out.new ≡ out.old ++ flat_map clause_line clauses.now) }
{
    for clause in clauses {
        push_clause(out, clause.as_slice())?;
    }
    Ok(())
}
