//! The numbers of the variables of nets and nodes.
ghost use Rattle.std.specs.Prelude.{◌≡◌, ◌+◌, ◌-◌, ◌<◌, ◌≤◌, ◌^◌, ◌++◌, length, map, IfOk};
ghost use Rattle.fault_secure.specs.Circuit.{node};
ghost use Rattle.question_text.specs.Covers.{wide};
ghost use Rattle.question_text.specs.Nodes.{end_from, first_numbers, numbers_from, wide_of};
ghost use Rattle.question_text.specs.Failing.{cell_end, cell_from, cells_end, cells_from};

use crate::cells::Cell;
use crate::clauses::Literals;
use crate::covers::next_row;
use crate::rows::rows_of;
use std::alloc::{AllocError, Global};
use tsc_io::Items;
use tsc_net::Netlist;

/// A list of numbers.
pub(crate) type NumberList = Items<u32>;

/// A list of the variables of nodes.
pub(crate) type CellList = Items<Cell>;

/// The numbers of the nets of a copy, and the number behind its variables.
#[derive(Drop)]
pub(crate) struct Copy {
    /// The number of each net.
    pub numbers: NumberList,
    /// The number behind them and the rows.
    pub end: u32,
}

/// The variables of the nodes of the copy with a failing cell, and the number behind them.
#[derive(Drop)]
pub(crate) struct FailingCopy {
    /// The variables of each node.
    pub cells: CellList,
    /// The number behind them.
    pub end: u32,
}

/// The first numbers.
#[tactic(auto, using(crate::proofs::Ends::first_more))]
fn first_numbers(alloc: Global, count: usize) -> Result<NumberList, AllocError>
    requires few { count < 2 ^ 32 }
    ensures numbers { IfOk result (λ list. list ≡ first_numbers count) }
{
    let mut list = Items::new(alloc);
    for number in 0..count {
        list.push(number as u32)?;
    }
    Ok(list)
}

/// The number behind the variables of some rows.
fn rows_end(first: u32, rows: &[Literals]) -> u32
    requires room { first + wide rows.now < 2 ^ 32 }
    ensures end { result ≡ first + wide rows.now }
{
    let mut at = first;
    for row in rows {
        at = next_row(at, row.as_slice());
    }
    at
}

/// The number behind the variables of the rows of a node.
fn node_end(alloc: Global, first: u32, net: &Netlist, place: usize) -> Result<u32, AllocError>
    requires within { place < length net.now.circuit.nodes }
    requires room { first + wide_of (node net.now.circuit place) < 2 ^ 32 }
    ensures end { IfOk result (λ end. end ≡ first + wide_of (node net.now.circuit place)) }
{
    let rows = rows_of(alloc, net.node_cover(place), net.node_reads(place))?;
    Ok(rows_end(first, rows.as_slice()))
}

/// The numbers of the nets of a copy, whose nodes have variables from `first` on.
///
/// # Errors
///
/// Want of memory.
#[tactic(auto, using(crate::proofs::Ends::end_least))]
pub(crate) fn copy_from(alloc: Global, first: u32, net: &Netlist) -> Result<Copy, AllocError>
    requires room { end_from first net.now.circuit.nodes < 2 ^ 32 }
    ensures numbers { IfOk result (λ copy. copy.numbers ≡ first_numbers net.now.circuit.inputs ++ numbers_from first net.now.circuit.nodes) }
    ensures end { IfOk result (λ copy. copy.end ≡ end_from first net.now.circuit.nodes) }
{
    // What each netlist keeps is known from here on.
    let _nets = net.nets();
    let mut numbers = first_numbers(alloc, net.inputs())?;
    let mut at = first;
    for place in 0..net.nodes() {
        numbers.push(at)?;
        at = node_end(alloc, at + 1, net, place)?;
    }
    Ok(Copy { numbers, end: at })
}

/// The variables of a node from `at` on, where the number behind its rows is `rows_end`.
fn cell_from(place: usize, at: u32, rows_end: u32) -> Cell
    requires behind { at + 3 ≤ rows_end }
    requires room { rows_end + 1 < 2 ^ 32 }
    ensures cell { result ≡ cell_from place at (rows_end - (at + 3)) }
{
    Cell {
        choice: at,
        gate: at + 1,
        net: at + 2,
        rows: at + 3,
        differs: rows_end,
        chosen: if place == 0 { at } else { rows_end + 1 },
    }
}

/// The number behind the variables of a node, where that behind its rows is `rows_end`.
fn cell_end(place: usize, at: u32, rows_end: u32) -> u32
    requires behind { at + 3 ≤ rows_end }
    requires room { cell_end place at (rows_end - (at + 3)) < 2 ^ 32 }
    ensures end { result ≡ cell_end place at (rows_end - (at + 3)) }
{
    if place == 0 {
        rows_end + 1
    } else {
        rows_end + 2
    }
}

/// The variables of the nodes of the copy with a failing cell, from `first` on.
///
/// # Errors
///
/// Want of memory.
#[tactic(auto, using(crate::proofs::Ends::cells_least, crate::proofs::Ends::cell_least))]
pub(crate) fn failing_from(
    alloc: Global,
    first: u32,
    net: &Netlist,
) -> Result<FailingCopy, AllocError>
    requires room { cells_end 0 first net.now.circuit.nodes < 2 ^ 32 }
    ensures cells { IfOk result (λ copy. copy.cells ≡ cells_from 0 first net.now.circuit.nodes) }
    ensures end { IfOk result (λ copy. copy.end ≡ cells_end 0 first net.now.circuit.nodes) }
{
    let mut cells = Items::new(alloc);
    let mut at = first;
    for place in 0..net.nodes() {
        let rows_end = node_end(alloc, at + 3, net, place)?;
        cells.push(cell_from(place, at, rows_end))?;
        at = cell_end(place, at, rows_end);
    }
    Ok(FailingCopy { cells, end: at })
}

/// The numbers of the nets of the copy with a failing cell.
///
/// # Errors
///
/// Want of memory.
pub(crate) fn wrong_numbers(
    alloc: Global,
    inputs: usize,
    cells: &[Cell],
) -> Result<NumberList, AllocError>
    requires few { inputs < 2 ^ 32 }
    ensures numbers { IfOk result (λ list. list ≡ first_numbers inputs ++ map (λ c. c.net) cells.now) }
{
    let mut list = first_numbers(alloc, inputs)?;
    for cell in cells {
        list.push(cell.net)?;
    }
    Ok(list)
}
