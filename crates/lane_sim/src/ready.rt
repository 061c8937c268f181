//! The covers of a netlist as terms, and where the lanes of its nets are.
ghost use Rattle.std.specs.Prelude.{◌≡◌, ℕ, ◌+◌, ◌<◌, ◌≤◌, ◌^◌, [], ◌∷◌, ◌++◌, if◌then◌else◌, length, map, All, IfOk, OnOk, IsSome, Some};
ghost use Rattle.tsc_cover.specs.Row.{literals_of};
ghost use Rattle.tsc_net.specs.PlanView.{net_numbers};
ghost use Rattle.lane_rows.specs.Rows.{row_of};
ghost use Rattle.lane_sim.specs.Gate.{is_in_rows, number_of, term_at};
ghost use Rattle.lane_sim.specs.Program.{operand_of, terms_of};

use crate::gate::{Operand, Term, TermList};
use lane_rows::Assignment;
use std::alloc::{AllocError, Global};
use tsc_cover::{Cover, Row01, bit_at};
use tsc_io::Items;
use tsc_net::NetId;

/// The rows of a cover as terms; its pins read these nets.
///
/// # Errors
///
/// Want of memory.
pub(crate) fn terms_of(
    alloc: Global,
    cover: &Cover,
    reads: &[NetId],
    first: usize,
    rows: &Assignment,
) -> Result<Items<TermList>, AllocError>
    requires pins { length reads.now ≤ 64 }
    requires width { cover.now.width ≡ length reads.now }
    requires sized { All (λ read. read.number < length rows.now.rows) reads.now }
    requires few { (net row : ℕ) → row_of rows.now.rows net ≡ Some row → row < 2 ^ 28 }
    requires some { (net : ℕ) → first ≤ net → net < length rows.now.rows → IsSome (row_of rows.now.rows net) }
    ensures terms { IfOk result (λ terms. terms ≡ map (terms_of first rows.now.rows (net_numbers reads.now)) cover.now.rows) }
{
    let table = cover.rows();
    let mut terms = Items::with_room(alloc, table.len())?;
    for row in table {
        terms.push(row_terms(alloc, row, reads, first, rows)?)?;
    }
    Ok(terms)
}

/// The terms of a cover's row: one for each pin that it reads.
fn row_terms(
    alloc: Global,
    row: &Row01,
    reads: &[NetId],
    first: usize,
    rows: &Assignment,
) -> Result<TermList, AllocError>
    requires width { length reads.now ≤ 64 }
    requires sized { All (λ read. read.number < length rows.now.rows) reads.now }
    requires few { (net row : ℕ) → row_of rows.now.rows net ≡ Some row → row < 2 ^ 28 }
    requires some { (net : ℕ) → first ≤ net → net < length rows.now.rows → IsSome (row_of rows.now.rows net) }
    ensures terms { IfOk result (λ terms. terms ≡ terms_of first rows.now.rows (net_numbers reads.now) (literals_of (length reads.now) row.now)) }
{
    let mut terms = Items::with_room(alloc, reads.len())?;
    for (pin, net) in reads.iter().enumerate() {
        let place = reads.len() - 1 - pin;
        let operand = operand_of(rows, first, *net);
        push_term(
            &mut terms,
            bit_at(row.care, place),
            term_at(operand, pin as u8, bit_at(row.value, place)),
        )?;
    }
    Ok(terms)
}

/// The term of a pin whose lanes are at this operand.
fn term_at(operand: Operand, pin: u8, wants: bool) -> Term
    ensures term { result ≡ term_at operand pin wants }
{
    Term {
        number: number_of(operand),
        in_rows: is_in_rows(operand),
        pin,
        wants,
    }
}

/// Whether an operand is a row.
pub(crate) fn is_in_rows(operand: Operand) -> bool
    ensures is { result ≡ is_in_rows operand }
{
    match operand {
        Operand::Points(_) => false,
        Operand::Row(_) => true,
    }
}

/// The number of an operand: of the row, or of the net among the points' lanes.
pub(crate) fn number_of(operand: Operand) -> u32
    ensures number { result ≡ number_of operand }
{
    match operand {
        Operand::Points(net) => net,
        Operand::Row(row) => row,
    }
}

/// Adds a term if the row reads its pin.
fn push_term(terms: &mut TermList, care: bool, term: Term) -> Result<(), AllocError>
    ensures ok { OnOk result (terms.new ≡ terms.old ++ (if care then term ∷ [] else [])) }
{
    if care {
        terms.push(term)?;
    }
    Ok(())
}

/// Where the lanes of a net are: of an input or a latch output among those of the points, of a node's net in its row.
pub(crate) fn operand_of(rows: &Assignment, first: usize, net: NetId) -> Operand
    requires sized { net.number < length rows.now.rows }
    requires few { (net row : ℕ) → row_of rows.now.rows net ≡ Some row → row < 2 ^ 28 }
    requires some { first ≤ net.number → IsSome (row_of rows.now.rows net.number) }
    ensures operand { result ≡ operand_of first rows.now.rows net.number }
{
    if (net.number as usize) < first {
        Operand::Points(net.number)
    } else {
        Operand::Row(rows.row(net).unwrap() as u32)
    }
}
