//! The clauses of covers.
ghost use Rattle.std.specs.Prelude.{◌≡◌, ◌+◌, ◌<◌, ◌^◌, ◌++◌, length, map, nat_eq, slice_index, IfOk, OnOk};
ghost use Rattle.std.specs.List.{list_any};
ghost use Rattle.question_text.specs.Gates.{after_clauses};
ghost use Rattle.question_text.specs.Covers.{at_net, cover_gates, next_row, row_gates, row_literal, row_literals, rows_gates, some_row, wide};

use crate::clauses::{Clauses, Literals};
use crate::gates::{one, push_and, push_or};
use refutations::Literal;
use std::alloc::{AllocError, Global};
use tsc_io::Items;

/// The number at a place, and 0 past the end.
pub(crate) fn number_at(numbers: &[u32], place: usize) -> u32
    ensures number { result ≡ slice_index numbers.now place }
{
    match numbers.get(place) {
        Some(number) => *number,
        None => 0,
    }
}

/// A literal over a net, by the number of the net.
fn at_net(numbers: &[u32], l: Literal) -> Literal
    ensures literal { result ≡ at_net numbers.now l }
{
    Literal {
        variable: number_at(numbers, l.variable as usize),
        wants: l.wants,
    }
}

/// Literals over nets, by the numbers of the nets.
fn at_nets(alloc: Global, numbers: &[u32], literals: &[Literal]) -> Result<Literals, AllocError>
    ensures literals { IfOk result (λ list. list ≡ map (at_net numbers.now) literals.now) }
{
    let mut made = Items::new(alloc);
    for it in literals {
        made.push(at_net(numbers, *it))?;
    }
    Ok(made)
}

/// The number of the next row's variable.
pub(crate) fn next_row(at: u32, row: &[Literal]) -> u32
    requires room { next_row at row.now < 2 ^ 32 }
    ensures next { result ≡ next_row at row.now }
{
    if row.len() >= 2 { at + 1 } else { at }
}

/// Adds the clauses of a row's variable, where it has one.
fn push_row(out: &mut Clauses, numbers: &[u32], at: u32, row: &[Literal]) -> Result<(), AllocError>
    ensures clauses { OnOk result (out.new ≡ after_clauses out.old (row_gates numbers.now at row.now)) }
{
    if row.len() >= 2 {
        let literals = at_nets(out.alloc(), numbers, row)?;
        push_and(out, at, literals.as_slice())
    } else {
        Ok(())
    }
}

/// Adds the clauses of the rows' variables.
fn push_rows(
    out: &mut Clauses,
    numbers: &[u32],
    first: u32,
    rows: &[Literals],
) -> Result<(), AllocError>
    requires room { first + wide rows.now < 2 ^ 32 }
    ensures clauses { OnOk result (out.new ≡ after_clauses out.old (rows_gates numbers.now first rows.now)) }
{
    let mut at = first;
    for row in rows {
        push_row(out, numbers, at, row.as_slice())?;
        at = next_row(at, row.as_slice());
    }
    Ok(())
}

/// The literal that is true where a row matches.
fn row_literal(numbers: &[u32], at: u32, row: &[Literal]) -> Literal
    ensures literal { result ≡ row_literal numbers.now at row.now }
{
    if row.len() == 1 {
        at_net(numbers, row[0])
    } else {
        one(at)
    }
}

/// The literals that are true where the rows match.
fn row_literals(
    alloc: Global,
    numbers: &[u32],
    first: u32,
    rows: &[Literals],
) -> Result<Literals, AllocError>
    requires room { first + wide rows.now < 2 ^ 32 }
    ensures literals { IfOk result (λ list. list ≡ row_literals numbers.now first rows.now) }
{
    let mut made = Items::new(alloc);
    let mut at = first;
    for row in rows {
        made.push(row_literal(numbers, at, row.as_slice()))?;
        at = next_row(at, row.as_slice());
    }
    Ok(made)
}

/// Whether some row asks for nothing.
fn asks_nothing(rows: &[Literals]) -> bool
    ensures some { result ≡ list_any (λ row. nat_eq (length row) 0) rows.now }
{
    rows.iter().any(|row| row.len() == 0)
}

/// Adds that some row matches where a literal is true.
fn push_some_row(
    out: &mut Clauses,
    numbers: &[u32],
    first: u32,
    matched: Literal,
    rows: &[Literals],
) -> Result<(), AllocError>
    requires room { first + wide rows.now < 2 ^ 32 }
    ensures clauses { OnOk result (out.new ≡ after_clauses out.old (some_row numbers.now first matched rows.now)) }
{
    if asks_nothing(rows) {
        out.push(&[matched])
    } else {
        let literals = row_literals(out.alloc(), numbers, first, rows)?;
        push_or(out, matched, literals.as_slice())
    }
}

/// Adds the clauses of a cover with these rows.
pub(crate) fn push_cover(
    out: &mut Clauses,
    numbers: &[u32],
    first: u32,
    matched: Literal,
    rows: &[Literals],
) -> Result<(), AllocError>
    requires room { first + wide rows.now < 2 ^ 32 }
    ensures clauses { OnOk result (out.new ≡ after_clauses out.old (cover_gates numbers.now first matched rows.now)) }
{
    push_rows(out, numbers, first, rows)?;
    push_some_row(out, numbers, first, matched, rows)
}
