//! The rows of a cover as literals over nets.
ghost use Rattle.std.specs.Prelude.{◌≡◌, ◌≤◌, ◌++◌, IfOk, OnOk, map};
ghost use Rattle.tsc_cover.specs.Cover.{literals};
ghost use Rattle.tsc_net.specs.PlanView.{net_numbers};
ghost use Rattle.exact_question.specs.Rows.{asked, written};
ghost use Rattle.question_text.specs.Covers.{asked_at};

use crate::clauses::{Clauses, Literals};
use refutations::Literal;
use std::alloc::{AllocError, Global};
use tsc_cover::{Cover, Row01, bit_at};
use tsc_io::Items;
use tsc_net::NetId;

/// What the rows of a cover ask of the nets at its pins, without the rows that ask a net for both bits.
///
/// # Errors
///
/// Want of memory.
pub(crate) fn rows_of(alloc: Global, cover: &Cover, reads: &[NetId]) -> Result<Clauses, AllocError>
    ensures rows { IfOk result (λ rows. rows ≡ written (map (λ row. asked row (net_numbers reads.now)) cover.now.rows)) }
{
    let mut made = Clauses::new(alloc);
    let width = cover.width();
    for row in cover.rows() {
        let literals = asked(alloc, row, width, reads)?;
        made.push(literals.as_slice())?;
    }
    Ok(made)
}

/// What a row asks of the nets at its pins.
fn asked(alloc: Global, row: &Row01, width: usize, reads: &[NetId]) -> Result<Literals, AllocError>
    requires wide { width ≤ 64 }
    ensures asked { IfOk result (λ list. list ≡ asked (literals width row.now.care row.now.value) (net_numbers reads.now)) }
{
    let mut made = Items::new(alloc);
    for (pin, net) in reads.iter().enumerate() {
        push_asked(&mut made, row, width, pin, *net)?;
    }
    Ok(made)
}

/// Adds what a row asks of the net at a pin.
fn push_asked(
    list: &mut Literals,
    row: &Row01,
    width: usize,
    pin: usize,
    net: NetId,
) -> Result<(), AllocError>
    requires wide { width ≤ 64 }
    ensures asked { OnOk result (list.new ≡ list.old ++ asked_at width row.now.care row.now.value pin net.number) }
{
    if pin < width && bit_at(row.care, width - 1 - pin) {
        list.push(Literal {
            variable: net.number,
            wants: bit_at(row.value, width - 1 - pin),
        })
    } else {
        Ok(())
    }
}
