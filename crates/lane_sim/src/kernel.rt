//! The lanes of a gate, from those of the nets at its pins.
ghost use Rattle.std.specs.Prelude.{◌≡◌, ◌≤◌, length, All, IsTrue};
ghost use Rattle.tsc_net.specs.Fault.{stuck_at_or_none};
ghost use Rattle.fault_secure.specs.StuckAt.{StuckAt, on_stem, on_pin};
ghost use Rattle.lane_sim.specs.Lanes.{HasLanes, lane_bit};
ghost use Rattle.lane_sim.specs.Spans.{IsSpan, AreSpans, piece, pieces};
ghost use Rattle.lane_sim.specs.Gate.{IsOperand, SpansHaveOperands, operand_in, term_operand, operand_bit, term_bit, each_bit, span_bit, gate_bit, IsElsewhere};

use crate::gate::{ListRange, Operand, Term};
use crate::lanes::{constant, join, load, meet, signed};
use std::simd::Simd;
use tsc_net::Fault;

/// The members of a list in a span.
pub(crate) fn span_of(spans: &[ListRange], span: ListRange) -> &[ListRange]
    requires inside { IsSpan (length spans.now) span }
    ensures piece { result.now ≡ piece spans.now span }
{
    &spans[span.start..span.end]
}

/// The terms in a span.
fn terms_of(terms: &[Term], span: ListRange) -> &[Term]
    requires inside { IsSpan (length terms.now) span }
    ensures piece { result.now ≡ piece terms.now span }
{
    &terms[span.start..span.end]
}

/// The lanes of a node that no fault touches; the rows of its cover are spans of terms, and `on` says whether they are the on-set.
pub(crate) fn free_lanes<const N: usize>(
    terms: &[Term],
    rows: &[ListRange],
    on: bool,
    words: &[u64],
    block: &[u64],
) -> Simd<u64, N>
    requires few { N ≤ 16 }
    requires inside { AreSpans (length terms.now) rows.now }
    requires operands { SpansHaveOperands words.now block.now terms.now rows.now }
    ensures lanes { HasLanes N result (λ p. gate_bit StuckAt.NoFault 0 words.now block.now p on (pieces terms.now rows.now)) }
{
    signed(on, some_row(terms, rows, words, block))
}

/// The lanes of the net `driver` of a node at which a fault may be, or at whose pins' nets.
pub(crate) fn held_lanes<const N: usize>(
    terms: &[Term],
    rows: &[ListRange],
    on: bool,
    driver: usize,
    words: &[u64],
    block: &[u64],
    fault: Option<Fault>,
) -> Simd<u64, N>
    requires few { N ≤ 16 }
    requires inside { AreSpans (length terms.now) rows.now }
    requires operands { SpansHaveOperands words.now block.now terms.now rows.now }
    ensures lanes { HasLanes N result (λ p. gate_bit (stuck_at_or_none fault) driver words.now block.now p on (pieces terms.now rows.now)) }
{
    let some = some_held_row(terms, rows, driver, words, block, fault);
    at_stem(fault, driver, signed(on, some))
}

/// True only where the fault, if there is one, is at no input or latch output, and neither at a node nor at its pins; what rests on
/// false is time alone.
pub(crate) fn is_elsewhere(fault: Option<Fault>, driver: usize, first: usize) -> bool
    ensures elsewhere { IsTrue result → IsElsewhere driver first (stuck_at_or_none fault) }
{
    match fault {
        None => true,
        Some(Fault::Stem { net, value: _ }) => {
            first <= net.number as usize && net.number as usize != driver
        }
        Some(
            Fault::Pin {
                driver: at,
                index: _,
                value: _,
            },
        ) => at.number as usize != driver,
    }
}

/// Where each term of some row passes.
fn some_row<const N: usize>(
    terms: &[Term],
    rows: &[ListRange],
    words: &[u64],
    block: &[u64],
) -> Simd<u64, N>
    requires few { N ≤ 16 }
    requires inside { AreSpans (length terms.now) rows.now }
    requires operands { SpansHaveOperands words.now block.now terms.now rows.now }
    ensures lanes { HasLanes N result (λ p. span_bit StuckAt.NoFault 0 words.now block.now p terms.now rows.now) }
{
    let mut some = constant(false);
    for row in rows {
        some = join(some, each_term(terms_of(terms, *row), words, block));
    }
    some
}

/// Where each term of a row passes.
fn each_term<const N: usize>(terms: &[Term], words: &[u64], block: &[u64]) -> Simd<u64, N>
    requires few { N ≤ 16 }
    requires operands { All (λ term. IsOperand words.now block.now (term_operand term)) terms.now }
    ensures lanes { HasLanes N result (λ p. each_bit StuckAt.NoFault 0 words.now block.now p terms.now) }
{
    let mut each = constant(true);
    for term in terms {
        each = meet(each, term_lanes(*term, words, block));
    }
    each
}

/// Where a term passes: the pin reads the bit that the term wants.
fn term_lanes<const N: usize>(term: Term, words: &[u64], block: &[u64]) -> Simd<u64, N>
    requires few { N ≤ 16 }
    requires operand { IsOperand words.now block.now (term_operand term) }
    ensures lanes { HasLanes N result (λ p. term_bit StuckAt.NoFault 0 words.now block.now p term) }
{
    signed(term.wants, load_operand(words, block, term_operand(term)))
}

/// The operand of this number, in the rows or among the points' lanes.
pub(crate) fn operand_in(in_rows: bool, number: u32) -> Operand
    ensures operand { result ≡ operand_in in_rows number }
{
    if in_rows {
        Operand::Row(number)
    } else {
        Operand::Points(number)
    }
}

/// Where the lanes are at the pin that a term reads.
fn term_operand(term: Term) -> Operand
    ensures operand { result ≡ term_operand term }
{
    operand_in(term.in_rows, term.number)
}

/// The lanes that are at an operand.
pub(crate) fn load_operand<const N: usize>(
    words: &[u64],
    block: &[u64],
    operand: Operand,
) -> Simd<u64, N>
    requires few { N ≤ 16 }
    requires operand { IsOperand words.now block.now operand }
    ensures lanes { HasLanes N result (λ p. operand_bit StuckAt.NoFault words.now block.now p operand) }
{
    let (from, at) = match operand {
        Operand::Points(net) => (words, net),
        Operand::Row(row) => (block, row),
    };
    load(from, at as usize)
}

/// Where each term of some row passes under a fault.
fn some_held_row<const N: usize>(
    terms: &[Term],
    rows: &[ListRange],
    driver: usize,
    words: &[u64],
    block: &[u64],
    fault: Option<Fault>,
) -> Simd<u64, N>
    requires few { N ≤ 16 }
    requires inside { AreSpans (length terms.now) rows.now }
    requires operands { SpansHaveOperands words.now block.now terms.now rows.now }
    ensures lanes { HasLanes N result (λ p. span_bit (stuck_at_or_none fault) driver words.now block.now p terms.now rows.now) }
{
    let mut some = constant(false);
    for row in rows {
        some = join(
            some,
            each_held_term(terms_of(terms, *row), driver, words, block, fault),
        );
    }
    some
}

/// Where each term of a row passes under a fault.
fn each_held_term<const N: usize>(
    terms: &[Term],
    driver: usize,
    words: &[u64],
    block: &[u64],
    fault: Option<Fault>,
) -> Simd<u64, N>
    requires few { N ≤ 16 }
    requires operands { All (λ term. IsOperand words.now block.now (term_operand term)) terms.now }
    ensures lanes { HasLanes N result (λ p. each_bit (stuck_at_or_none fault) driver words.now block.now p terms.now) }
{
    let mut each = constant(true);
    for term in terms {
        each = meet(each, held_term_lanes(*term, driver, words, block, fault));
    }
    each
}

/// Where a term passes under a fault.
fn held_term_lanes<const N: usize>(
    term: Term,
    driver: usize,
    words: &[u64],
    block: &[u64],
    fault: Option<Fault>,
) -> Simd<u64, N>
    requires few { N ≤ 16 }
    requires operand { IsOperand words.now block.now (term_operand term) }
    ensures lanes { HasLanes N result (λ p. term_bit (stuck_at_or_none fault) driver words.now block.now p term) }
{
    let net = held_load(words, block, term_operand(term), fault);
    signed(term.wants, at_pin(fault, driver, term.pin as usize, net))
}

/// The lanes that are at an operand, where the stem of an input or a latch output may be held.
pub(crate) fn held_load<const N: usize>(
    words: &[u64],
    block: &[u64],
    operand: Operand,
    fault: Option<Fault>,
) -> Simd<u64, N>
    requires few { N ≤ 16 }
    requires operand { IsOperand words.now block.now operand }
    ensures lanes { HasLanes N result (λ p. operand_bit (stuck_at_or_none fault) words.now block.now p operand) }
{
    match operand {
        Operand::Points(net) => at_stem(fault, net as usize, load(words, net as usize)),
        Operand::Row(row) => load(block, row as usize),
    }
}

/// What a net has: the held bit at each point where the fault is its stem.
pub(crate) fn at_stem<const N: usize>(
    fault: Option<Fault>,
    net: usize,
    lanes: Simd<u64, N>,
) -> Simd<u64, N>
    ensures lanes { HasLanes N result (λ p. on_stem (stuck_at_or_none fault) net (lane_bit lanes.entry p)) }
{
    match fault {
        Some(Fault::Stem { net: at, value }) if at.number as usize == net => constant(value),
        _ => lanes,
    }
}

/// What a pin reads: the held bit at each point where the fault is that pin.
pub(crate) fn at_pin<const N: usize>(
    fault: Option<Fault>,
    driver: usize,
    pin: usize,
    lanes: Simd<u64, N>,
) -> Simd<u64, N>
    ensures lanes { HasLanes N result (λ p. on_pin (stuck_at_or_none fault) driver pin (lane_bit lanes.entry p)) }
{
    match fault {
        Some(
            Fault::Pin {
                driver: at,
                index,
                value,
            },
        ) if at.number as usize == driver && index == pin => constant(value),
        _ => lanes,
    }
}
