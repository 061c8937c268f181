//! The counter of zeros of a Berger checker.
ghost use Rattle.std.specs.Prelude.{◌<◌, ◌^◌, ◌==◌, length, IfOk};
ghost use Rattle.code_checkers.specs.Signal.Signal.{Not, And, Xor};
ghost use Rattle.code_checkers.specs.Counter.{add_carry as add_carry_of, count_zeros as count_zeros_of};
ghost use Rattle.code_checkers.specs.Gates.{meaning};
ghost use Rattle.code_checkers.specs.Draft.{AreWithin, meanings, AreAdded, PairIsAdded};

use crate::draft::Draft;
use crate::gate::CheckGate;
use crate::pair_places::PairPlaces;
use std::alloc::{AllocError, Global};

/// Adds the sum and the carry of two bits.
fn half_adder(draft: &mut Draft, bit: usize, carry: usize) -> Result<PairPlaces, AllocError>
    requires bit { bit < length draft.old }
    requires carry { carry < length draft.old }
    ensures added { IfOk result (λ p. PairIsAdded draft.old draft.new (record { first = Xor (meaning draft.old bit) (meaning draft.old carry); second = And (meaning draft.old bit) (meaning draft.old carry) }) p) }
{
    let first = draft.add(CheckGate::Xor { a: bit, b: carry })?;
    let second = draft.add(CheckGate::And { a: bit, b: carry })?;
    Ok(PairPlaces { first, second })
}

/// Adds a carry to counted bits, the least significant first. Where the counter grows, the last carry is a new bit.
fn add_carry(
    alloc: Global,
    draft: &mut Draft,
    bits: &[usize],
    carry: usize,
    grows: bool,
) -> Result<Vec<usize>, AllocError>
    requires bits { AreWithin draft.old bits.now }
    requires carry { carry < length draft.old }
    ensures added { IfOk result (λ next. AreAdded draft.old draft.new (add_carry_of grows (meaning draft.old carry) (meanings draft.old bits.now)) next.items) }
{
    let mut next = Vec::new(alloc);
    let mut carried = carry;
    for bit in bits {
        let sum = half_adder(draft, *bit, carried)?;
        next.push(sum.first)?;
        carried = sum.second;
    }
    if grows {
        next.push(carried)?;
    }
    Ok(next)
}

/// Counts on over one item, the one with this number, from 1.
fn count_one(
    alloc: Global,
    draft: &mut Draft,
    bits: &[usize],
    item: usize,
    number: usize,
) -> Result<Vec<usize>, AllocError>
    requires bits { AreWithin draft.old bits.now }
    requires item { item < length draft.old }
    requires small { length bits.now < 64 }
    ensures added { IfOk result (λ next. AreAdded draft.old draft.new (add_carry_of (number == 2 ^ length bits.now) (Not (meaning draft.old item)) (meanings draft.old bits.now)) next.items) }
{
    let carry = draft.add(CheckGate::Not { a: item })?;
    let grows = number == 1 << bits.len();
    let next = add_carry(alloc, draft, bits, carry, grows)?;
    Ok(next)
}

/// Adds the number of zeros among the items in binary, the least significant bit first.
pub fn count_zeros(
    alloc: Global,
    draft: &mut Draft,
    items: &[usize],
) -> Result<Vec<usize>, AllocError>
    requires items { AreWithin draft.old items.now }
    requires small { length items.now < 2 ^ 32 }
    ensures added { IfOk result (λ bits. AreAdded draft.old draft.new (count_zeros_of (meanings draft.old items.now)) bits.items) }
{
    let mut bits = Vec::new(alloc);
    let mut number = 1;
    for item in items {
        bits = count_one(alloc, draft, &bits, *item, number)?;
        number += 1;
    }
    Ok(bits)
}
