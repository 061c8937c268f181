//! The lanes of gates of at most two pins.
ghost use Rattle.std.specs.Prelude.{◌≡◌, ◌≢◌, ℕ, ◌+◌, ◌*◌, ◌/◌, ◌%◌, ◌<◌, ◌≤◌, length};
ghost use Rattle.tsc_net.specs.Fault.{stuck_at_or_none};
ghost use Rattle.fault_secure.specs.StuckAt.{StuckAt};
ghost use Rattle.lane_sim.specs.Lanes.{HasLanes, lane_bit};
ghost use Rattle.lane_sim.specs.Points.{source_bit};
ghost use Rattle.lane_sim.specs.Gate.{IsOperand, operand_at, operand_bit};
ghost use Rattle.lane_sim.specs.TwoPins.{AreMasks, HasFormula, table_bit};
ghost use Rattle.lane_sim.specs.Operation.{IsAligned, first_operand, second_operand, table_of, two_bit, free_bit};

use crate::gate::{Operand, TwoPins};
use crate::kernel::{at_pin, at_stem, held_load, is_elsewhere, load_operand, operand_in};
use crate::lanes::{load_part, store, store_part};
use crate::masks::{
    ANY, DIFFERENCE, DIFFERENCES, PRODUCT, PRODUCTS, SUM, formula_lanes, mask, mask_pair,
};
use std::simd::Simd;
use tsc_net::Fault;

/// Writes the lanes of the net `driver` of a node under a fault into a row. `first` is the net of the first node.
pub(crate) fn settle_two<const N: usize, const FORMULAS: bool>(
    gate: TwoPins,
    masks: &[u64],
    to: usize,
    driver: usize,
    first: usize,
    words: &[u64],
    block: &mut [u64],
    fault: Option<Fault>,
)
    requires few { N ≤ 16 }
    requires start { to % 16 ≡ 0 }
    requires room { to + 16 ≤ length block.old }
    requires sources { length words.now ≡ first * 16 }
    requires masks { AreMasks masks.now }
    requires aligned { IsAligned gate }
    requires first_operand { IsOperand words.now block.old (first_operand gate) }
    requires second_operand { IsOperand words.now block.old (second_operand gate) }
    ensures here { (p : ℕ) → p < N * 64 → source_bit block.new (to / 16) p ≡ two_bit (stuck_at_or_none fault) driver words.now block.old p gate }
    ensures others { (other p : ℕ) → p < N * 64 → other ≢ to / 16 → source_bit block.new other p ≡ source_bit block.old other p }
    ensures sized { length block.new ≡ length block.old }
{
    if is_elsewhere(fault, driver, first) {
        settle_free::<N, FORMULAS>(gate, masks, to, words, block);
    } else {
        let lanes = held_pair_lanes::<N>(gate, masks, driver, words, block, fault);
        store(block, to / 16, lanes);
    }
}

/// Writes the lanes of a gate that no fault touches into a row.
fn settle_free<const N: usize, const FORMULAS: bool>(
    gate: TwoPins,
    masks: &[u64],
    to: usize,
    words: &[u64],
    block: &mut [u64],
)
    requires few { N ≤ 16 }
    requires start { to % 16 ≡ 0 }
    requires room { to + 16 ≤ length block.old }
    requires masks { AreMasks masks.now }
    requires aligned { IsAligned gate }
    requires first_operand { IsOperand words.now block.old (first_operand gate) }
    requires second_operand { IsOperand words.now block.old (second_operand gate) }
    ensures here { (p : ℕ) → p < N * 64 → source_bit block.new (to / 16) p ≡ free_bit words.now block.old p gate }
    ensures others { (other p : ℕ) → p < N * 64 → other ≢ to / 16 → source_bit block.new other p ≡ source_bit block.old other p }
    ensures sized { length block.new ≡ length block.old }
{
    if N == 16 {
        settle_parts::<FORMULAS>(gate, masks, to, words, block);
    } else {
        let a = load_operand(words, block, operand_at(gate.first_in_rows, gate.first));
        let b = load_operand(words, block, operand_at(gate.second_in_rows, gate.second));
        store(block, to / 16, function_lanes::<N>(masks, gate.masks, a, b));
    }
}

/// Writes all sixteen words of the lanes of a gate that no fault touches into a row, by the formula of its function or by what
/// serves for every function.
fn settle_parts<const FORMULAS: bool>(
    gate: TwoPins,
    masks: &[u64],
    to: usize,
    words: &[u64],
    block: &mut [u64],
)
    requires start { to % 16 ≡ 0 }
    requires room { to + 16 ≤ length block.old }
    requires masks { AreMasks masks.now }
    requires aligned { IsAligned gate }
    requires first_operand { IsOperand words.now block.old (first_operand gate) }
    requires second_operand { IsOperand words.now block.old (second_operand gate) }
    ensures here { (p : ℕ) → p < 1024 → source_bit block.new (to / 16) p ≡ free_bit words.now block.old p gate }
    ensures others { (other p : ℕ) → p < 1024 → other ≢ to / 16 → source_bit block.new other p ≡ source_bit block.old other p }
    ensures sized { length block.new ≡ length block.old }
{
    if !FORMULAS {
        settle_by::<ANY>(gate, masks, to, words, block);
    } else if gate.masks >= PRODUCTS {
        settle_by::<PRODUCT>(gate, masks, to, words, block);
    } else if gate.masks >= DIFFERENCES {
        settle_by::<DIFFERENCE>(gate, masks, to, words, block);
    } else {
        settle_by::<SUM>(gate, masks, to, words, block);
    }
}

/// Writes them by one formula: two words at a time, a register's, so that they and the masks of the gate's function need no other
/// place.
fn settle_by<const FORMULA: usize>(
    gate: TwoPins,
    masks: &[u64],
    to: usize,
    words: &[u64],
    block: &mut [u64],
)
    requires formula { HasFormula FORMULA (table_of gate) }
    requires start { to % 16 ≡ 0 }
    requires room { to + 16 ≤ length block.old }
    requires masks { AreMasks masks.now }
    requires aligned { IsAligned gate }
    requires first_operand { IsOperand words.now block.old (first_operand gate) }
    requires second_operand { IsOperand words.now block.old (second_operand gate) }
    ensures here { (p : ℕ) → p < 1024 → source_bit block.new (to / 16) p ≡ free_bit words.now block.old p gate }
    ensures others { (other p : ℕ) → p < 1024 → other ≢ to / 16 → source_bit block.new other p ≡ source_bit block.old other p }
    ensures sized { length block.new ≡ length block.old }
{
    let constant = mask_pair(masks, gate.masks, 0);
    let first = mask_pair(masks, gate.masks, 1);
    let second = mask_pair(masks, gate.masks, 2);
    let both = mask_pair(masks, gate.masks, 3);
    let negated = mask_pair(masks, gate.masks, 4);
    for part in 0..8 {
        let a = load_operand_part(words, block, gate.first_in_rows, gate.first, part * 2);
        let b = load_operand_part(words, block, gate.second_in_rows, gate.second, part * 2);
        let lanes = formula_lanes::<FORMULA, 2>(constant, first, second, both, negated, a, b);
        store_part(block, to, part * 2, lanes);
    }
}

/// The operand whose words start at `start`, in the rows or among the points' lanes.
fn operand_at(in_rows: bool, start: u32) -> Operand
    ensures operand { result ≡ operand_at in_rows start }
{
    operand_in(in_rows, start / 16)
}

/// The lanes of the operand whose words start at `start`, from its word `from` on.
pub(crate) fn load_operand_part<const N: usize>(
    words: &[u64],
    block: &[u64],
    in_rows: bool,
    start: u32,
    from: usize,
) -> Simd<u64, N>
    requires few { from + N ≤ 16 }
    requires start { start % 16 ≡ 0 }
    requires operand { IsOperand words.now block.now (operand_at in_rows start) }
    ensures lanes { HasLanes N result (λ p. operand_bit StuckAt.NoFault words.now block.now (from * 64 + p) (operand_at in_rows start)) }
{
    let list = if in_rows { block } else { words };
    load_part(list, start as usize, from)
}

/// The lanes of the net `driver` of a node at which the fault may be, or at whose pins' nets.
pub(crate) fn held_pair_lanes<const N: usize>(
    gate: TwoPins,
    masks: &[u64],
    driver: usize,
    words: &[u64],
    block: &[u64],
    fault: Option<Fault>,
) -> Simd<u64, N>
    requires few { N ≤ 16 }
    requires masks { AreMasks masks.now }
    requires aligned { IsAligned gate }
    requires first_operand { IsOperand words.now block.now (first_operand gate) }
    requires second_operand { IsOperand words.now block.now (second_operand gate) }
    ensures lanes { HasLanes N result (λ p. two_bit (stuck_at_or_none fault) driver words.now block.now p gate) }
{
    let a = held_load(
        words,
        block,
        operand_at(gate.first_in_rows, gate.first),
        fault,
    );
    let b = held_load(
        words,
        block,
        operand_at(gate.second_in_rows, gate.second),
        fault,
    );
    let first = at_pin(fault, driver, 0, a);
    let second = at_pin(fault, driver, 1, b);
    at_stem(
        fault,
        driver,
        function_lanes(masks, gate.masks, first, second),
    )
}

/// The function whose masks start at a place, at each point.
fn function_lanes<const N: usize>(
    masks: &[u64],
    from: u8,
    a: Simd<u64, N>,
    b: Simd<u64, N>,
) -> Simd<u64, N>
    requires masks { AreMasks masks.now }
    requires start { from % 10 ≡ 0 }
    requires small { from < 160 }
    ensures lanes { HasLanes N result (λ p. table_bit (from / 10) (lane_bit a.entry p) (lane_bit b.entry p)) }
{
    let constant = mask(masks, from, 0);
    let first = mask(masks, from, 1);
    let second = mask(masks, from, 2);
    let both = mask(masks, from, 3);
    let negated = mask(masks, from, 4);
    formula_lanes::<ANY, N>(constant, first, second, both, negated, a, b)
}
