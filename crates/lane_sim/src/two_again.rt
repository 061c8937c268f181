//! The lanes of gates of at most two pins, where it is asked whether they change.
ghost use Rattle.std.specs.Prelude.{◌≡◌, ◌≢◌, ℕ, ◌+◌, ◌*◌, ◌/◌, ◌%◌, ◌<◌, ◌≤◌, false, length};
ghost use Rattle.tsc_net.specs.Fault.{stuck_at_or_none};
ghost use Rattle.lane_sim.specs.Points.{source_bit};
ghost use Rattle.lane_sim.specs.Gate.{IsOperand};
ghost use Rattle.lane_sim.specs.TwoPins.{AreMasks};
ghost use Rattle.lane_sim.specs.Operation.{IsAligned, first_operand, second_operand, two_bit, free_bit};

use crate::changing::{change, change_part, is_somewhere};
use crate::gate::TwoPins;
use crate::kernel::is_elsewhere;
use crate::lanes::{constant, join};
use crate::masks::{ANY, formula_lanes, mask_pair};
use crate::two_pins::{held_pair_lanes, load_operand_part};
use std::simd::Simd;
use tsc_net::Fault;

/// Writes the lanes of the net `driver` of a node under a fault into a row, and says whether that changed them. `first` is the net of
/// the first node.
pub(crate) fn change_two(
    gate: TwoPins,
    masks: &[u64],
    to: usize,
    driver: usize,
    first: usize,
    words: &[u64],
    block: &mut [u64],
    fault: Option<Fault>,
) -> bool
    requires start { to % 16 ≡ 0 }
    requires room { to + 16 ≤ length block.old }
    requires sources { length words.now ≡ first * 16 }
    requires masks { AreMasks masks.now }
    requires aligned { IsAligned gate }
    requires first_operand { IsOperand words.now block.old (first_operand gate) }
    requires second_operand { IsOperand words.now block.old (second_operand gate) }
    ensures here { (p : ℕ) → p < 1024 → source_bit block.new (to / 16) p ≡ two_bit (stuck_at_or_none fault) driver words.now block.old p gate }
    ensures others { (other p : ℕ) → p < 1024 → other ≢ to / 16 → source_bit block.new other p ≡ source_bit block.old other p }
    ensures same { result ≡ false → (p : ℕ) → p < 1024 → source_bit block.new (to / 16) p ≡ source_bit block.old (to / 16) p }
    ensures sized { length block.new ≡ length block.old }
{
    if is_elsewhere(fault, driver, first) {
        return change_free(gate, masks, to, words, block);
    }
    change_held(gate, masks, to, driver, words, block, fault)
}

/// Writes the lanes of a gate that no fault touches into a row: two words at a time, a register's.
fn change_free(gate: TwoPins, masks: &[u64], to: usize, words: &[u64], block: &mut [u64]) -> bool
    requires start { to % 16 ≡ 0 }
    requires room { to + 16 ≤ length block.old }
    requires masks { AreMasks masks.now }
    requires aligned { IsAligned gate }
    requires first_operand { IsOperand words.now block.old (first_operand gate) }
    requires second_operand { IsOperand words.now block.old (second_operand gate) }
    ensures here { (p : ℕ) → p < 1024 → source_bit block.new (to / 16) p ≡ free_bit words.now block.old p gate }
    ensures others { (other p : ℕ) → p < 1024 → other ≢ to / 16 → source_bit block.new other p ≡ source_bit block.old other p }
    ensures same { result ≡ false → (p : ℕ) → p < 1024 → source_bit block.new (to / 16) p ≡ source_bit block.old (to / 16) p }
    ensures sized { length block.new ≡ length block.old }
{
    let zero = mask_pair(masks, gate.masks, 0);
    let first = mask_pair(masks, gate.masks, 1);
    let second = mask_pair(masks, gate.masks, 2);
    let both = mask_pair(masks, gate.masks, 3);
    let negated = mask_pair(masks, gate.masks, 4);
    let mut changed: Simd<u64, 2> = constant(false);
    for part in 0..8 {
        let a = load_operand_part(words, block, gate.first_in_rows, gate.first, part * 2);
        let b = load_operand_part(words, block, gate.second_in_rows, gate.second, part * 2);
        let lanes = formula_lanes::<ANY, 2>(zero, first, second, both, negated, a, b);
        changed = join(changed, change_part(block, to, part * 2, lanes));
    }
    is_somewhere(changed)
}

/// Writes the lanes of the net `driver` of a node at which the fault may be, or at whose pins' nets.
fn change_held(
    gate: TwoPins,
    masks: &[u64],
    to: usize,
    driver: usize,
    words: &[u64],
    block: &mut [u64],
    fault: Option<Fault>,
) -> bool
    requires start { to % 16 ≡ 0 }
    requires room { to + 16 ≤ length block.old }
    requires masks { AreMasks masks.now }
    requires aligned { IsAligned gate }
    requires first_operand { IsOperand words.now block.old (first_operand gate) }
    requires second_operand { IsOperand words.now block.old (second_operand gate) }
    ensures here { (p : ℕ) → p < 1024 → source_bit block.new (to / 16) p ≡ two_bit (stuck_at_or_none fault) driver words.now block.old p gate }
    ensures others { (other p : ℕ) → p < 1024 → other ≢ to / 16 → source_bit block.new other p ≡ source_bit block.old other p }
    ensures same { result ≡ false → (p : ℕ) → p < 1024 → source_bit block.new (to / 16) p ≡ source_bit block.old (to / 16) p }
    ensures sized { length block.new ≡ length block.old }
{
    let lanes = held_pair_lanes::<16>(gate, masks, driver, words, block, fault);
    change(block, to / 16, lanes)
}
