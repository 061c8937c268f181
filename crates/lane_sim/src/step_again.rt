//! A step of a settle, where it is asked whether it changes its row.
ghost use Rattle.std.specs.Prelude.{◌≡◌, ◌≢◌, ℕ, ◌+◌, ◌*◌, ◌/◌, ◌%◌, ◌<◌, ◌≤◌, false, length};
ghost use Rattle.tsc_net.specs.Fault.{stuck_at_or_none};
ghost use Rattle.lane_sim.specs.Points.{source_bit};
ghost use Rattle.lane_sim.specs.FlatRows.{AreInside};
ghost use Rattle.lane_sim.specs.TwoPins.{AreMasks};
ghost use Rattle.lane_sim.specs.Operation.{operation_bit, IsFit};

use crate::flat_rows::FlatRows;
use crate::gate::{ManyPins, Operation, Step, TwoPins};
use crate::many_pins::change_many;
use crate::two_again::change_two;
use tsc_net::Fault;

/// Takes a step under a fault, and says whether it changed the lanes in its net's row. `first` is the net of the first node.
pub(crate) fn change_step(
    step: &Step,
    flat: &FlatRows,
    masks: &[u64],
    first: usize,
    words: &[u64],
    block: &mut [u64],
    fault: Option<Fault>,
) -> bool
    requires inside { AreInside flat.now }
    requires masks { AreMasks masks.now }
    requires start { step.now.to % 16 ≡ 0 }
    requires room { step.now.to + 16 ≤ length block.old }
    requires sources { length words.now ≡ first * 16 }
    requires fit { IsFit words.now block.old flat.now step.now.operation }
    ensures here { (p : ℕ) → p < 1024 → source_bit block.new (step.now.to / 16) p ≡ operation_bit (stuck_at_or_none fault) step.now.driver words.now block.old p flat.now step.now.operation }
    ensures others { (other p : ℕ) → p < 1024 → other ≢ step.now.to / 16 → source_bit block.new other p ≡ source_bit block.old other p }
    ensures same { result ≡ false → (p : ℕ) → p < 1024 → source_bit block.new (step.now.to / 16) p ≡ source_bit block.old (step.now.to / 16) p }
    ensures sized { length block.new ≡ length block.old }
{
    let driver = step.driver as usize;
    let to = step.to as usize;
    match step.operation {
        Operation::Two {
            first_in_rows,
            second_in_rows,
            masks: function,
            first: a,
            second: b,
        } => {
            let gate = TwoPins {
                first: a,
                second: b,
                first_in_rows,
                second_in_rows,
                masks: function,
            };
            change_two(gate, masks, to, driver, first, words, block, fault)
        }
        Operation::Many { on, place } => {
            let gate = ManyPins { place, on };
            change_many(gate, flat, to, driver, first, words, block, fault)
        }
    }
}
