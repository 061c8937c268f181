//! The lanes of gates of any number of pins.
ghost use Rattle.std.specs.Prelude.{◌≡◌, ◌≢◌, ℕ, ◌+◌, ◌*◌, ◌/◌, ◌%◌, ◌<◌, ◌≤◌, false, length};
ghost use Rattle.tsc_net.specs.Fault.{stuck_at_or_none};
ghost use Rattle.fault_secure.specs.StuckAt.{StuckAt};
ghost use Rattle.lane_sim.specs.FlatRows.{AreInside, IsPlaceOf, rows_in};
ghost use Rattle.lane_sim.specs.Gate.{HaveOperands, gate_bit};
ghost use Rattle.lane_sim.specs.Lanes.{HasLanes};
ghost use Rattle.lane_sim.specs.Points.{source_bit};

use crate::changing::change;
use crate::flat_rows::FlatRows;
use crate::gate::ManyPins;
use crate::kernel::{free_lanes, held_lanes, is_elsewhere};
use crate::lanes::store;
use std::simd::Simd;
use tsc_net::Fault;

/// Writes the lanes of the net `driver` of a node under a fault into a row. `first` is the net of the first node.
#[inline(always)]
pub(crate) fn settle_many<const N: usize>(
    gate: ManyPins,
    flat: &FlatRows,
    to: usize,
    driver: usize,
    first: usize,
    words: &[u64],
    block: &mut [u64],
    fault: Option<Fault>,
)
    requires few { N ≤ 16 }
    requires start { to % 16 ≡ 0 }
    requires room { to + 16 ≤ length block.old }
    requires sources { length words.now ≡ first * 16 }
    requires inside { AreInside flat.now }
    requires place { IsPlaceOf flat.now gate.place }
    requires operands { HaveOperands words.now block.old (rows_in flat.now gate.place) }
    ensures here { (p : ℕ) → p < N * 64 → source_bit block.new (to / 16) p ≡ gate_bit (stuck_at_or_none fault) driver words.now block.old p gate.on (rows_in flat.now gate.place) }
    ensures others { (other p : ℕ) → p < N * 64 → other ≢ to / 16 → source_bit block.new other p ≡ source_bit block.old other p }
    ensures sized { length block.new ≡ length block.old }
{
    if is_elsewhere(fault, driver, first) {
        settle_free::<N>(gate.place, gate.on, flat, to, words, block);
    } else {
        let (terms, spans) = flat.rows_of(gate.place);
        let lanes = held_lanes::<N>(terms, spans, gate.on, driver, words, block, fault);
        store(block, to / 16, lanes);
    }
}

/// Writes the lanes of a gate that no fault touches into a row; the parts of the gate come one by one, so that registers take them.
/// It isn't inlined, so that the loop over the steps is one for gates of two pins.
#[inline(never)]
fn settle_free<const N: usize>(
    place: u32,
    on: bool,
    flat: &FlatRows,
    to: usize,
    words: &[u64],
    block: &mut [u64],
)
    requires few { N ≤ 16 }
    requires start { to % 16 ≡ 0 }
    requires room { to + 16 ≤ length block.old }
    requires inside { AreInside flat.now }
    requires place { IsPlaceOf flat.now place }
    requires operands { HaveOperands words.now block.old (rows_in flat.now place) }
    ensures here { (p : ℕ) → p < N * 64 → source_bit block.new (to / 16) p ≡ gate_bit StuckAt.NoFault 0 words.now block.old p on (rows_in flat.now place) }
    ensures others { (other p : ℕ) → p < N * 64 → other ≢ to / 16 → source_bit block.new other p ≡ source_bit block.old other p }
    ensures sized { length block.new ≡ length block.old }
{
    let (terms, spans) = flat.rows_of(place);
    let lanes = free_lanes::<N>(terms, spans, on, words, block);
    store(block, to / 16, lanes);
}

/// Writes the lanes of the net `driver` of a node under a fault into a row, and says whether that changed them. `first` is the net of
/// the first node.
pub(crate) fn change_many(
    gate: ManyPins,
    flat: &FlatRows,
    to: usize,
    driver: usize,
    first: usize,
    words: &[u64],
    block: &mut [u64],
    fault: Option<Fault>,
) -> bool
    requires start { to % 16 ≡ 0 }
    requires room { to + 16 ≤ length block.old }
    requires sources { length words.now ≡ first * 16 }
    requires inside { AreInside flat.now }
    requires place { IsPlaceOf flat.now gate.place }
    requires operands { HaveOperands words.now block.old (rows_in flat.now gate.place) }
    ensures here { (p : ℕ) → p < 1024 → source_bit block.new (to / 16) p ≡ gate_bit (stuck_at_or_none fault) driver words.now block.old p gate.on (rows_in flat.now gate.place) }
    ensures others { (other p : ℕ) → p < 1024 → other ≢ to / 16 → source_bit block.new other p ≡ source_bit block.old other p }
    ensures same { result ≡ false → (p : ℕ) → p < 1024 → source_bit block.new (to / 16) p ≡ source_bit block.old (to / 16) p }
    ensures sized { length block.new ≡ length block.old }
{
    let lanes = many_lanes(gate, flat, driver, first, words, block, fault);
    change(block, to / 16, lanes)
}

/// The lanes of the net `driver` of a node under a fault. `first` is the net of the first node.
fn many_lanes(
    gate: ManyPins,
    flat: &FlatRows,
    driver: usize,
    first: usize,
    words: &[u64],
    block: &[u64],
    fault: Option<Fault>,
) -> Simd<u64, 16>
    requires sources { length words.now ≡ first * 16 }
    requires inside { AreInside flat.now }
    requires place { IsPlaceOf flat.now gate.place }
    requires operands { HaveOperands words.now block.now (rows_in flat.now gate.place) }
    ensures lanes { HasLanes 16 result (λ p. gate_bit (stuck_at_or_none fault) driver words.now block.now p gate.on (rows_in flat.now gate.place)) }
{
    let (terms, spans) = flat.rows_of(gate.place);
    if is_elsewhere(fault, driver, first) {
        return free_lanes::<16>(terms, spans, gate.on, words, block);
    }
    held_lanes::<16>(terms, spans, gate.on, driver, words, block, fault)
}
