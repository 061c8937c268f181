//! Compares the lanes of watched nets with a stem held with those without a fault.
ghost use Rattle.std.specs.Prelude.{◌≡◌, ◌↔◌, ℕ, ◌+◌, ◌*◌, ◌<◌, ◌≤◌, false, length};
ghost use Rattle.lane_sim.specs.First.{IsFirstIn};
ghost use Rattle.lane_sim.specs.Lanes.{lane_bit};
ghost use Rattle.lane_sim.specs.Points.{source_bit};
ghost use Rattle.unheard_cells.specs.There.{AreSameAt, AreUnheardAt};

use lane_sim::{constant, differ, first_point, join, load, meet, signed};
use std::simd::Simd;

/// The first of the first `many` points at which the rails agree. The lanes begin with theirs.
pub(crate) fn first_agreeing(lanes: &[u64], many: usize) -> Option<usize>
    requires room { 32 ≤ length lanes.now }
    requires many { many ≤ 1024 }
    ensures first { IsFirstIn (λ p. source_bit lanes.now 0 p ≡ source_bit lanes.now 1 p) 0 many result }
{
    let one: Simd<u64, 16> = load(lanes, 0);
    let other = load(lanes, 1);
    first_point(signed(false, differ(one, other)), many)
}

/// The first of the first `many` points at which a net after the rails, of `count` nets with the rails, isn't what it is without a
/// fault, and the rails differ. Without a fault the nets stand `low` places further on.
pub(crate) fn first_unheard(
    right: &[u64],
    wrong: &[u64],
    low: usize,
    count: usize,
    many: usize,
) -> Option<usize>
    requires some { 2 ≤ count }
    requires right { (low + count) * 16 ≤ length right.now }
    requires wrong { length wrong.now ≡ count * 16 }
    requires many { many ≤ 1024 }
    ensures first { IsFirstIn (AreUnheardAt right.now wrong.now low count) 0 many result }
{
    let one: Simd<u64, 16> = load(wrong, 0);
    let other = load(wrong, 1);
    let unheard = meet(changed(right, wrong, low, count), differ(one, other));
    first_point(unheard, many)
}

/// The points at which a net after the rails has changed.
fn changed(right: &[u64], wrong: &[u64], low: usize, count: usize) -> Simd<u64, 16>
    requires some { 2 ≤ count }
    requires right { (low + count) * 16 ≤ length right.now }
    requires wrong { length wrong.now ≡ count * 16 }
    ensures same { (p : ℕ) → p < 1024 → (lane_bit result p ≡ false) ↔ AreSameAt right.now wrong.now low count p }
{
    let mut changed = constant(false);
    for place in 2..count {
        changed = join(
            changed,
            differ(load(right, low + place), load(wrong, place)),
        );
    }
    changed
}
