//! The masks of the functions of two bits: whole words in place of the bits of a function's number.
ghost use Rattle.std.specs.Prelude.{◌≡◌, ℕ, ◌/◌, ◌%◌, ◌<◌, IfOk};
ghost use Rattle.tsc_bits.specs.Bits.{bit_worth};
ghost use Rattle.lane_sim.specs.Lanes.{HasLanes, lane_bit};
ghost use Rattle.lane_sim.specs.TwoPins.{AreMasks, HasFormula, HaveMasks, mask_bit, table_bit};

use crate::lanes::{differ, meet, word_of};
use std::alloc::{AllocError, Global};
use std::simd::Simd;
use tsc_cover::bit_at;

/// The masks of all sixteen functions of two bits, one after another: two words for each of five bits, so that a register takes
/// them as they stand. Four are those of the function's number; the last one is what a product of the two bits is added to.
///
/// # Errors
///
/// Want of memory.
pub(crate) fn all_masks(alloc: Global) -> Result<Vec<u64>, AllocError>
    ensures masks { IfOk result (λ masks. AreMasks masks.items) }
{
    let mut masks = Vec::with_capacity(alloc, 160)?;
    for place in 0..160 {
        masks.push(mask_at(place))?;
    }
    Ok(masks)
}

/// The mask at a place of the list.
fn mask_at(place: usize) -> u64
    requires place { place < 160 }
    ensures bits { (j : ℕ) → j < 64 → bit_worth j result ≡ mask_bit (place % 10 / 2) (place / 10) }
{
    let table = place as u64 / 10;
    let bit = place % 10 / 2;
    if bit < 4 {
        return word_of(bit_at(table, bit));
    }
    let both = bit_at(table, 1) && bit_at(table, 2);
    word_of(bit_at(table, 0) != both)
}

/// The place of the first mask of a function.
pub(crate) fn masks_of(table: u8) -> u8
    requires small { table < 16 }
    ensures table { result / 10 ≡ table }
    ensures start { result % 10 ≡ 0 }
    ensures small { result < 160 }
{
    table * 10
}

/// One of the masks, at all points, of the function whose masks start at this place.
pub(crate) fn mask<const N: usize>(masks: &[u64], from: u8, bit: usize) -> Simd<u64, N>
    requires masks { AreMasks masks.now }
    requires start { from % 10 ≡ 0 }
    requires small { from < 160 }
    requires bit { bit < 5 }
    ensures lanes { HasLanes N result (λ p. mask_bit bit (from / 10)) }
{
    Simd::splat(masks[from as usize + bit * 2])
}

/// The same in two words, as they stand in the list.
pub(crate) fn mask_pair(masks: &[u64], from: u8, bit: usize) -> Simd<u64, 2>
    requires masks { AreMasks masks.now }
    requires start { from % 10 ≡ 0 }
    requires small { from < 160 }
    requires bit { bit < 5 }
    ensures lanes { HasLanes 2 result (λ p. mask_bit bit (from / 10)) }
{
    Simd::from_slice(&masks[from as usize + bit * 2..])
}

/// The formula of a function of two bits without their product: a sum of a constant and of some of the bits.
pub(crate) const SUM: usize = 0;

/// The formula of the exclusive or of two bits and of its negation.
pub(crate) const DIFFERENCE: usize = 1;

/// The formula of a product of two bits, each of which and which itself may be negated.
pub(crate) const PRODUCT: usize = 2;

/// The formula that serves for every function.
pub(crate) const ANY: usize = 3;

/// The masks of the functions with the product start at this place or after it.
pub(crate) const PRODUCTS: u8 = 80;

/// Those of the exclusive or and of its negation start at this place or after it, before `PRODUCTS`; those of the other sums before
/// both.
pub(crate) const DIFFERENCES: u8 = 60;

/// The formula of the function whose masks start at this place.
pub(crate) fn formula_of(from: u8) -> usize {
    if from >= PRODUCTS {
        PRODUCT
    } else if from >= DIFFERENCES {
        DIFFERENCE
    } else {
        SUM
    }
}

/// A function at each point by a formula that it has, where the first five are its masks.
pub(crate) fn formula_lanes<const FORMULA: usize, const N: usize>(
    constant: Simd<u64, N>,
    first: Simd<u64, N>,
    second: Simd<u64, N>,
    both: Simd<u64, N>,
    negated: Simd<u64, N>,
    a: Simd<u64, N>,
    b: Simd<u64, N>,
) -> Simd<u64, N>
    ensures lanes { (table : ℕ) → HasFormula FORMULA table → HaveMasks N table constant.entry first.entry second.entry both.entry negated.entry
        → HasLanes N result (λ p. table_bit table (lane_bit a.entry p) (lane_bit b.entry p)) }
{
    if FORMULA == PRODUCT {
        return differ(meet(differ(a, second), differ(b, first)), negated);
    }
    if FORMULA == DIFFERENCE {
        return differ(differ(a, b), constant);
    }
    if FORMULA == SUM {
        return differ(differ(constant, meet(a, first)), meet(b, second));
    }
    let without = differ(constant, meet(a, first));
    let with = differ(second, meet(a, both));
    differ(without, meet(b, with))
}
