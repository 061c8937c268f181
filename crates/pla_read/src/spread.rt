//! The rows of a table, spread over the covers of its outputs.
ghost use Rattle.std.specs.Prelude.{◌≡◌, ℕ, ◌<◌, ◌≤◌, true, false, length, map, slice_index_or, slice_set, All, IfOk, OnOk};
ghost use Rattle.tsc_bits.specs.Bits.{bits_of};
ghost use Rattle.tsc_cover.specs.Cover.{CoverTable};
ghost use Rattle.tsc_cover.specs.Row.{IsRow};
ghost use Rattle.fault_secure.specs.Circuit.{bit};
ghost use Rattle.pla_read.specs.Spread.{no_rows, spread_cover, with_row, AreCovers, HaveRow};
ghost use Rattle.pla_read.specs.Shaped.{row_as, IsRowOver};

use crate::rows::{Mark, PlaRow, marks_in};
use std::alloc::{AllocError, Global};
use tsc_cover::{Cover, Row01};
use tsc_io::Items;

/// Covers, one per output.
pub type CoverList = Items<Cover>;

/// The first place from `from` on and below `places` at which a number has a bit, the first most significant; `places` where there is none.
fn next_bit(number: u64, places: usize, from: usize) -> usize
    requires few { places ≤ 64 }
    requires from { from ≤ places }
    ensures low { from ≤ result }
    ensures high { result ≤ places }
    ensures none { (place : ℕ) → from ≤ place → place < result → bit (bits_of places number) place ≡ false }
    ensures some { result < places → bit (bits_of places number) result ≡ true }
{
    if from == places {
        return places;
    }
    let rest = number << (64 - (places - from));
    let place = from + rest.leading_zeros() as usize;
    if place < places { place } else { places }
}

/// Counts one more at each place at which a number has a bit.
fn count_bits(counts: &mut [usize], number: u64)
    requires few { length counts.old ≤ 64 }
    ensures count { length counts.new ≡ length counts.old }
{
    let places = counts.len();
    let mut place = next_bit(number, places, 0);
    while place < places {
        counts[place] = counts[place].wrapping_add(1);
        place = next_bit(number, places, place + 1);
    }
}

/// How many rows each cover comes to have, as `spread` makes them: what memory it takes.
fn counts_of(
    alloc: Global,
    rows: &[PlaRow],
    outputs: usize,
    mark: Mark,
    within: u64,
) -> Result<Vec<usize>, AllocError>
    requires few { outputs ≤ 64 }
    ensures count { IfOk result (λ counts. length counts.items ≡ outputs) }
{
    let mut counts = vec![in alloc; 0usize; outputs]?;
    for row in rows {
        count_bits(&mut counts, marks_in(row, mark) & within);
    }
    Ok(counts)
}

/// On-set covers of so many pins without rows, each with the memory for a number of rows.
fn empty_covers(alloc: Global, width: usize, counts: &[usize]) -> Result<CoverList, AllocError>
    requires wide { width ≤ 64 }
    ensures covers { IfOk result (AreCovers 0 (length counts.now) (λ place. no_rows width)) }
{
    let mut covers = Items::with_room(alloc, counts.len())?;
    for count in counts {
        covers.push(Cover::with_capacity(alloc, width, true, *count)?)?;
    }
    Ok(covers)
}

/// Puts a row last in the cover at a place.
fn push_at(covers: &mut CoverList, place: usize, row: Row01) -> Result<(), AllocError>
    requires place { place < length covers.old }
    requires fit { All (λ cover. IsRow cover.width row) covers.old }
    ensures pushed { (d : CoverTable) → OnOk result (covers.new ≡ slice_set covers.old place (with_row row true (slice_index_or covers.old place d))) }
{
    covers.get_mut(place).push_row(row)
}

/// Puts a row last in each cover at whose place a number has a bit.
fn push_at_bits(covers: &mut CoverList, row: Row01, number: u64) -> Result<(), AllocError>
    requires few { length covers.old ≤ 64 }
    requires fit { All (λ cover. IsRow cover.width row) covers.old }
    ensures pushed { OnOk result (HaveRow row (bit (bits_of (length covers.old) number)) covers.old covers.new) }
{
    let places = covers.len();
    let mut place = next_bit(number, places, 0);
    while place < places {
        push_at(covers, place, row)?;
        place = next_bit(number, places, place + 1);
    }
    Ok(())
}

/// The on-set covers of the rows that have the mark, one per output, in order, at those outputs for which `within` has a bit; at the
/// others a cover without rows.
///
/// # Errors
///
/// Want of memory.
pub fn spread(
    alloc: Global,
    rows: &[PlaRow],
    inputs: usize,
    outputs: usize,
    mark: Mark,
    within: u64,
) -> Result<CoverList, AllocError>
    requires few_inputs { inputs ≤ 64 }
    requires few { outputs ≤ 64 }
    requires fit { All (IsRowOver inputs) rows.now }
    ensures covers { IfOk result (AreCovers 0 outputs (spread_cover mark (bits_of outputs within) inputs (map (row_as inputs outputs) rows.now))) }
{
    let counts = counts_of(alloc, rows, outputs, mark, within)?;
    let mut covers = empty_covers(alloc, inputs, &counts)?;
    for row in 0..rows.len() {
        let number = marks_in(&rows[row], mark) & within;
        push_at_bits(&mut covers, rows[row].input, number)?;
    }
    Ok(covers)
}
