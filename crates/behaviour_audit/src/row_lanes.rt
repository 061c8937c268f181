//! Which of 64 points, one after another, a row of a machine answers.
ghost use Rattle.std.specs.Prelude.{◌≡◌, ◌≢◌, ◌+◌, ◌/◌, ◌%◌, ◌<◌, ◌≤◌, ◌^◌, bit_and, bit_xor, IsTrue};
ghost use Rattle.tsc_bits.specs.Bits.{bit_worth, bits_of};
ghost use Rattle.tsc_cover.specs.Cover.{accepts, literals, row_matches};
ghost use Rattle.tsc_cover.specs.Row.{literal};
ghost use Rattle.fault_secure.specs.Logic.{starts_at};
ghost use Rattle.tsc_net.specs.MachineView.{row_applies};
ghost use Rattle.lane_sim.specs.Lanes.{HasBits};

use code_lanes::negated;
use lane_sim::{places_of, places_with};
use tsc_cover::{Row01, bit_at};
use tsc_net::MachineRow;

/// The points, of the 64 from the place `base` on, at which a row of a machine with so many inputs answers.
///
/// Three loops over the rows ask it of every row: it belongs into each of them.
#[inline(always)]
pub(crate) fn answered_by(row: &MachineRow, inputs: usize, base: usize) -> u64
    requires few { inputs ≤ 20 }
    requires narrow { row.now.input.care < 2 ^ inputs }
    requires whole { base % 64 ≡ 0 }
    ensures bits { HasBits result (λ k. row_applies ((base + k) / 2 ^ inputs) ((base + k) % 2 ^ inputs) row.now) }
{
    if is_barred(row.input, base) {
        return 0;
    }
    let started = started_by(row.from, inputs, base);
    if started == 0 {
        0
    } else {
        started & let_pass(row.input, inputs, base)
    }
}

/// Whether a row wants another bit of some input that all 64 points from the place `base` on share.
fn is_barred(row: Row01, base: usize) -> bool
    ensures barred { IsTrue result → bit_and (bit_xor base row.value) row.care / 2 ^ 6 ≢ 0 }
{
    ((base as u64 ^ row.value) & row.care) >> 6 != 0
}

/// The points at whose state a row starts.
fn started_by(from: Option<u32>, inputs: usize, base: usize) -> u64
    requires few { inputs ≤ 20 }
    ensures bits { HasBits result (λ k. starts_at from ((base + k) / 2 ^ inputs)) }
{
    match from {
        None => u64::MAX,
        Some(from) => places_of(from, inputs, base),
    }
}

/// The points whose inputs a row lets pass.
fn let_pass(row: Row01, inputs: usize, base: usize) -> u64
    requires few { inputs ≤ 20 }
    requires whole { base % 64 ≡ 0 }
    ensures bits { HasBits result (λ k. row_matches (literals inputs row.care row.value) (bits_of inputs (base + k))) }
{
    let mut points = u64::MAX;
    for digit in 0..inputs {
        let asked = bit_at(row.care, digit);
        let wanted = bit_at(row.value, digit);
        points &= accepted(asked, wanted, places_with(digit, base));
    }
    points
}

/// The points at which a lane has the bit that is wanted, all where it isn't asked for.
fn accepted(asked: bool, wanted: bool, lane: u64) -> u64
    ensures bits { HasBits result (λ k. accepts (literal asked wanted) (bit_worth k lane)) }
{
    if !asked {
        u64::MAX
    } else if wanted {
        lane
    } else {
        negated(lane)
    }
}
