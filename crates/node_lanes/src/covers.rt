//! Where covers are true, at 64 points at once.
ghost use Rattle.std.specs.Prelude.{◌≡◌, ℕ, ◌<◌, ◌≤◌, length, map, All};
ghost use Rattle.tsc_bits.specs.Bits.{bit_worth};
ghost use Rattle.tsc_cover.specs.Cover.{accepts, row_matches, literals, some_row_matches, truth};
ghost use Rattle.tsc_cover.specs.Row.{literal, literals_of_each};
ghost use Rattle.fault_secure.specs.Circuit.{bit};
ghost use Rattle.tsc_net.specs.PlanView.{net_numbers};
ghost use Rattle.code_lanes.specs.Lanes.{column};

use lane_sim::word_of;
use tsc_cover::{Cover, Row01, bit_at};
use tsc_net::NetId;

/// The points at which a cover is true, the nets at its pins having the bits of their words.
pub fn cover_word(cover: &Cover, reads: &[NetId], words: &[u64]) -> u64
    requires pins { length reads.now ≡ cover.now.width }
    requires within { All (λ net. net.number < length words.now) reads.now }
    ensures bits { (p : ℕ) → p < 64 → bit_worth p result ≡ truth cover.now (map (bit (column p words.now)) (net_numbers reads.now)) }
{
    // What the cover keeps is known from here on.
    let _width = cover.width();
    let some = rows_word(cover.rows(), reads, words);
    some ^ word_of(!cover.on())
}

/// Where some row matches.
fn rows_word(rows: &[Row01], reads: &[NetId], words: &[u64]) -> u64
    requires few { length reads.now ≤ 64 }
    requires within { All (λ net. net.number < length words.now) reads.now }
    ensures bits { (p : ℕ) → p < 64 → bit_worth p result ≡ some_row_matches (literals_of_each (length reads.now) rows.now) (map (bit (column p words.now)) (net_numbers reads.now)) }
{
    let mut some = 0;
    for row in rows {
        some |= row_word(*row, reads, words);
    }
    some
}

/// Where a row matches.
fn row_word(row: Row01, reads: &[NetId], words: &[u64]) -> u64
    requires few { length reads.now ≤ 64 }
    requires within { All (λ net. net.number < length words.now) reads.now }
    ensures bits { (p : ℕ) → p < 64 → bit_worth p result ≡ row_matches (literals (length reads.now) row.care row.value) (map (bit (column p words.now)) (net_numbers reads.now)) }
{
    let mut all = u64::MAX;
    let count = reads.len();
    for (index, net) in reads.iter().enumerate() {
        all &= pin_word(row, count - 1 - index, words[net.number as usize]);
    }
    all
}

/// Where the row's literal at the pin whose bit is worth `2^place` lets the bit pass.
fn pin_word(row: Row01, place: usize, word: u64) -> u64
    requires place { place < 64 }
    ensures bits { (p : ℕ) → p < 64 → bit_worth p result ≡ accepts (literal (bit_worth place row.care) (bit_worth place row.value)) (bit_worth p word) }
{
    let care = bit_at(row.care, place);
    let value = bit_at(row.value, place);
    if care {
        word ^ word_of(!value)
    } else {
        u64::MAX
    }
}
