//! The checksum of watched lanes.
ghost use Rattle.std.specs.Prelude.{◌≡◌, true, All, IsSome};
ghost use Rattle.tsc_net.specs.Order.{has_place};

use lane_sim::Bench;
use tsc_net::NetId;

/// An odd number that spreads a word.
const FACTOR: u64 = 1099511628211;

/// The checksum of the lanes of watched nets.
pub fn sum_of(bench: &Bench, nets: &[NetId]) -> u64
    requires settled { IsSome bench.now.lanes }
    requires watched { All (λ net. has_place bench.now.watched net.number ≡ true) nets.now }
{
    let mut sum = 1;
    for net in nets {
        sum = with_words(sum, bench.lane(*net));
    }
    sum
}

/// A checksum with more words.
fn with_words(start: u64, words: &[u64]) -> u64 {
    let mut sum = start;
    for word in words {
        sum = (sum ^ *word).wrapping_mul(FACTOR);
    }
    sum
}
