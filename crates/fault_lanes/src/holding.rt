//! The bit of one lane, where a fault holds it.
ghost use Rattle.std.specs.Prelude.{◌≡◌, ◌≢◌, ℕ, ◌+◌, ◌*◌, ◌<◌, ◌≤◌, ◌⊎◌, length};
ghost use Rattle.fault_secure.specs.StuckAt.{on_stem, on_pin};
ghost use Rattle.tsc_net.specs.Fault.{stuck_at_or_none};
ghost use Rattle.lane_sim.specs.Points.{source_bit};

use lane_sim::with_bit;
use tsc_net::Fault;

/// Holds the bit of a row in a lane.
fn put_bit(words: &mut [u64], row: usize, lane: usize, value: bool)
    requires lane { lane < 1024 }
    requires room { row * 16 + 16 ≤ length words.old }
    ensures put { source_bit words.new row lane ≡ value }
    ensures lanes { (other at : ℕ) → at < 1024 → at ≢ lane → source_bit words.new other at ≡ source_bit words.old other at }
    ensures rows { (other at : ℕ) → at < 1024 → other ≢ row → source_bit words.new other at ≡ source_bit words.old other at }
{
    let at = row * 16 + lane / 64;
    words[at] = with_bit(words[at], lane % 64, value);
}

/// Holds the bit of a net in a lane, where the lane's fault is the net's stem.
pub(crate) fn hold_stem(words: &mut [u64], net: usize, lane: usize, fault: Option<Fault>)
    requires lane { lane < 1024 }
    requires room { net * 16 + 16 ≤ length words.old }
    ensures here { source_bit words.new net lane ≡ on_stem (stuck_at_or_none fault) net (source_bit words.old net lane) }
    ensures lanes { (other at : ℕ) → at < 1024 → at ≢ lane → source_bit words.new other at ≡ source_bit words.old other at }
    ensures rows { (other at : ℕ) → at < 1024 → other ≢ net → source_bit words.new other at ≡ source_bit words.old other at }
{
    match fault {
        Some(Fault::Stem { net: at, value }) if at.number as usize == net => {
            put_bit(words, net, lane, value);
        }
        _ => {}
    }
}

/// Holds the bit of a pin in a lane, where the lane's fault is one of the first pins of what drives a net; the rows of the pins
/// stand from the row `base` on.
pub(crate) fn hold_pin(
    words: &mut [u64],
    base: usize,
    pins: usize,
    driver: usize,
    lane: usize,
    fault: Option<Fault>,
)
    requires lane { lane < 1024 }
    requires room { (base + pins) * 16 ≤ length words.old }
    ensures here { (pin : ℕ) → pin < pins → source_bit words.new (base + pin) lane ≡ on_pin (stuck_at_or_none fault) driver pin (source_bit words.old (base + pin) lane) }
    ensures lanes { (other at : ℕ) → at < 1024 → at ≢ lane → source_bit words.new other at ≡ source_bit words.old other at }
    ensures rows { (other at : ℕ) → at < 1024 → (other < base) ⊎ (base + pins ≤ other) → source_bit words.new other at ≡ source_bit words.old other at }
{
    match fault {
        Some(
            Fault::Pin {
                driver: at,
                index,
                value,
            },
        ) if at.number as usize == driver && index < pins => {
            put_bit(words, base + index, lane, value);
        }
        _ => {}
    }
}
