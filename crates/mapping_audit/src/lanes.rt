//! Words of bits, one word per net, in which the values of a cover's pins are put, 64 at once.
ghost use Rattle.std.specs.Prelude.{◌≡◌, ℕ, ◌+◌, ◌%◌, ◌<◌, ◌≤◌, length, map, All};
ghost use Rattle.tsc_bits.specs.Bits.{bits_of};
ghost use Rattle.fault_secure.specs.Circuit.{node_net, nets};
ghost use Rattle.mapping_reading.specs.ReadMapping.{with_bits};
ghost use Rattle.code_lanes.specs.Lanes.{column};
ghost use Rattle.mapping_audit.specs.Values.{cleared};

use lane_sim::places_with;
use tsc_net::Netlist;

/// Puts the bits of 64 values at some nets, the first net most significant.
pub fn put_values(words: &mut [u64], pins: &[usize], base: usize)
    requires few { length pins.now ≤ 64 }
    requires whole { base % 64 ≡ 0 }
    requires within { All (λ pin. pin < length words.old) pins.now }
    ensures put { (p : ℕ) → p < 64 → column p words.new ≡ with_bits pins.now (bits_of (length pins.now) (base + p)) (column p words.old) }
{
    let count = pins.len();
    for (place, pin) in pins.iter().enumerate() {
        words[*pin] = places_with(count - 1 - place, base);
    }
}

/// Puts a 0 at some nets, at each point.
pub fn clear(words: &mut [u64], pins: &[usize])
    requires within { All (λ pin. pin < length words.old) pins.now }
    ensures cleared { (p : ℕ) → p < 64 → column p words.new ≡ cleared pins.now (column p words.old) }
{
    for pin in pins {
        words[*pin] = 0;
    }
}

/// Puts a 0 at the nets of some gates, at each point.
pub fn clear_gates(mapped: &Netlist, gates: &[usize], words: &mut [u64])
    requires sized { length words.old ≡ nets mapped.now.circuit }
    requires gates { All (λ gate. gate < length mapped.now.circuit.nodes) gates.now }
    ensures cleared { (p : ℕ) → p < 64 → column p words.new ≡ cleared (map (node_net mapped.now.circuit) gates.now) (column p words.old) }
{
    for gate in gates {
        words[mapped.node_net(*gate).number as usize] = 0;
    }
}
