//! Bits and the numbers that they stand for.
ghost use Rattle.std.specs.Prelude.{◌≡◌, ◌%◌, ◌≤◌, ◌^◌, length};
ghost use Rattle.tsc_bits.specs.Bits.{bits_of};

use tsc_cover::bit_at;
use tsc_net::Bits;

/// Writes the last bits of a number, the most significant first.
pub(crate) fn write_number(bits: &mut Bits, number: u64)
    requires few { length bits.old ≤ 64 }
    ensures bits { bits.new ≡ bits_of (length bits.old) number }
    ensures sized { length bits.new ≡ length bits.old }
{
    let width = bits.len();
    for place in 0..width {
        bits.replace(place, bit_at(number, width - 1 - place));
    }
}

/// The last bits of a number.
pub(crate) fn last_bits(number: u64, bits: usize) -> u64
    requires few { bits ≤ 64 }
    ensures bits { result ≡ number % 2 ^ bits }
{
    if bits == 64 {
        number
    } else {
        number % (1 << bits)
    }
}
