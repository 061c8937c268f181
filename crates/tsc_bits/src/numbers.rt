//! The number that a list of bits stands for.
ghost use Rattle.std.specs.Prelude.{◌≡◌, ◌+◌, ◌*◌, ◌<◌, ◌≤◌, ◌^◌, length};
ghost use Rattle.tsc_bits.specs.Bits.{binary, weight_of};

/// The number that a list of bits stands for, the first bit most significant.
pub fn number_of(bits: &[bool]) -> u64
    requires few { length bits.now ≤ 64 }
    ensures number { result ≡ binary bits.now }
{
    let mut number = 0;
    for bit in bits {
        number = push_bit(number, *bit);
    }
    number
}

/// The number with one more bit at its end.
pub fn push_bit(number: u64, bit: bool) -> u64
    requires room { number < 2 ^ 63 }
    ensures number { result ≡ number * 2 + weight_of bit }
{
    if bit { number * 2 + 1 } else { number * 2 }
}
