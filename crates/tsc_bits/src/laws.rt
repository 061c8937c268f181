//! The laws on lists of bits and numbers.
ghost use Rattle.std.specs.Prelude.{◌≡◌, ℕ, ◌+◌, ◌-◌, ◌*◌, ◌<◌, ◌^◌, Bool, false, List, [], ◌∷◌, ◌++◌, length, slice_index_or};
ghost use Rattle.tsc_bits.specs.Bits.{weight_of, bit_worth, bits_of, binary};

/// Lists of n bits and the numbers below 2^n say the same.
pub fn bits_are_numbers()
    ensures number { (n x : ℕ) → x < 2 ^ n → binary (bits_of n x) ≡ x }
    ensures list { (bits : List Bool) → bits_of (length bits) (binary bits) ≡ bits }
    ensures length { (n x : ℕ) → length (bits_of n x) ≡ n }
    ensures pin { (n x pin : ℕ) → pin < n → slice_index_or (bits_of n x) pin false ≡ bit_worth (n - 1 - pin) x }
    ensures last { (n x : ℕ) (bit : Bool) → bits_of (n + 1) (x * 2 + weight_of bit) ≡ bits_of n x ++ bit ∷ [] }
{}
