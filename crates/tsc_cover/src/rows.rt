//! A row of a cover, as two numbers.
ghost use Rattle.std.specs.Prelude.{◌≡◌, ℕ, ◌<◌, ◌^◌, ◌↔◌, IsTrue};
ghost use Rattle.tsc_bits.specs.Bits.{bit_worth};
ghost use Rattle.tsc_cover.specs.Row.{Meet};

/// A row of a cover, as two numbers: a pin is read where its bit of `care` is 1, and must then
/// equal its bit of `value`. Of n pins the first is the bit that is worth `2^(n-1)`.
#[derive(Clone, Copy, Debug, PartialEq, Eq)]
pub struct Row01 {
    /// A 1 for each pin that is read.
    pub care: u64,
    /// The bit that each such pin must have; its other bits mean nothing.
    pub value: u64,
}

/// Whether the two rows meet: some bits match both.
pub fn meet(a: &Row01, b: &Row01) -> bool
    ensures meet { IsTrue result ↔ Meet 64 a.now b.now }

    // the same over fewer pins, where the rows read no others
    ensures narrow { (width : ℕ) → a.now.care < 2 ^ width → b.now.care < 2 ^ width → (IsTrue result ↔ Meet width a.now b.now) }
{
    (a.value ^ b.value) & a.care & b.care == 0
}

/// The bit of `number` that is worth `2^place`.
pub fn bit_at(number: u64, place: usize) -> bool
    requires below { place < 64 }
    ensures bit { result ≡ bit_worth place number }
{
    (number >> place) & 1 == 1
}
