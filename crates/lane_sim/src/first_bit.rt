//! The first bit of a list of words that is set.
ghost use Rattle.std.specs.Prelude.{◌≡◌, ℕ, ◌*◌, ◌<◌, ◌≤◌, ◌^◌, nat_lt, if◌then◌else◌, true, length, slice_index, Some, None};
ghost use Rattle.tsc_bits.specs.Bits.{bit_worth};
ghost use Rattle.lane_sim.specs.Lanes.{lane_bit};
ghost use Rattle.lane_sim.specs.First.{IsFirstIn};

/// The first bit from `from` on and below `many` that is set.
pub(crate) fn first_bit(words: &[u64], from: usize, many: usize) -> Option<usize>
    requires room { many ≤ length words.now * 64 }
    requires few { many < 2 ^ 32 }
    ensures first { IsFirstIn (λ p. lane_bit words.now p ≡ true) from many result }
{
    let mut at = from;
    while at < many {
        if let Some(bit) = bit_from(words[at / 64], at % 64) {
            return below(at / 64 * 64 + bit, many);
        }
        at = some_word(words, at / 64 + 1, (many + 63) / 64) * 64;
    }
    None
}

/// The first word from `from` on and below `past` that isn't 0, or `past` where there is none.
fn some_word(words: &[u64], from: usize, past: usize) -> usize
    requires order { from ≤ past }
    requires room { past ≤ length words.now }
    ensures from { from ≤ result }
    ensures past { result ≤ past }
    ensures zero { (word : ℕ) → from ≤ word → word < result → slice_index words.now word ≡ 0 }
{
    for word in from..past {
        if words[word] != 0 {
            return word;
        }
    }
    past
}

/// The first bit of a word from `from` on that is set.
fn bit_from(word: u64, from: usize) -> Option<usize>
    requires from { from < 64 }
    ensures first { IsFirstIn (λ k. bit_worth k word ≡ true) from 64 result }
{
    let rest = word >> from;
    if rest == 0 {
        None
    } else {
        Some(from + rest.trailing_zeros() as usize)
    }
}

/// The number, if it is below another one.
fn below(number: usize, many: usize) -> Option<usize>
    ensures below { result ≡ (if nat_lt number many then Some number else None) }
{
    if number < many { Some(number) } else { None }
}
