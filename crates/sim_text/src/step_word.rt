//! A list of bits as a word.
ghost use Rattle.std.specs.Prelude.{◌≡◌, ◌+◌, ◌≤◌, [], ◌∷◌, length, map, take};
ghost use Rattle.tsc_bits.specs.Bits.{bits_of};
ghost use Rattle.sim_text.specs.StepLine.{bits_word, digit};

use std::marker::Model;
use tsc_cover::bit_at;

/// The most characters that a word has with the blank before it.
const MOST: usize = 65;

/// A blank and a word of bits after it, at most 65 characters, which take no memory elsewhere. Contracts see it as these characters.
#[derive(Drop)]
pub(crate) struct StepWord {
    characters: [u8; MOST],
    count: usize,
}

impl Model for StepWord {
    ghost use Rattle.std.specs.Prelude.{ℕ, List, take, ◌≤◌};

    ghost Value = { List ℕ };

    ghost view = { λ word. take word.count word.characters };

    ghost invariant = { λ word. word.count ≤ 65 };
}

impl StepWord {
    /// The last `count` bits of a number as a word: `.` where there is none.
    #[tactic(auto, using(crate::proofs::LineLemmas::no_bits, crate::proofs::LineLemmas::some_bits))]
    pub(crate) fn of(bits: u64, count: usize) -> StepWord
        requires few { count ≤ 64 }
        ensures word { result ≡ 32 ∷ bits_word (bits_of count bits) }
    {
        let mut characters = [b' '; MOST];
        if count == 0 {
            characters[1] = b'.';
            return StepWord {
                characters,
                count: 2,
            };
        }
        put_digits(&mut characters, bits, count);
        StepWord {
            characters,
            count: count + 1,
        }
    }

    /// Its characters.
    pub(crate) fn as_slice(&self) -> &[u8]
        ensures whole { result.now ≡ self.now }
    {
        &self.characters[..self.count]
    }
}

/// Puts the last `count` bits of a number after a blank, the most significant first.
fn put_digits(characters: &mut [u8], bits: u64, count: usize)
    requires few { count ≤ 64 }
    requires room { length characters.old ≡ 65 }
    requires blank { take 1 characters.old ≡ 32 ∷ [] }
    ensures digits { take (count + 1) characters.new ≡ 32 ∷ map digit (bits_of count bits) }
    ensures room { length characters.new ≡ 65 }
{
    for place in 0..count {
        characters[place + 1] = digit(bit_at(bits, count - 1 - place));
    }
}

/// The character of a bit.
pub(crate) fn digit(bit: bool) -> u8
    ensures digit { result ≡ digit bit }
{
    if bit { b'1' } else { b'0' }
}
