//! State words: of twice m bits, m of them 1.
ghost use Rattle.std.specs.Prelude.{◌≡◌, ◌↔◌, ℕ, ◌*◌, ◌^◌, ◌<◌, ◌≤◌, cond, List, [], ◌∷◌, ◌++◌, map, take, All, IfOk, IsErrOf, IfSome, OnOk, None};
ghost use Rattle.tsc_bits.specs.Bits.{weight_of, bit_worth, bits_of};
ghost use Rattle.tsc_bits.specs.Counting.{ones};
ghost use Rattle.state_code.specs.Words.{binomial, has_weight, state_words, IsLeastWeight, AreStateWords};

use crate::error::CodeError;
use std::alloc::{AllocError, Global};
use tsc_cover::bit_at;
use tsc_net::StateList;

/// The state words of a number of states: each has `n` bits, of which `m` are 1.
#[derive(Debug, Drop)]
pub struct StateCode {
    /// The number of bits of a word, which is twice `m`.
    pub n: usize,
    /// The number of ones of a word.
    pub m: usize,
    /// The word of each state, the first latch most significant.
    pub words: StateList,
}

/// The words of so many states, which are at least 1: of the least even length for which there are enough words with half their
/// bits 1, the first ones in rising order.
///
/// # Errors
///
/// `TooMany` exactly above 924 states, and want of memory.
#[tactic(auto, using(crate::proofs::Weights::state_words_fit, crate::proofs::Weights::words_within))]
pub fn codes(alloc: Global, states: usize) -> Result<StateCode, CodeError>
    requires some { 1 ≤ states }
    ensures half { IfOk result (λ code. code.n ≡ 2 * code.m) }
    ensures least { IfOk result (λ code. IsLeastWeight states code.m) }
    ensures width { IfOk result (λ code. code.words.width ≡ code.n) }
    ensures words { IfOk result (λ code. code.words.words ≡ state_words code.n code.m states) }
    ensures fit { IfOk result (λ code. AreStateWords code.n code.m states (map (bits_of code.n) code.words.words)) }
    ensures within { IfOk result (λ code. All (λ word. word < 2 ^ code.n) code.words.words) }
    ensures too_many { IsErrOf result CodeError.TooMany ↔ 924 < states }
{
    let Some(m) = least_weight(states) else {
        return Err(CodeError::TooMany);
    };
    match first_words(alloc, 2 * m, m, states) {
        Ok(words) => Ok(StateCode { n: 2 * m, m, words }),
        Err(error) => Err(CodeError::Memory(error)),
    }
}

/// The number of words of twice m bits with m ones, for m from 1 to 6.
fn words_of(m: usize) -> usize
    requires some { 1 ≤ m }
    requires most { m ≤ 6 }
    ensures count { result ≡ binomial (2 * m) m }
    ensures few { result ≤ 924 }
{
    match m {
        1 => 2,
        2 => 6,
        3 => 20,
        4 => 70,
        5 => 252,
        _ => 924,
    }
}

/// The least m from 1 on for which there are enough words of twice m bits with m ones; none above 924 states.
fn least_weight(states: usize) -> Option<usize>
    ensures least { IfSome result (λ m. IsLeastWeight states m) }
    ensures small { IfSome result (λ m. m ≤ 6) }
    ensures few { IfSome result (λ _. states ≤ 924) }
    ensures many { result ≡ None → 924 < states }
{
    for m in 1..7 {
        if states <= words_of(m) {
            return Some(m);
        }
    }
    None
}

/// 1 where the bit of a word that is worth `2^place` is 1, and else 0.
fn one_at(word: u64, place: usize) -> usize
    requires below { place < 64 }
    ensures one { result ≡ weight_of (bit_worth place word) }
{
    if bit_at(word, place) { 1 } else { 0 }
}

/// The number of ones among the last `n` bits of a word.
fn weight(n: usize, word: u64) -> usize
    requires most { n ≤ 12 }
    ensures weight { result ≡ ones (bits_of n word) }
{
    let mut count = 0;
    for place in 0..n {
        count += one_at(word, place);
    }
    count
}

/// Puts a word at the end, if it has `m` ones and there are fewer words than states.
#[tactic(auto, using(crate::proofs::Weights::take_room, crate::proofs::Weights::take_full, crate::proofs::Weights::take_none))]
fn add_word(list: &mut StateList, m: usize, states: usize, word: u64) -> Result<(), AllocError>
    requires most { list.old.width ≤ 12 }
    ensures width { OnOk result (list.new.width ≡ list.old.width) }
    ensures words { (firsts : List ℕ) → list.old.words ≡ take states firsts → OnOk result (list.new.words ≡ take states (firsts ++ cond (has_weight list.old.width m word) (word ∷ []) [])) }
{
    if weight(list.width(), word) != m {
        return Ok(());
    }
    if list.len() < states {
        list.push(word)?;
    }
    Ok(())
}

/// The first words of `n` bits with `m` ones, so many as there are states, or all.
fn first_words(alloc: Global, n: usize, m: usize, states: usize) -> Result<StateList, AllocError>
    requires most { n ≤ 12 }
    ensures width { IfOk result (λ list. list.width ≡ n) }
    ensures words { IfOk result (λ list. list.words ≡ state_words n m states) }
{
    let mut list = StateList::new(alloc, n);
    for word in 0..1 << n {
        add_word(&mut list, m, states, word)?;
    }
    Ok(list)
}
