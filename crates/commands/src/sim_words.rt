//! The words of a simulation.
ghost use Rattle.std.specs.Prelude.{◌≡◌, ◌<◌, ◌&&◌, true, length, IfErr, IfOk};
ghost use Rattle.std.specs.Option.{is_some};
ghost use Rattle.tsc_text.specs.Number.{number_of};
ghost use Rattle.commands.specs.Words.{word_at};
ghost use Rattle.commands.specs.SimWords.{has_fault_form, held_of, is_sim, pin_held, pin_of, sim_fault, stem_of};

use crate::command::{word_at, word_is};
use crate::when_words::when_of;
use std::alloc::{AllocError, Global};
use tsc_io::{Bytes, Words};
use tsc_net::When;
use tsc_text::number;

/// The fault that a simulation is run with, by the name of its net, and the steps at which it is present.
#[derive(Drop)]
pub enum SimFault {
    /// None.
    NoFault,
    /// The net's stem is held.
    Stem {
        net: Bytes,
        value: bool,
        when: When,
    },
    /// A pin of the node or latch that gives the net is held.
    Pin {
        net: Bytes,
        index: u64,
        value: bool,
        when: When,
    },
}

/// The fault that the words `sim none`, `sim stem NET V WHEN` or `sim pin NET INDEX V WHEN` name; other words name none.
pub fn sim_fault(alloc: Global, words: &Words) -> Result<Option<SimFault>, AllocError>
    ensures fault { IfOk result (λ fault. fault ≡ sim_fault words.now) }
    ensures memory { IfErr result (λ error. has_fault_form words.now ≡ true) }
{
    if is_sim(words, 2, b"none") {
        Ok(Some(SimFault::NoFault))
    } else if is_sim(words, 5, b"stem") {
        stem_of(alloc, words)
    } else if is_sim(words, 6, b"pin") {
        pin_of(alloc, words)
    } else {
        Ok(None)
    }
}

/// Whether there are so many words, two at least, of which the first is `sim` and the second this.
fn is_sim(words: &Words, count: usize, kind: &[u8]) -> bool
    requires some { 1 < count }
    ensures same { result ≡ is_sim words.now count kind.now }
{
    words.len() == count && word_is(words, 0, b"sim") && word_is(words, 1, kind)
}

/// The fault of `sim stem NET V WHEN`.
fn stem_of(alloc: Global, words: &Words) -> Result<Option<SimFault>, AllocError>
    requires count { 4 < length words.now }
    ensures fault { IfOk result (λ fault. fault ≡ stem_of words.now) }
    ensures memory { IfErr result (λ error. is_some (held_of (word_at words.now 3)) ≡ true) }
{
    let Some(value) = held_of(word_at(words, 3)) else {
        return Ok(None);
    };
    let Some(when) = when_of(alloc, word_at(words, 4))? else {
        return Ok(None);
    };
    let net = Bytes::from_slice(alloc, word_at(words, 2))?;
    Ok(Some(SimFault::Stem { net, value, when }))
}

/// The fault of `sim pin NET INDEX V WHEN`.
fn pin_of(alloc: Global, words: &Words) -> Result<Option<SimFault>, AllocError>
    requires count { 5 < length words.now }
    ensures fault { IfOk result (λ fault. fault ≡ pin_of words.now) }
    ensures memory { IfErr result (λ error. (is_some (number_of (word_at words.now 3)) && is_some (held_of (word_at words.now 4))) ≡ true) }
{
    match number(word_at(words, 3)) {
        Some(index) => pin_held(alloc, words, index),
        None => Ok(None),
    }
}

/// The fault of `sim pin NET INDEX V WHEN`, whose index is read.
fn pin_held(alloc: Global, words: &Words, index: u64) -> Result<Option<SimFault>, AllocError>
    requires count { 5 < length words.now }
    ensures fault { IfOk result (λ fault. fault ≡ pin_held words.now index) }
    ensures memory { IfErr result (λ error. is_some (held_of (word_at words.now 4)) ≡ true) }
{
    let Some(value) = held_of(word_at(words, 4)) else {
        return Ok(None);
    };
    let Some(when) = when_of(alloc, word_at(words, 5))? else {
        return Ok(None);
    };
    let net = Bytes::from_slice(alloc, word_at(words, 2))?;
    Ok(Some(SimFault::Pin {
        net,
        index,
        value,
        when,
    }))
}

/// The value that a word `0` or `1` names.
fn held_of(word: &[u8]) -> Option<bool>
    ensures held { result ≡ held_of word.now }
{
    if word == b"0".as_slice() {
        Some(false)
    } else if word == b"1".as_slice() {
        Some(true)
    } else {
        None
    }
}
