//! What the words ask for.
ghost use Rattle.std.specs.Prelude.{◌≡◌, ◌<◌, length, option_map, true, IfErr, IfOk};
ghost use Rattle.tsc_text.specs.Number.{number_of};
ghost use Rattle.commands.specs.Meaning.{meaning};
ghost use Rattle.commands.specs.SimWords.{has_fault_form};
ghost use Rattle.commands.specs.Words.{is_make, word_at};

use crate::command::{Command, command_of, is_only, word_at, word_is};
use std::alloc::{AllocError, Global};
use tsc_io::Words;
use tsc_text::number;

/// What the words ask for.
#[derive(Drop)]
pub enum Request {
    /// A command on the text that is read.
    Read(Command),
    /// `make NUMBER`: a machine from this number, its netlist, and the audit of both. Nothing is read.
    Make(u64),
    /// `help`: the words that have a meaning. Nothing is read.
    Help,
}

/// What the words after the program's name ask for, if they have a meaning.
///
/// # Errors
///
/// Want of memory, only where the words have the form of a simulation with a fault.
pub fn request_of(alloc: Global, words: &Words) -> Result<Option<Request>, AllocError>
    ensures meaning { IfOk result (λ request. request ≡ meaning words.now) }
    ensures memory { IfErr result (λ error. has_fault_form words.now ≡ true) }
{
    if is_only(words, b"help") {
        Ok(Some(Request::Help))
    } else if is_make(words) {
        Ok(make_of(words))
    } else {
        Ok(command_of(alloc, words)?.map(Request::Read))
    }
}

/// What two words ask for whose first is `make`, if the second is a number.
fn make_of(words: &Words) -> Option<Request>
    requires count { 1 < length words.now }
    ensures request { result ≡ option_map Request.Make (number_of (word_at words.now 1)) }
{
    number(word_at(words, 1)).map(Request::Make)
}

/// Whether there are two words, and the first is `make`.
fn is_make(words: &Words) -> bool
    ensures same { result ≡ is_make words.now }
{
    words.len() == 2 && word_is(words, 0, b"make")
}
