//! The program: its words, standard input, standard output and standard error, given to `run`.
//! Its main call is `main`, which ends with the status of the run.
//! It stands on `tsc_tool` for the run and on `tsc_io` for the devices.
//! Its main promise: it ends with 7 where there is no memory for the words, and with 8 where the runtime refuses them otherwise.
//! It has no definitions of its own.
#![tactic(auto)]

use std::alloc::{AllocError, Global};
use std::env::Args;
use std::process::ExitCode;
use std::{env, io};
use tsc_io::{Bytes, StdSink, StdSource, Words};
use tsc_tool::{Status, run};

/// The exit status where the runtime refuses the words for another cause than memory.
const NO_WORDS: u8 = 8;

fn main(rt: HostRuntime) -> ExitCode {
    let args = match env::args(&rt) {
        Ok(args) => args,
        Err(error) => return ExitCode::from(status_without_words(&error)),
    };
    let Ok(words) = words_of(rt.alloc(), args) else {
        return ExitCode::from(Status::Memory.code());
    };
    let mut source = StdSource::new(rt.reader());
    let mut sink = StdSink::new(rt.stdout());
    let mut notes = StdSink::new(rt.stderr());
    let status = run(rt.alloc(), &words, &mut source, &mut sink, &mut notes);
    ExitCode::from(status.code())
}

/// The exit status where there are no words.
fn status_without_words(error: &io::Error) -> u8 {
    match error.kind() {
        io::ErrorKind::OutOfMemory => Status::Memory.code(),
        _ => NO_WORDS,
    }
}

/// The words after the program's name.
fn words_of(alloc: Global, args: Args) -> Result<Words, AllocError> {
    let mut words = Words::new(alloc);
    for word in args.skip(1) {
        words.push(Bytes::from_slice(alloc, word.as_bytes())?)?;
    }
    Ok(words)
}
