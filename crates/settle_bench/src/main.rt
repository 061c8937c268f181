//! The benchmark of settling: a netlist from standard input settles at drawn points as often as the program's word says.
//! Its main call is `main`, which prints a checksum of what the netlist's outputs have then.
//! It stands on `blif_read` for the netlist and on `lane_sim` for the bench.
//! Its main promise: it is safe and it ends. What a settle shows is promised by `lane_sim`; the time is taken from outside.
//! It has no definitions of its own.
#![tactic(auto)]

mod checksum;
mod drawing;
mod reading;
mod settling;

use std::env;
use std::env::Args;
use std::process::ExitCode;
use tsc_io::{StdSource, read_all};
use tsc_text::{LONGEST, number};

fn main(rt: HostRuntime) -> ExitCode {
    let Ok(args) = env::args(&rt) else {
        return ExitCode::FAILURE;
    };
    let settles = settles_in(args);
    let mut source = StdSource::new(rt.reader());
    let Ok(text) = read_all(rt.alloc(), &mut source, LONGEST) else {
        return ExitCode::FAILURE;
    };
    let Some(sum) = settling::sum_of_text(rt.alloc(), &text, settles) else {
        return ExitCode::FAILURE;
    };
    match println!(rt; "{sum}") {
        Ok(()) => ExitCode::SUCCESS,
        Err(_) => ExitCode::FAILURE,
    }
}

/// The number that the first word after the program's name is, or 0.
fn settles_in(args: Args) -> u64 {
    match args.skip(1).next() {
        Some(word) => number(word.as_bytes()).unwrap_or(0),
        None => 0,
    }
}
