//! Machines that are made from a number, and the words that have a meaning.

use crate::runs::{
    Done, Faults, NO_FAULTS, Refused, after_run, ends, first_not_refused, is_ended, joined,
};
use std::alloc::{AllocError, Global};
use std::test::Fail;
use tsc_io::Bytes;
use tsc_tool::make_text;

const USAGE: &[u8] = b"tsc: usage: tsc synth|ask|audit|faults|vectors|grade|sim|make|join|help\n";

/// The reports of some numbers: their counts were worked out by another program, from texts that it drew itself.
static REPORTS: [Done; 6] = [
    (
        b"make 5",
        b"",
        b"",
        b"make 5\nstates 48 rows 192 inputs 7 outputs 8\ncode berger checks 4 latches 8 word 20\nbound 37148 points 6144\nones 2107 resets 5368\naudit yes\n",
    ),
    (
        b"make 00005",
        b"# not read",
        b"",
        b"make 5\nstates 48 rows 192 inputs 7 outputs 8\ncode berger checks 4 latches 8 word 20\nbound 37148 points 6144\nones 2107 resets 5368\naudit yes\n",
    ),
    (
        b"make 0",
        b"\x00",
        b"",
        b"make 0\nstates 48 rows 192 inputs 7 outputs 8\ncode berger checks 4 latches 8 word 20\nbound 37148 points 6144\nones 2315 resets 5378\naudit yes\n",
    ),
    (
        b"make 7",
        b"",
        b"",
        b"make 7\nstates 48 rows 192 inputs 7 outputs 8\ncode berger checks 4 latches 8 word 20\nbound 37148 points 6144\nones 2408 resets 5302\naudit yes\n",
    ),
    (
        b"make 9223372036854775808",
        b"",
        b"",
        b"make 9223372036854775808\nstates 48 rows 192 inputs 7 outputs 8\ncode berger checks 4 latches 8 word 20\nbound 37148 points 6144\nones 2450 resets 5323\naudit yes\n",
    ),
    (
        b"make 18446744073709551615",
        b"",
        b"",
        b"make 18446744073709551615\nstates 48 rows 192 inputs 7 outputs 8\ncode berger checks 4 latches 8 word 20\nbound 37148 points 6144\nones 2049 resets 5310\naudit yes\n",
    ),
];

/// What `help` answers.
static HELP: Done = (
    b"help",
    b"",
    b"",
    b"tsc synth blif parity|berger|mofn\ntsc synth kiss berger|mofn\ntsc synth pla parity|berger|mofn\ntsc synth blif|pla duplex\ntsc synth blif watched\ntsc audit blif|kiss|pla\ntsc audit wide ROWS\ntsc audit exact blif|kiss|pla\ntsc audit mapped\ntsc ask exact\ntsc audit proof\ntsc faults\ntsc vectors\ntsc grade\ntsc sim none\ntsc sim stem NET V WHEN\ntsc sim pin NET INDEX V WHEN\ntsc make NUMBER\ntsc join\ntsc help\n",
);

/// A source that fails at its first call.
const UNREAD: Faults = Faults {
    source: Some(0),
    ..NO_FAULTS
};

/// Whether the words are done on a source that fails at its first call: they read nothing.
fn is_done_unread(alloc: Global, row: &Done) -> Result<bool, AllocError> {
    let (words, text, _, answer) = row;
    let text = Bytes::from_slice(alloc, text)?;
    let ended = after_run(alloc, words, text, UNREAD)?;
    Ok(is_ended(&ended, 0, answer, b""))
}

/// The place of the first report that isn't written so.
fn first_other_report(alloc: Global) -> Result<Option<usize>, AllocError> {
    for (place, row) in REPORTS.iter().enumerate() {
        if !is_done_unread(alloc, row)? {
            return Ok(Some(place));
        }
    }
    Ok(None)
}

#[test]
fn machines_are_made(rt: HostRuntime) -> Result<(), Fail> {
    assert_eq!(rt; first_other_report(rt.alloc())?, None);
    Ok(())
}

#[test]
fn help_is_written(rt: HostRuntime) -> Result<(), Fail> {
    assert!(rt; is_done_unread(rt.alloc(), &HELP)?);
    Ok(())
}

/// Words without a meaning.
static WORDS: [Refused; 9] = [
    (b"make", b"", b"", 2, USAGE),
    (b"make ", b"", b"", 2, USAGE),
    (b"make 18446744073709551616", b"", b"", 2, USAGE),
    (b"make 000000000000000000005", b"", b"", 2, USAGE),
    (b"make -1", b"", b"", 2, USAGE),
    (b"make 5 5", b"", b"", 2, USAGE),
    (b"make five", b"", b"", 2, USAGE),
    (b"help make", b"", b"", 2, USAGE),
    (b"--help", b"", b"", 2, USAGE),
];

#[test]
fn other_words_are_refused(rt: HostRuntime) -> Result<(), Fail> {
    assert_eq!(rt; first_not_refused(rt.alloc(), &WORDS)?, None);
    Ok(())
}

/// Numbers, how many bytes their texts have, and the bytes as a number to the base 31 modulo 2^64, as another program drew them.
static TEXTS: [(u64, usize, u64); 4] = [
    (0, 4731, 18_033_080_315_564_730_954),
    (1, 4731, 10_868_352_872_311_928_653),
    (5, 4736, 16_897_202_766_497_122_013),
    (18_446_744_073_709_551_615, 4723, 12_178_211_375_014_393_273),
];

/// The bytes as a number to the base 31.
fn sum_of(text: &[u8]) -> u64 {
    let mut sum: u64 = 0;
    for byte in text {
        sum = sum.wrapping_mul(31).wrapping_add(u64::from(*byte));
    }
    sum
}

/// The place of the first number with another text.
fn first_other_text(alloc: Global) -> Result<Option<usize>, AllocError> {
    for (place, (number, count, sum)) in TEXTS.iter().enumerate() {
        let text = make_text(alloc, *number)?;
        if text.len() != *count || sum_of(text.as_slice()) != *sum {
            return Ok(Some(place));
        }
    }
    Ok(None)
}

#[test]
fn texts_are_drawn(rt: HostRuntime) -> Result<(), Fail> {
    assert_eq!(rt; first_other_text(rt.alloc())?, None);
    Ok(())
}

#[test]
fn make_by_commands(rt: HostRuntime) -> Result<(), Fail> {
    let made = after_run(
        rt.alloc(),
        b"synth kiss berger",
        make_text(rt.alloc(), 5)?,
        NO_FAULTS,
    )?;
    assert_eq!(rt; made.status.code(), 0);
    let source = make_text(rt.alloc(), 5)?;
    let both = joined(rt.alloc(), source.as_slice(), made.sink.written())?;
    assert!(rt; ends(rt.alloc(), b"audit kiss", both, 0, b"yes\n", b"")?);
    Ok(())
}
