//! Runs that are refused.

use crate::runs::{NO_FAULTS, Refused, after_run, ends, first_not_refused};
use crate::texts::{
    AND2, DUPLEX_TICKED, SAFE_AND2, SAFE_TABLE, SAFE_WIRE, TABLE, TICKED, TOGGLE, TWO_STATES,
    WATCHED_HELD, WATCHED_TICKED,
};
use std::alloc::{AllocError, Global};
use std::test::Fail;
use tsc_io::Bytes;
use tsc_text::push_number;

const USAGE: &[u8] = b"tsc: usage: tsc synth|ask|audit|faults|vectors|grade|sim|make|join|help\n";

const NO_STATES: &[u8] = b"tsc: no states\n";

/// Words without a meaning, on texts that other words accept.
static WORDS: [Refused; 36] = [
    (b"synth kiss", TWO_STATES, b"", 2, USAGE),
    (b"synth kiss parity", TWO_STATES, b"", 2, USAGE),
    (b"synth kiss berger berger", TWO_STATES, b"", 2, USAGE),
    (b"synth pla", TABLE, b"", 2, USAGE),
    (b"synth kiss duplex", TWO_STATES, b"", 2, USAGE),
    (b"synth pla parity parity", TABLE, b"", 2, USAGE),
    (b"synth Pla berger", TABLE, b"", 2, USAGE),
    (b"audit pla parity", TABLE, SAFE_TABLE, 2, USAGE),
    (b"", AND2, b"", 2, USAGE),
    (b"synth blif", AND2, b"", 2, USAGE),
    (b"synth blif parity parity", AND2, b"", 2, USAGE),
    (b"synth blif berger mofn", AND2, b"", 2, USAGE),
    (b"Synth blif parity", AND2, b"", 2, USAGE),
    (b"fault", SAFE_AND2, b"", 2, USAGE),
    (b"faults faults", SAFE_AND2, b"", 2, USAGE),
    (b"sim", SAFE_AND2, b"11\n", 2, USAGE),
    (b"sim none 0", SAFE_AND2, b"11\n", 2, USAGE),
    (b"sim none none", SAFE_AND2, b"11\n", 2, USAGE),
    (b"sim stem y 2 0", SAFE_AND2, b"11\n", 2, USAGE),
    (b"sim pin y x 0 0", SAFE_AND2, b"11\n", 2, USAGE),
    (b"sim pin y 0 0", SAFE_AND2, b"11\n", 2, USAGE),
    (b"sim stem y 0 5,3", SAFE_AND2, b"11\n", 2, USAGE),
    (b"sim stem y 0 3-,7", SAFE_AND2, b"11\n", 2, USAGE),
    (b"sim stem y 0 1,1", SAFE_AND2, b"11\n", 2, USAGE),
    (b"sim stem y 0 1-3,3", SAFE_AND2, b"11\n", 2, USAGE),
    (b"sim stem y 0 4-3", SAFE_AND2, b"11\n", 2, USAGE),
    (b"sim stem y 0 ", SAFE_AND2, b"11\n", 2, USAGE),
    (b"sim stem y 0 -", SAFE_AND2, b"11\n", 2, USAGE),
    (b"sim stem y 0 -3", SAFE_AND2, b"11\n", 2, USAGE),
    (b"sim stem y 0 3--4", SAFE_AND2, b"11\n", 2, USAGE),
    (b"sim stem y 0 1,", SAFE_AND2, b"11\n", 2, USAGE),
    (b"sim stem y 0 ,1", SAFE_AND2, b"11\n", 2, USAGE),
    (b"sim stem y 0 a", SAFE_AND2, b"11\n", 2, USAGE),
    (b"sim stem y 0 1-b", SAFE_AND2, b"11\n", 2, USAGE),
    (
        b"sim stem y 0 18446744073709551616",
        SAFE_AND2,
        b"11\n",
        2,
        USAGE,
    ),
    (
        b"sim stem y 0 0,1,2,3,4,5,6,7,8,9,10,11,12,13,14,15,16,17,18,19,20,21,22,23,24,25,26,27,28,29,30,31,32,33,34,35,36,37,38,39,40,41,42,43,44,45,46,47,48,49,50,51,52,53,54,55,56,57,58,59,60,61,62,63,64",
        SAFE_AND2,
        b"11\n",
        2,
        USAGE,
    ),
];

#[test]
fn words_are_refused(rt: HostRuntime) -> Result<(), Fail> {
    assert_eq!(rt; first_not_refused(rt.alloc(), &WORDS)?, None);
    Ok(())
}

/// Machines.
static MACHINES: [Refused; 12] = [
    (
        b"synth kiss berger",
        b".i 2\n.o 1\n0- A A 1\n",
        b"-0 A A 0\n.e\n",
        3,
        b"tsc: line 4: conflicts with line 3\n",
    ),
    (
        b"synth kiss mofn",
        b".o 1\n",
        b"0 A A 1\n",
        3,
        b"tsc: line 2: header\n",
    ),
    (
        b"synth kiss mofn",
        b".i 1\n.o 1\n",
        b".e\n",
        3,
        b"tsc: no rows\n",
    ),
    (
        b"synth kiss mofn",
        b".i 1\n.o 1\n.r B\n",
        b"- A A 0\n.e\n",
        3,
        b"tsc: line 3: no reset state\n",
    ),
    (
        b"synth kiss mofn",
        b".r Z\n",
        TWO_STATES,
        3,
        b"tsc: line 1: no reset state\n",
    ),
    (
        b"synth kiss berger",
        b".i 0\n.o 1\n",
        b"0 A A 0\n1 A B 1\n0 B B 0\n1 B A 1\n.e\n",
        3,
        b"tsc: line 1: header\n",
    ),
    (
        b"synth kiss mofn",
        b".i 1\n.o 1\n- A A 0\n.e\n",
        b"x\n",
        3,
        b"tsc: line 5: after the end\n",
    ),
    (
        b"synth kiss mofn",
        b".i 1\n.o 1\n",
        b".type fr\n",
        3,
        b"tsc: line 3: unsupported\n",
    ),
    (
        b"synth kiss mofn",
        b".i 1\n.o 1\n",
        b"-- A A 0\n",
        3,
        b"tsc: line 3: row shape\n",
    ),
    (
        b"synth kiss mofn",
        b".i 65\n",
        b".o 1\n- A A 0\n",
        4,
        b"tsc: line 1: limit: 64 inputs\n",
    ),
    (
        b"synth kiss mofn",
        AND2,
        b"",
        3,
        b"tsc: line 1: unsupported\n",
    ),
    (
        b"synth kiss mofn",
        b".i 1\n",
        b"\x00\n",
        3,
        b"tsc: line 2: byte\n",
    ),
];

#[test]
fn machines_are_refused(rt: HostRuntime) -> Result<(), Fail> {
    assert_eq!(rt; first_not_refused(rt.alloc(), &MACHINES)?, None);
    Ok(())
}

/// Sources of networks.
static SOURCES: [Refused; 24] = [
    (
        b"synth blif parity",
        b".inputs\n.outputs a\n",
        b".names b a\n1 1\n.names a b\n1 1\n",
        3,
        b"tsc: cycle: a b\n",
    ),
    (
        b"synth blif parity",
        b".inputs\n.outputs a\n.names b a\n1 1\n.names c b\n1 1\n.names d c\n1 1\n.names e d\n1 1\n.names f e\n1 1\n",
        b".names g f\n1 1\n.names h g\n1 1\n.names i h\n1 1\n.names j i\n1 1\n.names a j\n1 1\n",
        3,
        b"tsc: cycle: a b c d e f g h i j\n",
    ),
    (
        b"synth blif parity",
        b".inputs a\n.outputs y\n",
        b".names a y\n1 1\n.names a y\n1 1\n",
        3,
        b"tsc: driven twice: y\n",
    ),
    (
        b"synth blif parity",
        b".inputs a\n.outputs y\n",
        b".names z y\n1 1\n",
        3,
        b"tsc: undriven: z\n",
    ),
    (b"synth blif parity", b"", b"", 3, b"tsc: no outputs\n"),
    (
        b"synth blif parity",
        b".inputs a\n.outputs a a\n",
        b".end\n",
        3,
        b"tsc: driven twice: a\n",
    ),
    (
        b"synth blif parity",
        b".model and2\n.inputs a b\n.outputs y\n.names a b y\n",
        b"1\n.end\n",
        3,
        b"tsc: line 5: row shape\n",
    ),
    (
        b"synth blif parity",
        b".model and2\n.inputs a b\n.outputs y\n.names a b y\n",
        b"11 1\n00 0\n.end\n",
        3,
        b"tsc: line 6: mixed rows\n",
    ),
    (
        b"synth blif parity",
        b".model and2\n.inputs a b\n.outputs y\n",
        b"11 1\n.end\n",
        3,
        b"tsc: line 4: row outside a cover\n",
    ),
    (
        b"synth blif parity",
        b".model a\n.model b\n",
        b".inputs a\n.outputs a\n.end\n",
        3,
        b"tsc: line 2: unsupported\n",
    ),
    (
        b"synth blif parity",
        b".inputs a\n.subckt b\n",
        b"",
        3,
        b"tsc: line 2: unsupported\n",
    ),
    (
        b"synth blif parity",
        b".model a b\n",
        b"",
        3,
        b"tsc: line 1: word count\n",
    ),
    (
        b"synth blif parity",
        b".inputs a\n.names\n",
        b"",
        3,
        b"tsc: line 2: word count\n",
    ),
    (
        b"synth blif parity",
        b".inputs a\n.latch a b 0\n",
        b"",
        3,
        b"tsc: line 2: latch in a source\n",
    ),
    (
        b"synth blif watched",
        b".inputs c a\n.outputs y\n.latch a y ah c 0\n",
        b"",
        3,
        b"tsc: line 3: latch clock\n",
    ),
    (
        b"synth blif duplex",
        b".inputs c a\n.outputs y z\n.latch a y re c 0\n.latch a z 0\n",
        b"",
        3,
        b"tsc: line 4: latch clock\n",
    ),
    (
        b"synth blif duplex",
        b".inputs c a\n.outputs y c\n.latch a y re c 0\n",
        b"",
        3,
        b"tsc: line 3: latch clock\n",
    ),
    (
        b"synth blif watched",
        b".inputs a\n.outputs y\n.latch a y 3\n",
        b"",
        3,
        b"tsc: line 3: latch init\n",
    ),
    (
        b"synth blif parity",
        b".inputs a\n.outputs a\n.end\n\n",
        b".inputs b\n",
        3,
        b"tsc: line 5: after the end\n",
    ),
    (
        b"synth blif parity",
        b".inputs a\n\x00\n",
        b"",
        3,
        b"tsc: line 2: byte\n",
    ),
    (
        b"synth blif parity",
        b".inputs a \\\n # more\n",
        b".outputs \x80\n",
        3,
        b"tsc: line 3: byte\n",
    ),
    (
        b"synth blif parity",
        b"1\n\x80\n",
        b"",
        3,
        b"tsc: line 2: byte\n",
    ),
    (
        b"synth blif parity",
        b".inputs a \\\n \\\n b\n",
        b".gate\n",
        3,
        b"tsc: line 4: unsupported\n",
    ),
    (
        b"synth blif parity",
        b".outputs z\n",
        b".names q y\n1 1\n",
        3,
        b"tsc: undriven: q\n",
    ),
];

#[test]
fn sources_are_refused(rt: HostRuntime) -> Result<(), Fail> {
    assert_eq!(rt; first_not_refused(rt.alloc(), &SOURCES)?, None);
    Ok(())
}

/// Netlists, the faults of simulations, and step lines.
static NETLISTS: [Refused; 22] = [
    (b"faults", b"", b"", 3, b"tsc: no outputs\n"),
    (b"faults", AND2, b"", 3, b"tsc: no plan\n"),
    (
        b"faults",
        b".inputs a\n.outputs a p q\n#tsc 1 parity\n#tsc group a b\n",
        b".names a p\n0 1\n.names a q\n1 1\n.end\n",
        3,
        b"tsc: line 4: plan name\n",
    ),
    (
        b"faults",
        b".inputs a\n.outputs a p\n#tsc 1 parity\n#tsc group a p\n",
        b".names a p\n0 1\n.end\n",
        3,
        b"tsc: line 3: plan shape\n",
    ),
    (
        b"faults",
        b".inputs a\n.outputs a p q\n#tsc 3 parity\n#tsc group a p\n",
        b".names a p\n0 1\n.names a q\n1 1\n.end\n",
        3,
        b"tsc: line 3: plan shape\n",
    ),
    (
        b"faults",
        b".inputs a\n.outputs a p q\n#tsc 1 parity\n#tsc group a p\n",
        b"#tsc state 01\n.names a p\n0 1\n.names a q\n1 1\n.end\n",
        3,
        b"tsc: line 3: plan shape\n",
    ),
    (
        b"faults",
        b".inputs a\n.latch a b\n",
        b"",
        3,
        b"tsc: line 2: latch init\n",
    ),
    (
        b"faults",
        b".inputs a\n.latch a b 2\n",
        b"",
        3,
        b"tsc: line 2: latch init\n",
    ),
    (
        b"faults",
        b".inputs a\n.latch a\n",
        b"",
        3,
        b"tsc: line 2: word count\n",
    ),
    (
        b"faults",
        b".inputs a\n\x7f\n",
        b"",
        3,
        b"tsc: line 2: byte\n",
    ),
    (
        b"faults",
        SAFE_WIRE,
        b"0\n",
        3,
        b"tsc: line 13: after the end\n",
    ),
    (
        b"faults",
        SAFE_WIRE,
        b"#tsc 1 parity\n",
        3,
        b"tsc: line 13: after the end\n",
    ),
    (b"sim none", AND2, b"11\n", 3, b"tsc: no plan\n"),
    (
        b"sim stem a 0 0",
        SAFE_AND2,
        b"11\n",
        3,
        b"tsc: fault not listed\n",
    ),
    (
        b"sim stem i0 0 0",
        TOGGLE,
        b"1\n",
        3,
        b"tsc: fault not listed\n",
    ),
    (
        b"sim stem nowhere 0 0",
        SAFE_AND2,
        b"1\n",
        3,
        b"tsc: fault not listed\n",
    ),
    (
        b"sim pin y 2 0 0",
        SAFE_AND2,
        b"11\n",
        3,
        b"tsc: fault not listed\n",
    ),
    (
        b"sim none",
        SAFE_AND2,
        b"11\n1\n",
        3,
        b"tsc: line 18: step shape\n",
    ),
    (
        b"sim none",
        SAFE_AND2,
        b"11\n\n012\n",
        3,
        b"tsc: line 19: step shape\n",
    ),
    (
        b"sim none",
        SAFE_AND2,
        b"12\n",
        3,
        b"tsc: line 17: step shape\n",
    ),
    (
        b"sim none",
        SAFE_AND2,
        b"1 1\n",
        3,
        b"tsc: line 17: step shape\n",
    ),
    (
        b"sim none",
        SAFE_AND2,
        b"#tsc 1 parity\n",
        3,
        b"tsc: line 17: step shape\n",
    ),
];

#[test]
fn netlists_are_refused(rt: HostRuntime) -> Result<(), Fail> {
    assert_eq!(rt; first_not_refused(rt.alloc(), &NETLISTS)?, None);
    Ok(())
}

/// A text that is made, and what it comes to: the words, a head, an item and how often it stands after it, the status and the note.
pub type Made = (
    &'static [u8],
    &'static [u8],
    &'static [u8],
    usize,
    u8,
    &'static [u8],
);

/// Each limit, and the number before it. A netlist may have two outputs more than a source; a row more of the source of equal rows
/// raises its bound on covers above 1,048,576: from 1,048,556 under parity, and from 1,048,548 under the other codes.
static LIMITS: [Made; 28] = [
    (
        b"synth kiss berger",
        b".i 64\n.o 64\n",
        b"---------------------------------------------------------------- A A 0000000000000000000000000000000000000000000000000000000000000000\n",
        1125,
        4,
        b"tsc: limit: 1048576 covers\n",
    ),
    (b"faults", b".model ", b"m", 255, 3, b"tsc: no outputs\n"),
    (
        b"faults",
        b".model ",
        b"m",
        256,
        4,
        b"tsc: line 1: limit: 255 name bytes\n",
    ),
    (
        b"faults",
        b".inputs",
        b" a",
        1024,
        3,
        b"tsc: driven twice: a\n",
    ),
    (
        b"faults",
        b".inputs",
        b" a",
        1025,
        4,
        b"tsc: line 1: limit: 1024 inputs\n",
    ),
    (
        b"synth blif parity",
        b".outputs",
        b" y",
        64,
        3,
        b"tsc: driven twice: y\n",
    ),
    (
        b"synth blif parity",
        b".outputs",
        b" y",
        65,
        4,
        b"tsc: line 1: limit: 64 outputs\n",
    ),
    (
        b"faults",
        b".outputs",
        b" y",
        66,
        3,
        b"tsc: driven twice: y\n",
    ),
    (
        b"faults",
        b".outputs",
        b" y",
        67,
        4,
        b"tsc: line 1: limit: 66 outputs\n",
    ),
    (
        b"synth blif parity",
        b"",
        b".names y\n",
        16_384,
        3,
        b"tsc: driven twice: y\n",
    ),
    (
        b"synth blif parity",
        b"",
        b".names y\n",
        16_385,
        4,
        b"tsc: line 16385: limit: 16384 nodes\n",
    ),
    (
        b"synth blif parity",
        b".names",
        b" a",
        65,
        3,
        b"tsc: no outputs\n",
    ),
    (
        b"synth blif parity",
        b".names",
        b" a",
        66,
        4,
        b"tsc: line 1: limit: 64 pins\n",
    ),
    (
        b"faults",
        b"",
        b".latch a b 0\n",
        64,
        3,
        b"tsc: driven twice: b\n",
    ),
    (
        b"vectors",
        b"",
        b".latch a b 0\n",
        65,
        4,
        b"tsc: line 65: limit: 64 latches\n",
    ),
    (
        b"faults",
        b"",
        b".latch a b 0\n",
        32_768,
        3,
        b"tsc: driven twice: b\n",
    ),
    (
        b"faults",
        b"",
        b".latch a b 0\n",
        32_769,
        4,
        b"tsc: line 32769: limit: 32768 latches\n",
    ),
    (
        b"synth blif parity",
        b".inputs a\n.outputs y\n.names a y\n",
        b"1 1\n",
        43_678,
        0,
        b"",
    ),
    (
        b"synth blif parity",
        b".inputs a\n.outputs y\n.names a y\n",
        b"1 1\n",
        43_679,
        4,
        b"tsc: limit: 1048576 covers\n",
    ),
    // Two groups, which share a cover.
    (
        b"synth blif parity",
        b".inputs a\n.outputs y z\n.names y z\n1 1\n.names a y\n",
        b"1 1\n",
        43_664,
        4,
        b"tsc: limit: 1048576 covers\n",
    ),
    (
        b"synth blif duplex",
        b".inputs a\n.outputs y z\n.names y z\n1 1\n.names a y\n",
        b"1 1\n",
        43_664,
        0,
        b"",
    ),
    (
        b"synth blif duplex",
        b".inputs a\n.outputs y z\n.names y z\n1 1\n.names a y\n",
        b"1 1\n",
        43_665,
        4,
        b"tsc: limit: 1048576 covers\n",
    ),
    (
        b"synth blif berger",
        b".inputs a\n.outputs y\n.names a y\n",
        b"1 1\n",
        32_758,
        0,
        b"",
    ),
    (
        b"synth blif berger",
        b".inputs a\n.outputs y\n.names a y\n",
        b"1 1\n",
        32_759,
        4,
        b"tsc: limit: 1048576 covers\n",
    ),
    (
        b"synth blif mofn",
        b".inputs a\n.outputs y\n.names a y\n",
        b"1 1\n",
        32_758,
        0,
        b"",
    ),
    (
        b"synth blif mofn",
        b".inputs a\n.outputs y\n.names a y\n",
        b"1 1\n",
        32_759,
        4,
        b"tsc: limit: 1048576 covers\n",
    ),
    (
        b"synth blif parity",
        b".inputs a\n.outputs a\n.end\n",
        b"#tsc \n",
        1000,
        0,
        b"",
    ),
    (
        b"synth blif parity",
        b".inputs a\n.outputs a",
        b" \\\n",
        1000,
        0,
        b"",
    ),
];

/// A head and so many equal items.
pub fn made(alloc: Global, head: &[u8], item: &[u8], count: usize) -> Result<Bytes, AllocError> {
    let mut text = Bytes::from_slice(alloc, head)?;
    for _ in 0..count {
        text.append(item)?;
    }
    Ok(text)
}

/// Whether a made text ends so, with an answer exactly where it isn't refused.
fn comes_to(alloc: Global, row: &Made) -> Result<bool, AllocError> {
    let (words, head, item, count, status, note) = row;
    let text = made(alloc, head, item, *count)?;
    let ended = after_run(alloc, words, text, NO_FAULTS)?;
    let is_empty = ended.sink.written().is_empty();
    Ok(
        ended.status.code() == *status
            && ended.notes.written() == *note
            && is_empty == (*status != 0),
    )
}

/// The place of the first row that doesn't come to this.
pub fn first_not_made(alloc: Global, rows: &[Made]) -> Result<Option<usize>, AllocError> {
    for (place, row) in rows.iter().enumerate() {
        if !comes_to(alloc, row)? {
            return Ok(Some(place));
        }
    }
    Ok(None)
}

#[test]
fn limits_are_kept(rt: HostRuntime) -> Result<(), Fail> {
    assert_eq!(rt; first_not_made(rt.alloc(), &LIMITS)?, None);
    Ok(())
}

/// A machine of so many states, each with a row to itself.
fn many_states(alloc: Global, count: usize) -> Result<Bytes, AllocError> {
    let mut text = Bytes::from_slice(alloc, b".i 1\n.o 1\n")?;
    for state in 0..count {
        text.append(b"- s")?;
        push_number(&mut text, state as u64)?;
        text.append(b" s")?;
        push_number(&mut text, state as u64)?;
        text.append(b" 0\n")?;
    }
    Ok(text)
}

#[test]
fn states_have_words(rt: HostRuntime) -> Result<(), Fail> {
    let text = many_states(rt.alloc(), 925)?;
    let note = b"tsc: limit: 924 states\n";
    assert!(rt; ends(rt.alloc(), b"synth kiss berger", text, 4, b"", note)?);
    let fewer = many_states(rt.alloc(), 253)?;
    let made = after_run(rt.alloc(), b"synth kiss berger", fewer, NO_FAULTS)?;
    assert_eq!(rt; made.status.code(), 0);
    Ok(())
}

/// Appends the 11 binary digits of a number.
fn push_digits(text: &mut Bytes, number: u64) -> Result<(), AllocError> {
    for worth in [1024, 512, 256, 128, 64, 32, 16, 8, 4, 2, 1] {
        text.push(if number & worth == 0 { b'0' } else { b'1' })?;
    }
    Ok(())
}

/// A machine of one state, 64 inputs and 64 outputs, and so many rows, each of which asks for the digits of its number.
fn many_rows(alloc: Global, count: u64) -> Result<Bytes, AllocError> {
    let mut text = Bytes::from_slice(alloc, b".i 64\n.o 64\n")?;
    for row in 0..count {
        push_digits(&mut text, row)?;
        text.append(
            b"----------------------------------------------------- A A 0000000000000000000000000000000000000000000000000000000000000000\n",
        )?;
    }
    Ok(text)
}

#[test]
fn machines_have_a_bound(rt: HostRuntime) -> Result<(), Fail> {
    let text = many_rows(rt.alloc(), 1300)?;
    let note = b"tsc: limit: 1048576 covers\n";
    assert!(rt; ends(rt.alloc(), b"synth kiss berger", text, 4, b"", note)?);
    Ok(())
}

/// Netlists with registers whose plan lists no states.
static LISTLESS: [Refused; 15] = [
    (
        b"faults",
        b".inputs a\n.outputs p r s\n#tsc 1 parity\n#tsc group p c\n#tsc watch p\n.latch a p 0\n.names a c\n0 1\n.names p r\n1 1\n.names c s\n1 1\n.end\n",
        b"",
        3,
        b"tsc: line 5: plan shape\n",
    ),
    (
        b"faults",
        b".inputs a\n.outputs p r s\n#tsc watch p c\n#tsc 1 parity\n#tsc group p c\n.latch a p 0\n.names a c\n0 1\n.names p r\n1 1\n.names c s\n1 1\n.end\n",
        b"",
        3,
        b"tsc: line 3: plan shape\n",
    ),
    (
        b"faults",
        b".inputs a\n.outputs p r s\n#tsc 1 parity\n#tsc group p c\n#tsc watch q c\n.latch a p 0\n.names a c\n0 1\n.names p r\n1 1\n.names c s\n1 1\n.end\n",
        b"",
        3,
        b"tsc: line 5: plan name\n",
    ),
    (
        b"faults",
        b".inputs a\n.outputs p r s\n#tsc 1 parity\n#tsc group p c\n#tsc watch p q\n.latch a p 0\n.names a c\n0 1\n.names p r\n1 1\n.names c s\n1 1\n.end\n",
        b"",
        3,
        b"tsc: line 5: plan name\n",
    ),
    (
        b"sim none",
        b".inputs a\n.outputs p r s\n#tsc 1 parity\n#tsc group p c\n#tsc watch a c\n.latch a p 0\n.names a c\n0 1\n.names p r\n1 1\n.names c s\n1 1\n.end\n",
        b"",
        3,
        b"tsc: line 3: plan shape\n",
    ),
    (
        b"sim none",
        b".inputs a\n.outputs p r s\n#tsc 1 parity\n#tsc group p c\n#tsc watch p p c\n.latch a p 0\n.names a c\n0 1\n.names p r\n1 1\n.names c s\n1 1\n.end\n",
        b"",
        3,
        b"tsc: line 3: plan shape\n",
    ),
    (
        b"faults",
        b".inputs a\n.outputs p r s\n#tsc 1 parity\n#tsc group p c\n#tsc watch p c\n#tsc watch p c\n.latch a p 0\n.names a c\n0 1\n.names p r\n1 1\n.names c s\n1 1\n.end\n",
        b"",
        3,
        b"tsc: line 3: plan shape\n",
    ),
    (
        b"faults",
        b".inputs a\n.outputs p r s\n#tsc 2 parity\n#tsc group p c\n.latch a p 0\n.latch a q 0\n.names a c\n0 1\n.names p r\n1 1\n.names c s\n1 1\n.end\n",
        b"",
        3,
        b"tsc: line 3: plan shape\n",
    ),
    (
        b"faults",
        b".inputs a\n.outputs p r s\n#tsc 1 berger\n#tsc check c\n.latch a p 0\n.names a c\n0 1\n.names p r\n1 1\n.names c s\n1 1\n.end\n",
        b"",
        3,
        b"tsc: line 3: plan shape\n",
    ),
    (
        b"faults",
        b".inputs a\n.outputs p r s\n#tsc 1 parity\n#tsc group p c\n#tsc state 01\n#tsc state 10\n#tsc watch p c\n.latch a p 0\n.latch a q 0\n.names a c\n0 1\n.names p r\n1 1\n.names c s\n1 1\n.end\n",
        b"",
        3,
        b"tsc: line 3: plan shape\n",
    ),
    (
        b"faults",
        b".inputs a\n.outputs p r s\n#tsc 1 parity\n#tsc group p c\n#tsc watch p c\n.names a p\n1 1\n.names a c\n0 1\n.names p r\n1 1\n.names c s\n1 1\n.end\n",
        b"",
        3,
        b"tsc: line 3: plan shape\n",
    ),
    (
        b"faults",
        b".inputs a\n.outputs p r s\n#tsc 1 parity\n#tsc group p c\n.latch a p re k 0\n.latch a q re l 0\n.names a c\n0 1\n.names p r\n1 1\n.names c s\n1 1\n.end\n",
        b"",
        3,
        b"tsc: line 6: latch clock\n",
    ),
    (
        b"sim none",
        b".inputs a\n.outputs p r s\n#tsc 1 parity\n#tsc group p c\n.latch a p re k 0\n.latch a q 0\n.names a c\n0 1\n.names p r\n1 1\n.names c s\n1 1\n.end\n",
        b"",
        3,
        b"tsc: line 6: latch clock\n",
    ),
    (
        b"audit mapped",
        b".inputs a\n.outputs p r s\n#tsc 1 parity\n#tsc group p c\n.latch a p ah k 0\n.latch a q ah k 0\n.names a c\n0 1\n.names p r\n1 1\n.names c s\n1 1\n.end\n",
        b"",
        3,
        b"tsc: line 5: latch clock\n",
    ),
    // Two clocks: no command takes it.
    (
        b"vectors",
        b".inputs a\n.outputs p r s\n#tsc 1 parity\n#tsc group p c\n.latch a p re k 0\n.latch a q re l 0\n.names a c\n0 1\n.names p r\n1 1\n.names c s\n1 1\n.end\n",
        b"",
        3,
        b"tsc: line 3: plan shape\n",
    ),
];

#[test]
fn plans_without_states_are_refused(rt: HostRuntime) -> Result<(), Fail> {
    assert_eq!(rt; first_not_refused(rt.alloc(), &LISTLESS)?, None);
    Ok(())
}

/// The same, where a command wants listed states.
static STATELESS: [Refused; 13] = [
    (b"vectors", DUPLEX_TICKED, b"", 3, NO_STATES),
    (b"vectors", WATCHED_TICKED, b"", 3, NO_STATES),
    (b"audit blif", AND2, DUPLEX_TICKED, 3, NO_STATES),
    (b"audit kiss", TWO_STATES, WATCHED_HELD, 3, NO_STATES),
    (b"audit pla", TABLE, DUPLEX_TICKED, 3, NO_STATES),
    (b"audit wide 64", AND2, WATCHED_TICKED, 3, NO_STATES),
    (b"audit exact blif", AND2, DUPLEX_TICKED, 3, NO_STATES),
    (b"audit exact kiss", TWO_STATES, DUPLEX_TICKED, 3, NO_STATES),
    (b"ask exact", AND2, WATCHED_HELD, 3, NO_STATES),
    // What refuses the source, and a line after the netlist, come first.
    (
        b"audit blif",
        TICKED,
        DUPLEX_TICKED,
        3,
        b"tsc: line 4: latch in a source\n",
    ),
    (
        b"vectors",
        DUPLEX_TICKED,
        b".model m\n",
        3,
        b"tsc: line 48: after the end\n",
    ),
    (
        b"audit blif",
        AND2,
        b".inputs a\n.outputs p r s\n#tsc 1 parity\n#tsc group p c\n.latch a p 0\n.names a c\n0 1\n.names p r\n1 1\n.names c s\n1 1\n.end\n#tsc 1 parity\n",
        3,
        b"tsc: line 19: after the end\n",
    ),
    (
        b"ask exact",
        AND2,
        b".inputs a\n.outputs p r s\n#tsc 1 parity\n#tsc group p c\n#tsc watch p c\n.latch a p 0\n.names a c\n0 1\n.names p r\n1 1\n.names c s\n1 1\n.end\n.model m\n",
        3,
        b"tsc: line 20: after the end\n",
    ),
];

#[test]
fn listed_states_are_wanted(rt: HostRuntime) -> Result<(), Fail> {
    assert_eq!(rt; first_not_refused(rt.alloc(), &STATELESS)?, None);
    Ok(())
}

/// A netlist of so many registers, of which its plan lists no states.
fn many_registers(alloc: Global, count: u64) -> Result<Bytes, AllocError> {
    let head = b".inputs a\n.outputs p r s\n#tsc 1 parity\n#tsc group p c\n.latch a p 0\n";
    let mut text = Bytes::from_slice(alloc, head)?;
    for register in 1..count {
        text.append(b".latch a p")?;
        push_number(&mut text, register)?;
        text.append(b" 0\n")?;
    }
    text.append(b".names a c\n0 1\n.names p r\n1 1\n.names c s\n1 1\n.end\n")?;
    Ok(text)
}

#[test]
fn listed_states_of_many_registers_are_wanted(rt: HostRuntime) -> Result<(), Fail> {
    let text = many_registers(rt.alloc(), 65)?;
    assert!(rt; ends(rt.alloc(), b"vectors", text, 3, b"", NO_STATES)?);
    Ok(())
}
