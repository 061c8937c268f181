//! Networks at the limits of inputs, outputs, names and pins, and the smallest ones, in each way: none is told as want of memory.

use crate::chains::{Chain, is_right};
use crate::refused::made;
use crate::runs::{NO_FAULTS, after_run, ends, joined};
use std::alloc::{AllocError, Global};
use std::test::Fail;
use tsc_io::Bytes;
use tsc_text::push_number;

/// The words of a synthesis in each way.
static WAYS: [&[u8]; 4] = [
    b"synth blif parity",
    b"synth blif duplex",
    b"synth blif berger",
    b"synth blif mofn",
];

/// A network of one output, and its step lines at which the output is 0 and then 1; an output that is constant has one of the two.
/// In each way the check is the output's negation, and the rails are 01 and 10.
type Small = (&'static [u8], &'static [u8], &'static [u8]);

/// The lines of a simulation where the output is 0 at the first step and 1 at the next.
const BOTH: &[u8] = b"0 0 1 . 01 quiet\n1 1 0 . 10 quiet\n";

/// An output that is an input, the constants, and each kind of cover.
static SMALLEST: [Small; 11] = [
    (b".inputs a\n.outputs a\n.end\n", b"0\n1\n", BOTH),
    (
        b".inputs a\n.outputs y\n.names y\n.end\n",
        b"0\n",
        b"0 0 1 . 01 quiet\n",
    ),
    (
        b".inputs a\n.outputs y\n.names y\n1\n.end\n",
        b"0\n",
        b"0 1 0 . 10 quiet\n",
    ),
    (
        b".inputs a\n.outputs y\n.names y\n0\n.end\n",
        b"0\n",
        b"0 0 1 . 01 quiet\n",
    ),
    (
        b".inputs a\n.outputs y\n.names a y\n- 1\n.end\n",
        b"0\n",
        b"0 1 0 . 10 quiet\n",
    ),
    (
        b".inputs a\n.outputs y\n.names a y\n1 1\n.end\n",
        b"0\n1\n",
        BOTH,
    ),
    (
        b".inputs a\n.outputs y\n.names a y\n0 1\n.end\n",
        b"1\n0\n",
        BOTH,
    ),
    (
        b".inputs a\n.outputs y\n.names a y\n1 0\n.end\n",
        b"1\n0\n",
        BOTH,
    ),
    (
        b".inputs a b\n.outputs y\n.names a b y\n11 1\n.end\n",
        b"01\n11\n",
        BOTH,
    ),
    (
        b".inputs a b\n.outputs y\n.names a b y\n1- 1\n-1 1\n.end\n",
        b"00\n01\n",
        BOTH,
    ),
    (
        b".inputs a b c\n.outputs y\n.names a b c y\n10- 0\n01- 0\n--0 0\n.end\n",
        b"011\n111\n",
        BOTH,
    ),
];

/// The place of the first of the smallest networks whose netlist, made in a way, doesn't run so.
fn first_wrong(alloc: Global, words: &'static [u8]) -> Result<Option<usize>, AllocError> {
    for (place, (source, steps, lines)) in SMALLEST.iter().enumerate() {
        let row: Chain = (words, source, b".model model\n", steps, lines);
        if !is_right(alloc, &row)? {
            return Ok(Some(place));
        }
    }
    Ok(None)
}

#[test]
fn the_smallest_networks_are_run(rt: HostRuntime) -> Result<(), Fail> {
    for words in WAYS {
        assert_eq!(rt; first_wrong(rt.alloc(), words)?, None);
    }
    Ok(())
}

/// Appends a name of 255 bytes that ends with a number, which is below 9,000, and 1,000 more.
fn push_name(text: &mut Bytes, letter: u8, number: u64) -> Result<(), AllocError> {
    text.push(b' ')?;
    for _ in 0..251 {
        text.push(letter)?;
    }
    push_number(text, 1000 + number % 9000)
}

/// Appends so many names.
fn push_names(text: &mut Bytes, letter: u8, count: u64) -> Result<(), AllocError> {
    for number in 0..count {
        push_name(text, letter, number)?;
    }
    Ok(())
}

/// Appends a row that asks for a 1 at each of so many pins.
fn push_row(text: &mut Bytes, pins: u64) -> Result<(), AllocError> {
    for _ in 0..pins {
        text.push(b'1')?;
    }
    text.append(b" 1\n")
}

/// Appends the conjunction of the first inputs, so many of them, which drives the output with this number.
fn push_cover(text: &mut Bytes, pins: u64, number: u64) -> Result<(), AllocError> {
    text.append(b".names")?;
    push_names(text, b'i', pins)?;
    push_name(text, b'o', number)?;
    text.push(b'\n')?;
    push_row(text, pins)
}

/// A network at the limits: 1,024 inputs and 64 outputs with names of 255 bytes, and at last a cover of 64 pins in 65 rows, which
/// are 4,160 literals. The text has more than a million bytes.
fn greatest(alloc: Global) -> Result<Bytes, AllocError> {
    let mut text = made(alloc, b"", b"# at the limits\n", 65_536)?;
    text.append(b".inputs")?;
    push_names(&mut text, b'i', 1024)?;
    text.append(b"\n.outputs")?;
    push_names(&mut text, b'o', 64)?;
    text.push(b'\n')?;
    for number in 0..63 {
        push_cover(&mut text, 2, number)?;
    }
    push_cover(&mut text, 64, 63)?;
    for _ in 0..64 {
        push_row(&mut text, 64)?;
    }
    Ok(text)
}

/// A step line of 1,024 zeros.
fn zeros(alloc: Global) -> Result<Bytes, AllocError> {
    let mut line = made(alloc, b"", b"0", 1024)?;
    line.push(b'\n')?;
    Ok(line)
}

/// Whether the greatest network has a netlist, made in a way, and the netlist runs.
fn is_run(alloc: Global, words: &[u8]) -> Result<bool, AllocError> {
    let written = after_run(alloc, words, greatest(alloc)?, NO_FAULTS)?;
    let text = joined(alloc, written.sink.written(), zeros(alloc)?.as_slice())?;
    let run = after_run(alloc, b"sim none", text, NO_FAULTS)?;
    Ok(written.status.code() == 0 && run.status.code() == 0)
}

#[test]
fn the_greatest_network_is_run(rt: HostRuntime) -> Result<(), Fail> {
    for words in WAYS {
        assert!(rt; is_run(rt.alloc(), words)?);
    }
    Ok(())
}

#[test]
fn a_note_tells_a_far_line(rt: HostRuntime) -> Result<(), Fail> {
    let rows = made(
        rt.alloc(),
        b".inputs a\n.outputs y\n.names a y\n",
        b"1 1\n",
        30_000,
    )?;
    let text = joined(rt.alloc(), rows.as_slice(), b"2 1\n")?;
    let note = b"tsc: line 30004: row shape\n";
    assert!(rt; ends(rt.alloc(), b"synth blif parity", text, 3, b"", note)?);
    Ok(())
}
