//! Runs of `vectors`.

use crate::runs::{Done, NO_FAULTS, Refused, after_run, ends, first_not_done, first_not_refused};
use crate::texts::{AND2, LATCHED, SAFE_AND2, SAFE_ONE, TOGGLE};
use std::alloc::{AllocError, Global};
use std::test::Fail;
use tsc_io::Bytes;

/// A netlist with a gate that changes nothing.
const REDUNDANT: &[u8] =
    b".model red\n.inputs a b\n.outputs y r1 r2\n#tsc 1 parity\n#tsc group y p\n.names a b n\n11 1\n.names a n y\n1- 1\n-1 1\n.names a p\n0 1\n.names y r1\n1 1\n.names p r2\n1 1\n";

/// The same with a node that nothing reads.
const LOOSE: &[u8] =
    b".model red\n.inputs a b\n.outputs y r1 r2\n#tsc 1 parity\n#tsc group y p\n.names a b n\n11 1\n.names a n y\n1- 1\n-1 1\n.names a p\n0 1\n.names y r1\n1 1\n.names p r2\n1 1\n.names a b d\n11 1\n";

/// The same with a rail that is a constant.
const ONE_RAIL: &[u8] =
    b".model red\n.inputs a b\n.outputs y r1 r2\n#tsc 1 parity\n#tsc group y p\n.names a b n\n11 1\n.names a n y\n1- 1\n-1 1\n.names a p\n0 1\n.names y p r1\n10 1\n01 1\n.names r2\n";

/// An output that is an input, with 15 more inputs: 65,536 points; and with 16 more.
const WIDE: &[u8] =
    b".inputs i0 i1 i2 i3 i4 i5 i6 i7 i8 i9 i10 i11 i12 i13 i14 i15\n.outputs i0\n.end\n";

const WIDER: &[u8] =
    b".inputs i0 i1 i2 i3 i4 i5 i6 i7 i8 i9 i10 i11 i12 i13 i14 i15 i16\n.outputs i0\n.end\n";

/// The netlist that the wider one has.
const TOO_WIDE: &[u8] =
    b".inputs i0 i1 i2 i3 i4 i5 i6 i7 i8 i9 i10 i11 i12 i13 i14 i15 i16\n.outputs i0 t0_1 t0_2\n#tsc 1 parity\n#tsc group i0 t0_0\n.names i0 t0_0\n0 1\n.names i0 t0_1\n1 1\n.names t0_0 t0_2\n1 1\n.end\n";

/// Test vectors, as they were worked out by an evaluator of their own: all faults testable, also without inputs, with two states
/// and at the most points; and some untestable, with a redundant gate, a node that nothing reads, a constant rail, and with constants.
static TESTED: [Done; 8] = [
    (
        b"vectors",
        SAFE_AND2,
        b"",
        b"stem y 0 at 0 11\nstem y 1 at 0 00\npin y 0 0 at 0 11\npin y 0 1 at 0 01\npin y 1 0 at 0 11\npin y 1 1 at 0 10\nstem t0_0 0 at 0 11\nstem t0_0 1 at 0 00\npin t0_0 0 0 at 0 11\npin t0_0 0 1 at 0 01\npin t0_0 1 0 at 0 11\npin t0_0 1 1 at 0 10\nstem t0_1 0 at 0 00\nstem t0_1 1 at 0 11\npin t0_1 0 0 at 0 11\npin t0_1 0 1 at 0 00\nstem t0_2 0 at 0 11\nstem t0_2 1 at 0 00\npin t0_2 0 0 at 0 11\npin t0_2 0 1 at 0 00\nstem t0_3 0 at 0 00\nstem t0_3 1 at 0 11\npin t0_3 0 0 at 0 00\npin t0_3 0 1 at 0 11\ntestable 24 untestable 0\nself-testing yes\n",
    ),
    (
        b"vectors",
        SAFE_ONE,
        b"",
        b"stem y 0 at 0 .\nstem y 1 untestable\nstem t0_0 0 at 0 .\nstem t0_0 1 untestable\nstem t0_1 0 untestable\nstem t0_1 1 at 0 .\npin t0_1 0 0 at 0 .\npin t0_1 0 1 untestable\nstem t0_2 0 at 0 .\nstem t0_2 1 untestable\npin t0_2 0 0 at 0 .\npin t0_2 0 1 untestable\nstem t0_3 0 untestable\nstem t0_3 1 at 0 .\npin t0_3 0 0 untestable\npin t0_3 0 1 at 0 .\ntestable 8 untestable 8\nself-testing no\n",
    ),
    (
        b"vectors",
        REDUNDANT,
        b"",
        b"stem n 0 untestable\nstem n 1 at 0 00\npin n 0 0 untestable\npin n 0 1 at 0 01\npin n 1 0 untestable\npin n 1 1 untestable\nstem y 0 at 0 10\nstem y 1 at 0 00\npin y 0 0 at 0 10\npin y 0 1 at 0 00\npin y 1 0 untestable\npin y 1 1 at 0 00\nstem p 0 at 0 00\nstem p 1 at 0 10\npin p 0 0 at 0 10\npin p 0 1 at 0 00\nstem r1 0 at 0 10\nstem r1 1 at 0 00\npin r1 0 0 at 0 10\npin r1 0 1 at 0 00\nstem r2 0 at 0 00\nstem r2 1 at 0 10\npin r2 0 0 at 0 00\npin r2 0 1 at 0 10\ntestable 19 untestable 5\nself-testing no\n",
    ),
    (
        b"faults",
        LOOSE,
        b"",
        b"stem n 0\nstem n 1\npin n 0 0\npin n 0 1\npin n 1 0\npin n 1 1\nstem y 0\nstem y 1\npin y 0 0\npin y 0 1\npin y 1 0\npin y 1 1\nstem p 0\nstem p 1\npin p 0 0\npin p 0 1\nstem r1 0\nstem r1 1\npin r1 0 0\npin r1 0 1\nstem r2 0\nstem r2 1\npin r2 0 0\npin r2 0 1\nstem d 0\nstem d 1\npin d 0 0\npin d 0 1\npin d 1 0\npin d 1 1\ntotal 30\n",
    ),
    (
        b"vectors",
        LOOSE,
        b"",
        b"stem n 0 untestable\nstem n 1 at 0 00\npin n 0 0 untestable\npin n 0 1 at 0 01\npin n 1 0 untestable\npin n 1 1 untestable\nstem y 0 at 0 10\nstem y 1 at 0 00\npin y 0 0 at 0 10\npin y 0 1 at 0 00\npin y 1 0 untestable\npin y 1 1 at 0 00\nstem p 0 at 0 00\nstem p 1 at 0 10\npin p 0 0 at 0 10\npin p 0 1 at 0 00\nstem r1 0 at 0 10\nstem r1 1 at 0 00\npin r1 0 0 at 0 10\npin r1 0 1 at 0 00\nstem r2 0 at 0 00\nstem r2 1 at 0 10\npin r2 0 0 at 0 00\npin r2 0 1 at 0 10\nstem d 0 untestable\nstem d 1 untestable\npin d 0 0 untestable\npin d 0 1 untestable\npin d 1 0 untestable\npin d 1 1 untestable\ntestable 19 untestable 11\nself-testing no\n",
    ),
    (
        b"vectors",
        ONE_RAIL,
        b"",
        b"stem n 0 untestable\nstem n 1 at 0 00\npin n 0 0 untestable\npin n 0 1 at 0 01\npin n 1 0 untestable\npin n 1 1 untestable\nstem y 0 at 0 10\nstem y 1 at 0 00\npin y 0 0 at 0 10\npin y 0 1 at 0 00\npin y 1 0 untestable\npin y 1 1 at 0 00\nstem p 0 at 0 00\nstem p 1 at 0 10\npin p 0 0 at 0 10\npin p 0 1 at 0 00\nstem r1 0 at 0 00\nstem r1 1 untestable\npin r1 0 0 at 0 10\npin r1 0 1 at 0 00\npin r1 1 0 at 0 00\npin r1 1 1 at 0 10\nstem r2 0 untestable\nstem r2 1 at 0 00\ntestable 17 untestable 7\nself-testing no\n",
    ),
    (
        b"vectors",
        LATCHED,
        b"",
        b"stem s 0 untestable\nstem s 1 untestable\npin s 0 0 untestable\npin s 0 1 untestable\nstem u 0 untestable\nstem u 1 untestable\npin u 0 0 untestable\npin u 0 1 untestable\nstem y 0 untestable\nstem y 1 at 0 0\nstem p 0 at 0 0\nstem p 1 untestable\nstem e 0 untestable\nstem e 1 at 0 0\nstem f 0 at 0 0\nstem f 1 untestable\nstem r1 0 at 0 0\nstem r1 1 untestable\npin r1 0 0 untestable\npin r1 0 1 untestable\npin r1 1 0 at 0 0\npin r1 1 1 untestable\npin r1 2 0 untestable\npin r1 2 1 untestable\npin r1 3 0 at 0 0\npin r1 3 1 untestable\nstem r2 0 untestable\nstem r2 1 at 0 0\npin r2 0 0 untestable\npin r2 0 1 at 0 0\npin r2 1 0 untestable\npin r2 1 1 untestable\npin r2 2 0 untestable\npin r2 2 1 at 0 0\npin r2 3 0 untestable\npin r2 3 1 untestable\ntestable 10 untestable 26\nself-testing no\n",
    ),
    (
        b"vectors",
        TOGGLE,
        b"",
        b"stem t0_0 0 at 1 0\nstem t0_0 1 at 0 0\npin t0_0 0 0 at 1 0\npin t0_0 0 1 at 0 0\nstem t0_1 0 at 0 0\nstem t0_1 1 at 1 0\npin t0_1 0 0 at 0 0\npin t0_1 0 1 at 1 0\nstem t0_7 0 at 0 0\nstem t0_7 1 at 0 1\npin t0_7 0 0 at 0 1\npin t0_7 0 1 at 0 0\nstem t0_8 0 at 0 1\nstem t0_8 1 at 0 0\npin t0_8 0 0 at 0 1\npin t0_8 0 1 at 1 1\npin t0_8 1 0 at 0 1\npin t0_8 1 1 at 0 0\nstem t0_9 0 at 1 1\nstem t0_9 1 at 0 0\npin t0_9 0 0 at 1 1\npin t0_9 0 1 at 0 1\npin t0_9 1 0 at 1 1\npin t0_9 1 1 at 1 0\nstem t0_10 0 at 0 0\nstem t0_10 1 at 0 1\npin t0_10 0 0 at 0 0\npin t0_10 0 1 at 1 0\npin t0_10 1 0 at 0 0\npin t0_10 1 1 at 0 1\nstem t0_11 0 at 1 0\nstem t0_11 1 at 0 0\npin t0_11 0 0 at 1 0\npin t0_11 0 1 at 0 0\npin t0_11 1 0 at 1 0\npin t0_11 1 1 at 1 1\nstem o0 0 at 0 1\nstem o0 1 at 0 0\npin o0 0 0 at 0 1\npin o0 0 1 at 0 0\npin o0 1 0 at 1 1\npin o0 1 1 at 0 0\nstem t0_2 0 at 0 1\nstem t0_2 1 at 0 0\npin t0_2 0 0 at 0 1\npin t0_2 0 1 at 0 0\npin t0_2 1 0 at 1 0\npin t0_2 1 1 at 0 0\nstem t0_3 0 at 0 0\nstem t0_3 1 at 0 1\npin t0_3 0 0 at 0 0\npin t0_3 0 1 at 0 1\npin t0_3 1 0 at 1 1\npin t0_3 1 1 at 0 1\nstem t0_4 0 at 0 0\nstem t0_4 1 at 0 1\npin t0_4 0 0 at 0 0\npin t0_4 0 1 at 0 1\npin t0_4 1 0 at 1 0\npin t0_4 1 1 at 0 1\nstem t0_12 0 at 0 1\nstem t0_12 1 at 1 0\npin t0_12 0 0 at 0 1\npin t0_12 0 1 at 1 0\npin t0_12 1 0 at 0 1\npin t0_12 1 1 at 1 1\nstem t0_13 0 at 0 0\nstem t0_13 1 at 1 0\npin t0_13 0 0 at 0 0\npin t0_13 0 1 at 1 1\npin t0_13 1 0 at 0 0\npin t0_13 1 1 at 1 0\nstem t0_14 0 at 0 0\nstem t0_14 1 at 1 0\npin t0_14 0 0 at 0 1\npin t0_14 0 1 at 1 0\npin t0_14 1 0 at 0 0\npin t0_14 1 1 at 1 0\nstem t0_5 0 at 0 0\nstem t0_5 1 at 1 0\npin t0_5 0 0 at 0 0\npin t0_5 0 1 at 1 0\nstem t0_15 0 at 1 1\nstem t0_15 1 at 0 0\npin t0_15 0 0 at 1 1\npin t0_15 0 1 at 0 0\npin t0_15 1 0 at 1 1\npin t0_15 1 1 at 0 1\nstem t0_16 0 at 1 0\nstem t0_16 1 at 0 0\npin t0_16 0 0 at 1 0\npin t0_16 0 1 at 0 1\npin t0_16 1 0 at 1 0\npin t0_16 1 1 at 0 0\nstem t0_17 0 at 1 0\nstem t0_17 1 at 0 0\npin t0_17 0 0 at 1 1\npin t0_17 0 1 at 0 0\npin t0_17 1 0 at 1 0\npin t0_17 1 1 at 0 0\nstem t0_6 0 at 1 0\nstem t0_6 1 at 0 0\npin t0_6 0 0 at 1 0\npin t0_6 0 1 at 0 0\ntestable 104 untestable 0\nself-testing yes\n",
    ),
];

/// What is said of the netlist of the most points.
const MOST: &[u8] =
    b"stem t0_0 0 at 0 0000000000000000\nstem t0_0 1 at 0 1000000000000000\npin t0_0 0 0 at 0 1000000000000000\npin t0_0 0 1 at 0 0000000000000000\nstem t0_1 0 at 0 1000000000000000\nstem t0_1 1 at 0 0000000000000000\npin t0_1 0 0 at 0 1000000000000000\npin t0_1 0 1 at 0 0000000000000000\nstem t0_2 0 at 0 0000000000000000\nstem t0_2 1 at 0 1000000000000000\npin t0_2 0 0 at 0 0000000000000000\npin t0_2 0 1 at 0 1000000000000000\ntestable 12 untestable 0\nself-testing yes\n";

/// Whether `vectors` ends so on what a synthesis under parity writes of a source.
fn is_tested(
    alloc: Global,
    source: &[u8],
    status: u8,
    answer: &[u8],
    note: &[u8],
) -> Result<bool, AllocError> {
    let text = Bytes::from_slice(alloc, source)?;
    let made = after_run(alloc, b"synth blif parity", text, NO_FAULTS)?;
    let netlist = Bytes::from_slice(alloc, made.sink.written())?;
    ends(alloc, b"vectors", netlist, status, answer, note)
}

#[test]
fn netlists_are_tested(rt: HostRuntime) -> Result<(), Fail> {
    assert_eq!(rt; first_not_done(rt.alloc(), &TESTED)?, None);
    assert!(rt; is_tested(rt.alloc(), WIDE, 0, MOST, b"")?);
    assert!(rt; is_tested(rt.alloc(), WIDER, 4, b"", b"tsc: limit: 65536 points\n")?);
    Ok(())
}

/// Netlists that are refused.
static REFUSED: [Refused; 6] = [
    (b"vectors", TOO_WIDE, b"", 4, b"tsc: limit: 65536 points\n"),
    (b"vectors", AND2, b"", 3, b"tsc: no plan\n"),
    (
        b"vectors",
        SAFE_AND2,
        b"11\n",
        3,
        b"tsc: line 17: after the end\n",
    ),
    (
        b"vectors",
        TOO_WIDE,
        b"11\n",
        3,
        b"tsc: line 12: after the end\n",
    ),
    (
        b"vectors vectors",
        SAFE_AND2,
        b"",
        2,
        b"tsc: usage: tsc synth|ask|audit|faults|vectors|grade|sim|make|join|help\n",
    ),
    (
        b"vector",
        SAFE_AND2,
        b"",
        2,
        b"tsc: usage: tsc synth|ask|audit|faults|vectors|grade|sim|make|join|help\n",
    ),
];

#[test]
fn netlists_are_not_tested(rt: HostRuntime) -> Result<(), Fail> {
    assert_eq!(rt; first_not_refused(rt.alloc(), &REFUSED)?, None);
    Ok(())
}
