//! Tables of PLA: what is written of them and run, how free outputs are judged, and what is refused.

use crate::accepted::is_accepted;
use crate::audits::{Audit, first_not_audited};
use crate::chains::{Chain, first_wrong};
use crate::refused::{Made, first_not_made};
use crate::runs::{
    Done, NO_FAULTS, Refused, after_run, ends, first_not_done, first_not_refused, joined,
};
use crate::texts::{
    AND2, FEWER_SEGMENTS, FOLLOWING, FREE_AT_ONE, SAFE_TABLE, SEGMENTS, TABLE, TWO_STATES,
};
use std::alloc::{AllocError, Global};
use std::test::Fail;
use tsc_io::Bytes;

/// A netlist, as it follows from the stated construction; its outputs are one group.
static WRITTEN: [Done; 2] = [
    (b"synth pla parity", TABLE, b"", SAFE_TABLE),
    (b"synth pla duplex", TABLE, b"", SAFE_TABLE),
];

/// Tables: an output that is free is 0. The checks are those of the outputs, and the rails follow from the stated checkers.
static RUNS: [Chain; 10] = [
    (
        b"synth pla parity",
        TABLE,
        b".model pla\n.inputs i0 i1\n.outputs o0 o1 t0_5 t0_6\n#tsc 2 parity\n#tsc group o0 o1 t0_3\n",
        b"11\n00\n10\n",
        b"0 10 0 . 10 quiet\n1 01 0 . 10 quiet\n2 00 1 . 01 quiet\n",
    ),
    (
        b"synth pla berger",
        TABLE,
        b".model pla\n.inputs i0 i1\n.outputs o0 o1 t0_2 t0_3\n#tsc 2 berger\n#tsc check t0_0 t0_1\n",
        b"11\n00\n10\n",
        b"0 10 01 . 01 quiet\n1 01 01 . 01 quiet\n2 00 10 . 01 quiet\n",
    ),
    (
        b"synth pla mofn",
        TABLE,
        b".model pla\n.inputs i0 i1\n.outputs o0 o1 t0_2 t0_3\n#tsc 2 mofn\n#tsc check t0_0 t0_1\n",
        b"11\n00\n10\n",
        b"0 10 10 . 10 quiet\n1 01 10 . 10 quiet\n2 00 11 . 01 quiet\n",
    ),
    // A digit, and a code that is none.
    (
        b"synth pla berger",
        SEGMENTS,
        b".model pla\n.inputs b3 b2 b1 b0\n.outputs a b c d e f g t0_3 t0_4\n#tsc 2 berger\n#tsc check t0_0 t0_1 t0_2\n",
        b"0000\n1000\n1010\n",
        b"0 1111110 001 . 01 quiet\n1 1111111 000 . 10 quiet\n2 0000000 111 . 01 quiet\n",
    ),
    (
        b"synth pla mofn",
        FEWER_SEGMENTS,
        b".model pla\n.inputs b3 b2 b1 b0\n.outputs a b c d e f g t0_7 t0_8\n#tsc 2 mofn\n",
        b"0000\n1000\n1010\n",
        b"0 1111110 1000000 . 01 quiet\n1 1111111 0000000 . 10 quiet\n2 1101111 1000000 . 01 quiet\n",
    ),
    // No rows.
    (
        b"synth pla berger",
        b".i 1\n.o 1\n.e\n",
        b".model pla\n.inputs i0\n.outputs o0 t0_1 t0_2\n#tsc 2 berger\n#tsc check t0_0\n",
        b"0\n1\n",
        b"0 0 1 . 01 quiet\n1 0 1 . 01 quiet\n",
    ),
    // `~` says nothing; a plan line, names before their counts, a joined line, CR LF, tabs, a wrong `.p`, and no end.
    (
        b"synth pla mofn",
        b"#tsc 1 parity\r\n.ob x \\\r\n y # two\r\n.i\t1\r\n.p 9\r\n.o 2\r\n\r\n- -~\r\n1\t1-\r\n",
        b".model pla\n.inputs i0\n.outputs x y t0_2 t0_3\n#tsc 2 mofn\n#tsc check t0_0 t0_1\n",
        b"0\n1\n",
        b"0 00 11 . 01 quiet\n1 10 10 . 10 quiet\n",
    ),
    // `0` doesn't take back a `1`.
    (
        b"synth pla parity",
        b".i 1\n.o 1\n1 1\n- 0\n1 -\n.end of it\n",
        b".model pla\n.inputs i0\n.outputs o0 t0_2 t0_3\n#tsc 2 parity\n#tsc group o0 t0_1\n",
        b"0\n1\n",
        b"0 0 1 . 01 quiet\n1 1 0 . 10 quiet\n",
    ),
    // A name that begins as fresh ones do.
    (
        b"synth pla parity",
        b".i 1\n.o 1\n.ilb t0_x\n1 1\n.e\n",
        b".model pla\n.inputs t0_x\n.outputs o0 t1_2 t1_3\n#tsc 2 parity\n#tsc group o0 t1_1\n",
        b"0\n1\n",
        b"0 0 1 . 01 quiet\n1 1 0 . 10 quiet\n",
    ),
    // Type f.
    (
        b"synth pla parity",
        b".type f\n.i 2\n.o 1\n.ilb b a\n.ob y\n.p 2\n1- 1\n0- -\n.e\n",
        b".model pla\n.inputs b a\n.outputs y t0_2 t0_3\n#tsc 2 parity\n#tsc group y t0_1\n",
        b"01\n10\n",
        b"0 0 1 . 01 quiet\n1 1 0 . 10 quiet\n",
    ),
];

#[test]
fn tables_are_written_and_run(rt: HostRuntime) -> Result<(), Fail> {
    assert_eq!(rt; first_not_done(rt.alloc(), &WRITTEN)?, None);
    assert_eq!(rt; first_wrong(rt.alloc(), &RUNS)?, None);
    Ok(())
}

/// A netlist whose output is its input, under the other codes, and under parity in version 1.
const FOLLOWING_BERGER: &[u8] =
    b".inputs i0\n.outputs y r1 r2\n#tsc 2 berger\n#tsc check p\n.names i0 y\n1 1\n.names i0 p\n0 1\n.names y r1\n1 1\n.names p r2\n1 1\n.end\n";

const FOLLOWING_MOFN: &[u8] =
    b".inputs i0\n.outputs y r1 r2\n#tsc 2 mofn\n#tsc check p\n.names i0 y\n1 1\n.names i0 p\n0 1\n.names y r1\n1 1\n.names p r2\n1 1\n.end\n";

const FOLLOWING_1: &[u8] =
    b".inputs i0\n.outputs y r1 r2\n#tsc 1 parity\n#tsc group y p\n.names i0 y\n1 1\n.names i0 p\n0 1\n.names y r1\n1 1\n.names p r2\n1 1\n.end\n";

/// The netlist of the table with another cover for its second output: 1 also where it is free; the same in version 1; and 1
/// everywhere.
const OTHER_AT_FREE: &[u8] =
    b".inputs i0 i1\n.outputs o0 o1 t0_5 t0_6\n#tsc 2 parity\n#tsc group o0 o1 t0_3\n.names i0 i1 o0\n11 1\n.names i0 i1 o1\n0- 1\n-1 1\n.names i0 i1 t0_0\n11 1\n.names i0 i1 t0_1\n0- 1\n-1 1\n.names t0_0 t0_1 t0_2\n10 1\n01 1\n.names t0_2 t0_3\n0 1\n.names o0 o1 t0_4\n10 1\n01 1\n.names t0_4 t0_5\n1 1\n.names t0_3 t0_6\n1 1\n.end\n";

const OTHER_AT_FREE_1: &[u8] =
    b".inputs i0 i1\n.outputs o0 o1 t0_5 t0_6\n#tsc 1 parity\n#tsc group o0 o1 t0_3\n.names i0 i1 o0\n11 1\n.names i0 i1 o1\n0- 1\n-1 1\n.names i0 i1 t0_0\n11 1\n.names i0 i1 t0_1\n0- 1\n-1 1\n.names t0_0 t0_1 t0_2\n10 1\n01 1\n.names t0_2 t0_3\n0 1\n.names o0 o1 t0_4\n10 1\n01 1\n.names t0_4 t0_5\n1 1\n.names t0_3 t0_6\n1 1\n.end\n";

const OTHER_ELSEWHERE: &[u8] =
    b".inputs i0 i1\n.outputs o0 o1 t0_5 t0_6\n#tsc 2 parity\n#tsc group o0 o1 t0_3\n.names i0 i1 o0\n11 1\n.names i0 i1 o1\n-- 1\n.names i0 i1 t0_0\n11 1\n.names i0 i1 t0_1\n-- 1\n.names t0_0 t0_1 t0_2\n10 1\n01 1\n.names t0_2 t0_3\n0 1\n.names o0 o1 t0_4\n10 1\n01 1\n.names t0_4 t0_5\n1 1\n.names t0_3 t0_6\n1 1\n.end\n";

/// Netlists beside tables: what is free, and under which version.
static VERDICTS: [Audit; 17] = [
    (b"audit pla", TABLE, SAFE_TABLE, 0, b"yes\n"),
    (b"audit pla", TABLE, OTHER_AT_FREE, 0, b"yes\n"),
    (
        b"audit pla",
        TABLE,
        OTHER_AT_FREE_1,
        1,
        b"no output 0 11 1\n",
    ),
    (
        b"audit pla",
        TABLE,
        OTHER_ELSEWHERE,
        1,
        b"no output 0 10 1\n",
    ),
    (b"audit pla", FREE_AT_ONE, FOLLOWING, 0, b"yes\n"),
    (b"audit pla", FREE_AT_ONE, FOLLOWING_BERGER, 0, b"yes\n"),
    (b"audit pla", FREE_AT_ONE, FOLLOWING_MOFN, 0, b"yes\n"),
    (
        b"audit pla",
        FREE_AT_ONE,
        FOLLOWING_1,
        1,
        b"no output 0 1 0\n",
    ),
    // Type f frees nothing, wherever its line stands.
    (
        b"audit pla",
        b".i 1\n.o 1\n1 -\n.type f\n.e\n",
        FOLLOWING,
        1,
        b"no output 0 1 0\n",
    ),
    // `~` and `0` say nothing.
    (
        b"audit pla",
        b".i 1\n.o 1\n1 ~\n.e\n",
        FOLLOWING,
        1,
        b"no output 0 1 0\n",
    ),
    (
        b"audit pla",
        b".i 1\n.o 1\n- 0\n1 -\n1 0\n.e\n",
        FOLLOWING,
        0,
        b"yes\n",
    ),
    // A row that makes an output 1 keeps it from being free, before it and behind it.
    (
        b"audit pla",
        b".i 1\n.o 1\n0 1\n- -\n.e\n",
        FOLLOWING,
        1,
        b"no output 0 0 0\n",
    ),
    (
        b"audit pla",
        b".i 1\n.o 1\n- -\n0 1\n.e\n",
        FOLLOWING,
        1,
        b"no output 0 0 0\n",
    ),
    (
        b"audit pla",
        b".i 1\n.o 1\n- -\n1 1\n.e\n",
        FOLLOWING,
        0,
        b"yes\n",
    ),
    // Where nothing matches an output is 0 and isn't free.
    (
        b"audit pla",
        b".i 1\n.o 1\n.e\n",
        FOLLOWING,
        1,
        b"no output 0 1 0\n",
    ),
    (b"audit pla", TABLE, FOLLOWING, 1, b"no shape inputs\n"),
    (
        b"audit pla",
        b".i 1\n.o 2\n1 --\n.e\n",
        FOLLOWING,
        1,
        b"no shape outputs\n",
    ),
];

/// The words of a synthesis, its source, the table beside which its netlist is judged, the status and the verdict.
type Judged = (
    &'static [u8],
    &'static [u8],
    &'static [u8],
    u8,
    &'static [u8],
);

/// A netlist of another source: one that uses what is free, under each code; in version 1, in which nothing is free; and the other
/// way round, beside a table of type f.
static JUDGED: [Judged; 7] = [
    (b"synth pla parity", FEWER_SEGMENTS, SEGMENTS, 0, b"yes\n"),
    (b"synth pla berger", FEWER_SEGMENTS, SEGMENTS, 0, b"yes\n"),
    (b"synth pla mofn", FEWER_SEGMENTS, SEGMENTS, 0, b"yes\n"),
    (
        b"synth pla berger",
        SEGMENTS,
        FEWER_SEGMENTS,
        1,
        b"no output 0 1010 0\n",
    ),
    (
        b"synth blif parity",
        b".inputs a b\n.outputs y z\n.names a b y\n11 1\n.names a z\n0 1\n.end\n",
        TABLE,
        0,
        b"yes\n",
    ),
    (
        b"synth blif berger",
        b".inputs a b\n.outputs y z\n.names a b y\n11 1\n.names a b z\n10 0\n.end\n",
        TABLE,
        1,
        b"no output 0 11 1\n",
    ),
    (
        b"synth pla mofn",
        b".i 2\n.o 2\n11 11\n0- 01\n.e\n",
        TABLE,
        0,
        b"yes\n",
    ),
];

/// The words of each synthesis of a table.
static WAYS: [&[u8]; 4] = [
    b"synth pla parity",
    b"synth pla duplex",
    b"synth pla berger",
    b"synth pla mofn",
];

/// Whether a netlist is judged so.
fn is_judged(alloc: Global, row: &Judged) -> Result<bool, AllocError> {
    let (words, source, table, status, line) = row;
    let text = Bytes::from_slice(alloc, source)?;
    let made = after_run(alloc, words, text, NO_FAULTS)?;
    let both = joined(alloc, table, made.sink.written())?;
    ends(alloc, b"audit pla", both, *status, line, b"")
}

/// The place of the first netlist that isn't judged so.
fn first_not_judged(alloc: Global) -> Result<Option<usize>, AllocError> {
    for (place, row) in JUDGED.iter().enumerate() {
        if !is_judged(alloc, row)? {
            return Ok(Some(place));
        }
    }
    Ok(None)
}

/// The place of the first synthesis whose netlist of a table the audit doesn't accept.
fn first_not_accepted(alloc: Global, table: &[u8]) -> Result<Option<usize>, AllocError> {
    for (place, words) in WAYS.iter().enumerate() {
        if !is_accepted(alloc, words, b"audit pla", table)? {
            return Ok(Some(place));
        }
    }
    Ok(None)
}

#[test]
fn tables_are_audited(rt: HostRuntime) -> Result<(), Fail> {
    assert_eq!(rt; first_not_audited(rt.alloc(), &VERDICTS)?, None);
    assert_eq!(rt; first_not_judged(rt.alloc())?, None);
    for table in [TABLE, SEGMENTS, FEWER_SEGMENTS, FREE_AT_ONE] {
        assert_eq!(rt; first_not_accepted(rt.alloc(), table)?, None);
    }
    Ok(())
}

/// A text, and the note with which `synth pla berger` refuses it; the status is 3.
type Noted = (&'static [u8], &'static [u8]);

static NOTED: [Noted; 62] = [
    // The type.
    (b".i 1\n.o 1\n.type fr\n.e\n", b"tsc: line 3: unsupported\n"),
    (b".i 1\n.o 1\n.type fdr\n", b"tsc: line 3: unsupported\n"),
    (b".i 1\n.o 1\n.type F\n", b"tsc: line 3: unsupported\n"),
    (b".i 1\n.o 1\n.type\n", b"tsc: line 3: header\n"),
    (b".type f d\n.phase 1\n", b"tsc: line 1: header\n"),
    (
        b".type fd\n.i 1\n.o 1\n.type fd\n",
        b"tsc: line 4: header\n",
    ),
    (b".type f\n.type fr\n", b"tsc: line 2: header\n"),
    // Other directives.
    (b".i 1\n.o 1\n.phase 1\n", b"tsc: line 3: unsupported\n"),
    (
        b".i 1\n.o 1\n.pair 1 (a b)\n",
        b"tsc: line 3: unsupported\n",
    ),
    (b".mv 4 2 3 5\n", b"tsc: line 1: unsupported\n"),
    (b".i 1\n.o 1\n.kiss\n", b"tsc: line 3: unsupported\n"),
    (b".s 2\n", b"tsc: line 1: unsupported\n"),
    (b".r A\n", b"tsc: line 1: unsupported\n"),
    (b".I 1\n", b"tsc: line 1: unsupported\n"),
    (b".i 1\n.o 1\n1 1\n.x\n1\n", b"tsc: line 4: unsupported\n"),
    // Counts.
    (b".i\n", b"tsc: line 1: header\n"),
    (b".i 0\n", b"tsc: line 1: header\n"),
    (b".i 1 2\n", b"tsc: line 1: header\n"),
    (b".i x\n", b"tsc: line 1: header\n"),
    (b".o -1\n", b"tsc: line 1: header\n"),
    (b".i 1\n.i 1\n", b"tsc: line 2: header\n"),
    (b".i 1\n.o 1\n.o 2\n", b"tsc: line 3: header\n"),
    (b".p\n", b"tsc: line 1: header\n"),
    (b".p x\n", b"tsc: line 1: header\n"),
    (b".p 1\n.p 1\n", b"tsc: line 2: header\n"),
    // No `.i` or no `.o`, told at the last line that is no plan line.
    (b"", b"tsc: line 1: header\n"),
    (b"\n.e\n", b"tsc: line 1: header\n"),
    (b"# none\n\n#tsc 2 berger\n.e\n", b"tsc: line 1: header\n"),
    (b"\n.o 1\n.e\n", b"tsc: line 2: header\n"),
    (b".i 1\n.ilb a b\n.p 1\n", b"tsc: line 3: header\n"),
    (
        b".i 1\n\n.ob \\\n y\n#tsc 2 berger\n#tsc check p\n.e\n",
        b"tsc: line 3: header\n",
    ),
    // Rows before the counts.
    (b".i 1\n0 0\n.o 1\n", b"tsc: line 2: header\n"),
    (b".o 1\n0 0\n.i 1\n", b"tsc: line 2: header\n"),
    (b"x\n.y\n", b"tsc: line 1: header\n"),
    // Names that don't fit.
    (b".i 1\n.o 1\n.ilb a b\n1 1\n.e\n", b"tsc: line 3: header\n"),
    (b".ilb\n.i 1\n.o 1\n", b"tsc: line 1: header\n"),
    (b".i 1\n.ob y z\n.o 1\n", b"tsc: line 2: header\n"),
    (b".ob y y\n.i 1\n.o 2\n", b"tsc: line 1: header\n"),
    (b".i 1\n.o 1\n.ob a\n.ilb a\n", b"tsc: line 4: header\n"),
    (b".ilb a\n.i 1\n.o 1\n.ob b c\n", b"tsc: line 4: header\n"),
    (b".i 1\n.o 1\n.ilb o0\n", b"tsc: line 3: header\n"),
    (b".i 1\n.o 1\n.ob y\n.ob y\n", b"tsc: line 4: header\n"),
    // Rows.
    (b".i 1\n.o 1\n11\n", b"tsc: line 3: row shape\n"),
    (b".i 1\n.o 1\n1|1\n", b"tsc: line 3: row shape\n"),
    (b".i 1\n.o 1\n1 | 1\n", b"tsc: line 3: row shape\n"),
    (b".i 1\n.o 1\n1 1 1\n", b"tsc: line 3: row shape\n"),
    (b".i 2\n.o 1\n1 1 1\n", b"tsc: line 3: row shape\n"),
    (b".i 1\n.o 1\n11 1\n", b"tsc: line 3: row shape\n"),
    (b".i 1\n.o 1\n1 11\n", b"tsc: line 3: row shape\n"),
    (b".i 1\n.o 1\n1 1\n1\n", b"tsc: line 4: row shape\n"),
    (b".i 1\n.o 1\n2 1\n", b"tsc: line 3: row shape\n"),
    (b".i 1\n.o 1\n~ 1\n", b"tsc: line 3: row shape\n"),
    (b".i 1\n.o 1\n1 2\n", b"tsc: line 3: row shape\n"),
    (b".i 1\n.o 1\n1 4\n.x\n", b"tsc: line 3: row shape\n"),
    (b".i 1\n.o 1\n1,1\n", b"tsc: line 3: row shape\n"),
    // Lines behind the end, which are told where the table isn't refused.
    (
        b".i 1\n.o 1\n1 1\n.e\n\n1 1\n",
        b"tsc: line 6: after the end\n",
    ),
    (
        b".i 1\n.o 1\n.end\n#tsc 2 berger\n",
        b"tsc: line 4: after the end\n",
    ),
    (b".i 1\n.e\n1 1\n", b"tsc: line 1: header\n"),
    (b".i 1\n.o 1\n1\n.e\nx\n", b"tsc: line 3: row shape\n"),
    // Other texts.
    (b".i 1\n.o 1\n.type fr\n\x00\n", b"tsc: line 4: byte\n"),
    (AND2, b"tsc: line 1: unsupported\n"),
    (TWO_STATES, b"tsc: line 3: row shape\n"),
];

/// Tables that other words read, and audits that come to no verdict.
static REFUSED: [Refused; 10] = [
    (
        b"synth kiss berger",
        TABLE,
        b"",
        3,
        b"tsc: line 3: unsupported\n",
    ),
    (
        b"synth blif berger",
        TABLE,
        b"",
        3,
        b"tsc: line 1: unsupported\n",
    ),
    (b"audit pla", TABLE, b"", 3, b"tsc: no netlist\n"),
    (b"audit pla", TABLE, AND2, 3, b"tsc: no plan\n"),
    (
        b"audit pla",
        b".i 1\n.o 1\n1 2\n.e\n",
        b"",
        3,
        b"tsc: line 3: row shape\n",
    ),
    (
        b"audit pla",
        b".i 1\n.o 1\n1 -\n",
        FOLLOWING,
        3,
        b"tsc: line 4: unsupported\n",
    ),
    (
        b"audit pla",
        b".i 1\n.e\n",
        FOLLOWING,
        3,
        b"tsc: line 1: header\n",
    ),
    (
        b"audit pla",
        FOLLOWING,
        FREE_AT_ONE,
        3,
        b"tsc: line 1: unsupported\n",
    ),
    (
        b"audit pla",
        FREE_AT_ONE,
        b".inputs i0\n.outputs y r1 r2\n#tsc 2 parity\n#tsc group y p\n.names i0 y\n1 1\n.names i0 p\n0 1\n.names y r1\n1 1\n.names p r2\n1 1\n.end\n.e\n",
        3,
        b"tsc: line 18: after the end\n",
    ),
    (
        b"audit pla",
        b".i 21\n.o 1\n.e\n",
        b".inputs i0 i1 i2 i3 i4 i5 i6 i7 i8 i9 i10 i11 i12 i13 i14 i15 i16 i17 i18 i19 i20\n.outputs y r1 r2\n#tsc 2 parity\n#tsc group y p\n.names y\n.names p\n1\n.names y r1\n1 1\n.names p r2\n1 1\n.end\n",
        4,
        b"tsc: limit: 1048576 points\n",
    ),
];

/// The place of the first text that isn't refused so.
fn first_not_noted(alloc: Global) -> Result<Option<usize>, AllocError> {
    for (place, (text, note)) in NOTED.iter().enumerate() {
        let text = Bytes::from_slice(alloc, text)?;
        if !ends(alloc, b"synth pla berger", text, 3, b"", note)? {
            return Ok(Some(place));
        }
    }
    Ok(None)
}

#[test]
fn tables_are_refused(rt: HostRuntime) -> Result<(), Fail> {
    assert_eq!(rt; first_not_noted(rt.alloc())?, None);
    assert_eq!(rt; first_not_refused(rt.alloc(), &REFUSED)?, None);
    Ok(())
}

/// Each limit, and the number before it. A row counts in the bound on covers once for each output that it makes 1: of a table of 3
/// inputs and an output one row more raises it above 1,048,576 from 1,048,556, of 5 inputs under parity from 1,048,548, and of 64
/// outputs from 1,047,636.
static LIMITS: [Made; 20] = [
    (b"synth pla berger", b".i 64\n.o 64\n", b"", 0, 0, b""),
    (
        b"synth pla berger",
        b".i 65\n.o 65\n",
        b"",
        0,
        4,
        b"tsc: line 1: limit: 64 inputs\n",
    ),
    (
        b"synth pla berger",
        b".o 65\n.i 65\n",
        b"",
        0,
        4,
        b"tsc: line 1: limit: 64 outputs\n",
    ),
    (
        b"synth pla berger",
        b".i 1\n.o 1\n",
        b"1 -\n",
        16_384,
        0,
        b"",
    ),
    (
        b"synth pla berger",
        b".i 1\n.o 1\n",
        b"1 -\n",
        16_385,
        4,
        b"tsc: line 16387: limit: 16384 rows\n",
    ),
    (b"synth pla berger", b".i 1\n.o 1\n.ilb ", b"m", 255, 0, b""),
    (
        b"synth pla berger",
        b".i 1\n.o 1\n.ilb ",
        b"m",
        256,
        4,
        b"tsc: line 3: limit: 255 name bytes\n",
    ),
    (
        b"synth pla berger",
        b".ob ",
        b"m",
        255,
        3,
        b"tsc: line 1: header\n",
    ),
    (
        b"synth pla berger",
        b".ob ",
        b"m",
        256,
        4,
        b"tsc: line 1: limit: 255 name bytes\n",
    ),
    (
        b"synth pla berger",
        b".i 3\n.o 1\n",
        b"111 1\n",
        16_379,
        0,
        b"",
    ),
    (
        b"synth pla berger",
        b".i 3\n.o 1\n",
        b"111 1\n",
        16_380,
        4,
        b"tsc: limit: 1048576 covers\n",
    ),
    (
        b"synth pla mofn",
        b".i 3\n.o 1\n",
        b"111 1\n",
        16_379,
        0,
        b"",
    ),
    (
        b"synth pla mofn",
        b".i 3\n.o 1\n",
        b"111 1\n",
        16_380,
        4,
        b"tsc: limit: 1048576 covers\n",
    ),
    (
        b"synth pla parity",
        b".i 5\n.o 1\n",
        b"11111 1\n",
        14_559,
        0,
        b"",
    ),
    (
        b"synth pla parity",
        b".i 5\n.o 1\n",
        b"11111 1\n",
        14_560,
        4,
        b"tsc: limit: 1048576 covers\n",
    ),
    (
        b"synth pla berger",
        b".i 1\n.o 64\n",
        b"1 1111111111111111111111111111111111111111111111111111111111111111\n",
        379,
        0,
        b"",
    ),
    (
        b"synth pla berger",
        b".i 1\n.o 64\n",
        b"1 1111111111111111111111111111111111111111111111111111111111111111\n",
        380,
        4,
        b"tsc: limit: 1048576 covers\n",
    ),
    // Outputs that are left free count for nothing.
    (
        b"synth pla berger",
        b".i 1\n.o 64\n",
        b"1 ----------------------------------------------------------------\n",
        380,
        0,
        b"",
    ),
    // The largest table: each row has 64 literals and makes 64 outputs 1.
    (
        b"synth pla parity",
        b".i 64\n.o 64\n",
        b"0101010101010101010101010101010101010101010101010101010101010101 1111111111111111111111111111111111111111111111111111111111111111\n",
        16_384,
        4,
        b"tsc: limit: 1048576 covers\n",
    ),
    (
        b"synth pla parity",
        b".i 64\n.o 64\n",
        b"0101010101010101010101010101010101010101010101010101010101010101 1111111111111111111111111111111111111111111111111111111111111111\n",
        16_385,
        4,
        b"tsc: line 16387: limit: 16384 rows\n",
    ),
];

#[test]
fn tables_keep_their_limits(rt: HostRuntime) -> Result<(), Fail> {
    assert_eq!(rt; first_not_made(rt.alloc(), &LIMITS)?, None);
    Ok(())
}
