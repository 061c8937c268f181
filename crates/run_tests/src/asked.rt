//! Exact questions: their texts, as a script of flows/ writes them, and where there is none.

use crate::audits::{Audit, first_not_audited};
use crate::runs::{Refused, first_not_refused};
use crate::texts::{AND2, SAFE_WIRE, WIRE};
use std::test::Fail;

/// The questions, and each no.
static QUESTIONS: [Audit; 8] = [
    // A wire.
    (
        b"ask exact",
        WIRE,
        SAFE_WIRE,
        0,
        b"c input 1 a\nc net 2 t0_0\nc net 3 t0_1\nc net 4 t0_2\nc cell 5 t0_0\nc wrong 7 t0_0\nc cell 9 t0_1\nc wrong 11 t0_1\nc cell 14 t0_2\nc wrong 16 t0_2\np cnf 23 62\n2 1 0\n-2 -1 0\n3 -1 0\n-3 1 0\n4 -2 0\n-4 2 0\n-7 6 5 0\n-7 -6 -5 0\n7 -6 5 0\n7 6 -5 0\n6 1 0\n-6 -1 0\n-8 2 7 0\n-8 -2 -7 0\n8 -2 7 0\n8 2 -7 0\n-8 5 0\n-11 10 9 0\n-11 -10 -9 0\n11 -10 9 0\n11 10 -9 0\n10 -1 0\n-10 1 0\n-12 3 11 0\n-12 -3 -11 0\n12 -3 11 0\n12 3 -11 0\n-12 9 0\n-5 13 0\n-9 13 0\n-9 -5 0\n-16 15 14 0\n-16 -15 -14 0\n16 -15 14 0\n16 15 -14 0\n15 -7 0\n-15 7 0\n-17 4 16 0\n-17 -4 -16 0\n17 -4 16 0\n17 4 -16 0\n-17 14 8 0\n-13 18 0\n-14 18 0\n-14 -13 0\n-19 1 0\n-19 -1 0\n-20 1 2 0\n-20 -1 -2 0\n20 -1 2 0\n20 1 -2 0\n-21 3 4 0\n-21 -3 -4 0\n21 -3 4 0\n21 3 -4 0\n-22 11 16 0\n-22 -11 -16 0\n22 -11 16 0\n22 11 -16 0\n-23 22 0\n-23 0\n19 -20 -21 23 0\n",
    ),
    // A pin that stands twice, a row that asks a net for both bits and one that asks for nothing, rows of an off-set, and a constant.
    (
        b"ask exact",
        b".inputs a b\n.outputs y z\n.names a a b y\n1-1 1\n10- 1\n--0 1\n.names z\n.end\n",
        b".model two\n.inputs a b\n.outputs y z r1 r2\n#tsc 1 parity\n#tsc group y z p\n.names b a y\n10 0\n.names z\n.names a b p\n1- 1\n-- 1\n.names y z r1\n10 1\n01 1\n.names p r2\n1 1\n.end\n",
        0,
        b"c input 1 a\nc input 2 b\nc net 3 y\nc net 5 z\nc net 6 y\nc net 8 z\nc net 9 p\nc net 10 r1\nc net 13 r2\nc cell 14 y\nc wrong 16 y\nc cell 19 z\nc wrong 21 z\nc cell 24 p\nc wrong 26 p\nc cell 29 r1\nc wrong 31 r1\nc cell 36 r2\nc wrong 38 r2\np cnf 47 127\n-4 1 0\n-4 2 0\n4 -1 -2 0\n3 -4 0\n3 2 0\n-3 4 -2 0\n-5 0\n-7 2 0\n-7 -1 0\n7 -2 1 0\n-6 -7 0\n6 7 0\n-8 0\n9 0\n-11 6 0\n-11 -8 0\n11 -6 8 0\n-12 -6 0\n-12 8 0\n12 6 -8 0\n10 -11 0\n10 -12 0\n-10 11 12 0\n13 -9 0\n-13 9 0\n-16 15 14 0\n-16 -15 -14 0\n16 -15 14 0\n16 15 -14 0\n-17 2 0\n-17 -1 0\n17 -2 1 0\n-15 -17 0\n15 17 0\n-18 6 16 0\n-18 -6 -16 0\n18 -6 16 0\n18 6 -16 0\n-18 14 0\n-21 20 19 0\n-21 -20 -19 0\n21 -20 19 0\n21 20 -19 0\n-20 0\n-22 8 21 0\n-22 -8 -21 0\n22 -8 21 0\n22 8 -21 0\n-22 19 0\n-14 23 0\n-19 23 0\n-19 -14 0\n-26 25 24 0\n-26 -25 -24 0\n26 -25 24 0\n26 25 -24 0\n25 0\n-27 9 26 0\n-27 -9 -26 0\n27 -9 26 0\n27 9 -26 0\n-27 24 0\n-23 28 0\n-24 28 0\n-24 -23 0\n-31 30 29 0\n-31 -30 -29 0\n31 -30 29 0\n31 30 -29 0\n-32 16 0\n-32 -21 0\n32 -16 21 0\n-33 -16 0\n-33 21 0\n33 16 -21 0\n30 -32 0\n30 -33 0\n-30 32 33 0\n-34 10 31 0\n-34 -10 -31 0\n34 -10 31 0\n34 10 -31 0\n-34 29 18 22 0\n-28 35 0\n-29 35 0\n-29 -28 0\n-38 37 36 0\n-38 -37 -36 0\n38 -37 36 0\n38 37 -36 0\n37 -26 0\n-37 26 0\n-39 13 38 0\n-39 -13 -38 0\n39 -13 38 0\n39 13 -38 0\n-39 36 27 0\n-35 40 0\n-36 40 0\n-36 -35 0\n-41 3 6 0\n-41 -3 -6 0\n41 -3 6 0\n41 3 -6 0\n-42 5 8 0\n-42 -5 -8 0\n42 -5 8 0\n42 5 -8 0\n-43 6 8 0\n-43 -6 -8 0\n43 -6 8 0\n43 6 -8 0\n-44 43 9 0\n-44 -43 -9 0\n44 -43 9 0\n44 43 -9 0\n-45 10 13 0\n-45 -10 -13 0\n45 -10 13 0\n45 10 -13 0\n-46 31 38 0\n-46 -31 -38 0\n46 -31 38 0\n46 31 -38 0\n-47 46 0\n-47 18 22 0\n41 42 -44 -45 47 0\n",
    ),
    // Twenty-one inputs: there is no limit of points.
    (
        b"ask exact",
        b".inputs i0 i1 i2 i3 i4 i5 i6 i7 i8 i9 i10 i11 i12 i13 i14 i15 i16 i17 i18 i19 i20\n.outputs i0\n.end\n",
        b".inputs i0 i1 i2 i3 i4 i5 i6 i7 i8 i9 i10 i11 i12 i13 i14 i15 i16 i17 i18 i19 i20\n.outputs i0 r1 r2\n#tsc 1 parity\n#tsc group i0 p\n.names i0 p\n0 1\n.names i0 r1\n1 1\n.names p r2\n1 1\n.end\n",
        0,
        b"c input 1 i0\nc input 2 i1\nc input 3 i2\nc input 4 i3\nc input 5 i4\nc input 6 i5\nc input 7 i6\nc input 8 i7\nc input 9 i8\nc input 10 i9\nc input 11 i10\nc input 12 i11\nc input 13 i12\nc input 14 i13\nc input 15 i14\nc input 16 i15\nc input 17 i16\nc input 18 i17\nc input 19 i18\nc input 20 i19\nc input 21 i20\nc net 22 p\nc net 23 r1\nc net 24 r2\nc cell 25 p\nc wrong 27 p\nc cell 29 r1\nc wrong 31 r1\nc cell 34 r2\nc wrong 36 r2\np cnf 43 62\n22 1 0\n-22 -1 0\n23 -1 0\n-23 1 0\n24 -22 0\n-24 22 0\n-27 26 25 0\n-27 -26 -25 0\n27 -26 25 0\n27 26 -25 0\n26 1 0\n-26 -1 0\n-28 22 27 0\n-28 -22 -27 0\n28 -22 27 0\n28 22 -27 0\n-28 25 0\n-31 30 29 0\n-31 -30 -29 0\n31 -30 29 0\n31 30 -29 0\n30 -1 0\n-30 1 0\n-32 23 31 0\n-32 -23 -31 0\n32 -23 31 0\n32 23 -31 0\n-32 29 0\n-25 33 0\n-29 33 0\n-29 -25 0\n-36 35 34 0\n-36 -35 -34 0\n36 -35 34 0\n36 35 -34 0\n35 -27 0\n-35 27 0\n-37 24 36 0\n-37 -24 -36 0\n37 -24 36 0\n37 24 -36 0\n-37 34 28 0\n-33 38 0\n-34 38 0\n-34 -33 0\n-39 1 0\n-39 -1 0\n-40 1 22 0\n-40 -1 -22 0\n40 -1 22 0\n40 1 -22 0\n-41 23 24 0\n-41 -23 -24 0\n41 -23 24 0\n41 23 -24 0\n-42 31 36 0\n-42 -31 -36 0\n42 -31 36 0\n42 31 -36 0\n-43 42 0\n-43 0\n39 -40 -41 43 0\n",
    ),
    // An input more, an output more than the netlist has.
    (
        b"ask exact",
        b".inputs a b\n.outputs a\n.end\n",
        SAFE_WIRE,
        1,
        b"no shape inputs\n",
    ),
    (
        b"ask exact",
        b".inputs a\n.outputs a b\n.names b\n.end\n",
        SAFE_WIRE,
        1,
        b"no shape outputs\n",
    ),
    // Two listed states.
    (
        b"ask exact",
        WIRE,
        b".model m\n.inputs a\n.outputs a r1 r2\n#tsc 1 berger\n#tsc check p\n#tsc state 01\n#tsc state 10\n.latch l l 0\n.latch k k 1\n.names a p\n0 1\n.names a r1\n1 1\n.names p r2\n1 1\n.end\n",
        1,
        b"no shape states\n",
    ),
    // One listed state, as many as a network has: there are latches.
    (
        b"ask exact",
        WIRE,
        b".model m\n.inputs a\n.outputs a r1 r2\n#tsc 1 berger\n#tsc check p\n#tsc state 01\n.latch l l 0\n.latch k k 1\n.names a p\n0 1\n.names a r1\n1 1\n.names p r2\n1 1\n.end\n",
        1,
        b"no latched\n",
    ),
    // Another code.
    (
        b"ask exact",
        b".inputs a\n.outputs y\n.names y\n1\n.end\n",
        b".model model\n.inputs a\n.outputs y t0_1 t0_2\n#tsc 1 berger\n#tsc check t0_0\n.names y\n1\n.names t0_0\n.names y t0_3\n0 1\n.names t0_3 t0_4\n0 1\n.names t0_4 t0_1\n1 1\n.names t0_0 t0_2\n1 1\n.end\n",
        1,
        b"no parity\n",
    ),
];

const USAGE: &[u8] = b"tsc: usage: tsc synth|ask|audit|faults|vectors|grade|sim|make|join|help\n";

/// Words without a meaning, and texts that are refused as an audit refuses them.
static REFUSED: [Refused; 6] = [
    (b"ask", b"", b"", 2, USAGE),
    (b"ask exact blif", b"", b"", 2, USAGE),
    (b"ask wide", b"", b"", 2, USAGE),
    (b"ask exact", AND2, b"", 3, b"tsc: no netlist\n"),
    (
        b"ask exact",
        b".inputs a\n.outputs q\n.latch a q 0\n.end\n",
        SAFE_WIRE,
        3,
        b"tsc: line 3: latch in a source\n",
    ),
    (
        b"ask exact",
        AND2,
        b".inputs a b\n.outputs y r1 r2\n.names a b y\n11 1\n.names y r1\n1 1\n.names y r2\n0 1\n.end\n",
        3,
        b"tsc: no plan\n",
    ),
];

#[test]
fn questions_are_asked(rt: HostRuntime) -> Result<(), Fail> {
    assert_eq!(rt; first_not_audited(rt.alloc(), &QUESTIONS)?, None);
    Ok(())
}

#[test]
fn questions_are_refused(rt: HostRuntime) -> Result<(), Fail> {
    assert_eq!(rt; first_not_refused(rt.alloc(), &REFUSED)?, None);
    Ok(())
}
