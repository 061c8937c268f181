//! Audits: the verdict on a netlist, as it is worked out by hand, and what is refused.

use crate::runs::{Refused, ends, first_not_refused, joined};
use crate::texts::{TOGGLE, TWO_STATES};
use std::alloc::{AllocError, Global};
use std::test::Fail;

/// An output that is its first input.
const Y: &[u8] = b".inputs a b\n.outputs y\n.names a y\n1 1\n.end\n";

/// A netlist of it with a redundant gate.
const Q: &[u8] =
    b".model red\n.inputs a b\n.outputs y r1 r2\n#tsc 1 parity\n#tsc group y p\n.names a b n\n11 1\n.names a n y\n1- 1\n-1 1\n.names a p\n0 1\n.names y r1\n1 1\n.names p r2\n1 1\n.end\n";

/// An output that is 0.
const ZERO: &[u8] = b".model model\n.outputs y\n.names y\n.end\n";

/// The words, the source, the netlist after it, the status, and the line of the verdict.
pub type Audit = (
    &'static [u8],
    &'static [u8],
    &'static [u8],
    u8,
    &'static [u8],
);

/// Networks: a change of the source or of the netlist for each reason.
static VERDICTS: [Audit; 12] = [
    // Q.
    (b"audit blif", Y, Q, 0, b"yes\n"),
    // A constant, which the output reads.
    (
        b"audit blif",
        ZERO,
        b".model model\n.inputs\n.outputs y t0_1 t0_2\n#tsc 1 berger\n#tsc check t0_0\n.names a\n.names a y\n1 1\n.names t0_0\n1\n.names y t0_3\n0 1\n.names t0_3 t0_4\n0 1\n.names t0_4 t0_1\n1 1\n.names t0_0 t0_2\n1 1\n.end\n",
        0,
        b"yes\n",
    ),
    // A third input of the source.
    (
        b"audit blif",
        b".inputs a b c\n.outputs y\n.names a y\n1 1\n.end\n",
        Q,
        1,
        b"no shape inputs\n",
    ),
    // A second output of the source.
    (
        b"audit blif",
        b".inputs a b\n.outputs y b\n.names a y\n1 1\n.end\n",
        Q,
        1,
        b"no shape outputs\n",
    ),
    // A check for a rail.
    (
        b"audit blif",
        Y,
        b".model red\n.inputs a b\n.outputs y p r2\n#tsc 1 parity\n#tsc group y p\n.names a b n\n11 1\n.names a n y\n1- 1\n-1 1\n.names a p\n0 1\n.names y r1\n1 1\n.names p r2\n1 1\n.end\n",
        1,
        b"no rails p\n",
    ),
    // A rail that reads an inner node.
    (
        b"audit blif",
        Y,
        b".model red\n.inputs a b\n.outputs y r1 r2\n#tsc 1 parity\n#tsc group y p\n.names a b n\n11 1\n.names a n y\n1- 1\n-1 1\n.names a p\n0 1\n.names n r1\n1 1\n.names p r2\n1 1\n.end\n",
        1,
        b"no reads r1 0\n",
    ),
    // A check that negates an output.
    (
        b"audit blif",
        Y,
        b".model red\n.inputs a b\n.outputs y r1 r2\n#tsc 1 berger\n#tsc check p\n.names a b n\n11 1\n.names a n y\n1- 1\n-1 1\n.names y p\n0 1\n.names y r1\n1 1\n.names p r2\n1 1\n.end\n",
        1,
        b"no sign p 0\n",
    ),
    // Latches under parity.
    (
        b"audit blif",
        Y,
        b".model red\n.inputs a b\n.outputs y r1 r2\n#tsc 1 parity\n#tsc group y p\n#tsc state 01\n.latch a s 0\n.latch b u 1\n.names a b n\n11 1\n.names a n y\n1- 1\n-1 1\n.names a p\n0 1\n.names y r1\n1 1\n.names p r2\n1 1\n.end\n",
        1,
        b"no latched\n",
    ),
    // A check over the output itself.
    (
        b"audit blif",
        Y,
        b".model red\n.inputs a b\n.outputs y r1 r2\n#tsc 1 parity\n#tsc group y p\n.names a b n\n11 1\n.names a n y\n1- 1\n-1 1\n.names y p\n0 1\n.names y r1\n1 1\n.names p r2\n1 1\n.end\n",
        1,
        b"no shares 0 y p n\n",
    ),
    // A check that is not negated.
    (
        b"audit blif",
        Y,
        b".model red\n.inputs a b\n.outputs y r1 r2\n#tsc 1 parity\n#tsc group y p\n.names a b n\n11 1\n.names a n y\n1- 1\n-1 1\n.names a p\n1 1\n.names y r1\n1 1\n.names p r2\n1 1\n.end\n",
        1,
        b"no word 0 00\n",
    ),
    // A source of the other answers.
    (
        b"audit blif",
        b".inputs a b\n.outputs y\n.names a y\n0 1\n.end\n",
        Q,
        1,
        b"no output 0 00 0\n",
    ),
    // Both rails read the output.
    (
        b"audit blif",
        Y,
        b".model red\n.inputs a b\n.outputs y r1 r2\n#tsc 1 parity\n#tsc group y p\n.names a b n\n11 1\n.names a n y\n1- 1\n-1 1\n.names a p\n0 1\n.names y r1\n1 1\n.names y r2\n1 1\n.end\n",
        1,
        b"no checker 01\n",
    ),
];

/// Machines.
static MACHINES: [Audit; 4] = [
    // The machine of two states.
    (b"audit kiss", TWO_STATES, TOGGLE, 0, b"yes\n"),
    // A third state of the source.
    (
        b"audit kiss",
        b".i 1\n.o 1\n0 A A 0\n1 A B 1\n0 B B 0\n1 B C 1\n- C A 0\n.e\n",
        TOGGLE,
        1,
        b"no shape states\n",
    ),
    // Its state lines exchanged.
    (
        b"audit kiss",
        TWO_STATES,
        b".model machine\n.inputs i0\n.outputs o0 t0_5 t0_6\n#tsc 2 mofn\n#tsc check t0_4\n#tsc state 10\n#tsc state 01\n.latch t0_2 t0_0 0\n.latch t0_3 t0_1 1\n.names i0 t0_7\n0 1\n.names t0_1 i0 t0_8\n11 1\n.names t0_0 i0 t0_9\n11 1\n.names t0_1 t0_7 t0_10\n11 1\n.names t0_0 t0_7 t0_11\n11 1\n.names t0_8 t0_9 o0\n1- 1\n-1 1\n.names t0_8 t0_11 t0_2\n1- 1\n-1 1\n.names t0_10 t0_9 t0_3\n1- 1\n-1 1\n.names t0_10 t0_11 t0_4\n1- 1\n-1 1\n.names o0 t0_2 t0_12\n11 1\n.names t0_4 t0_3 t0_13\n11 1\n.names t0_12 t0_13 t0_14\n1- 1\n-1 1\n.names t0_14 t0_5\n1 1\n.names o0 t0_3 t0_15\n11 1\n.names t0_4 t0_2 t0_16\n11 1\n.names t0_15 t0_16 t0_17\n1- 1\n-1 1\n.names t0_17 t0_6\n1 1\n.end\n",
        1,
        b"no reset\n",
    ),
    // Another next state of the source.
    (
        b"audit kiss",
        b".i 1\n.o 1\n0 A A 0\n1 A A 1\n0 B B 0\n1 B A 1\n.e\n",
        TOGGLE,
        1,
        b"no next 0 1\n",
    ),
];

/// Netlists from elsewhere, whose checker is another one than is written here.
static ELSEWHERE: [Audit; 6] = [
    // Both rails negate.
    (
        b"audit blif",
        Y,
        b".model red\n.inputs a b\n.outputs y r1 r2\n#tsc 1 parity\n#tsc group y p\n.names a b n\n11 1\n.names a n y\n1- 1\n-1 1\n.names a p\n0 1\n.names y r1\n0 1\n.names p r2\n0 1\n.end\n",
        0,
        b"yes\n",
    ),
    // One rail is a constant.
    (
        b"audit blif",
        Y,
        b".model red\n.inputs a b\n.outputs y r1 r2\n#tsc 1 parity\n#tsc group y p\n.names a b n\n11 1\n.names a n y\n1- 1\n-1 1\n.names a p\n0 1\n.names y p r1\n10 1\n01 1\n.names r2\n.end\n",
        0,
        b"yes\n",
    ),
    // A node that nothing reads.
    (
        b"audit blif",
        Y,
        b".model red\n.inputs a b\n.outputs y r1 r2\n#tsc 1 parity\n#tsc group y p\n.names a b n\n11 1\n.names a n y\n1- 1\n-1 1\n.names a p\n0 1\n.names y r1\n1 1\n.names p r2\n1 1\n.names a b d\n11 1\n.end\n",
        0,
        b"yes\n",
    ),
    // A group whose check is its output.
    (
        b"audit blif",
        Y,
        b".model red\n.inputs a b\n.outputs y r1 r2\n#tsc 1 parity\n#tsc group y y\n.names a b n\n11 1\n.names a n y\n1- 1\n-1 1\n.names a p\n0 1\n.names y r1\n1 1\n.names p r2\n1 1\n.end\n",
        1,
        b"no reads p 0\n",
    ),
    // A group whose check is a rail.
    (
        b"audit blif",
        Y,
        b".model red\n.inputs a b\n.outputs y r1 r2\n#tsc 1 parity\n#tsc group y r1\n.names a b n\n11 1\n.names a n y\n1- 1\n-1 1\n.names a p\n0 1\n.names y r1\n1 1\n.names p r2\n1 1\n.end\n",
        1,
        b"no rails r1\n",
    ),
    // An output as a gate of the checker.
    (
        b"audit blif",
        b".inputs a\n.outputs a q\n.names a q\n0 1\n.end\n",
        b".inputs a\n.outputs a q r1 r2\n#tsc 1 berger\n#tsc check c d\n.names a q\n0 1\n.names c\n.names d\n1\n.names q g\n0 1\n.names q g h\n11 1\n.names h i\n0 1\n.names q g j\n10 1\n01 1\n.names j l\n0 1\n.names i l u\n11 1\n.names c d v\n11 1\n.names u v w\n1- 1\n-1 1\n.names w r1\n1 1\n.names i d x\n11 1\n.names c l y\n11 1\n.names x y z\n1- 1\n-1 1\n.names z r2\n1 1\n.end\n",
        1,
        b"no checker 0001\n",
    ),
];

/// Twenty outputs.
const TWENTY: &[u8] =
    b".inputs a\n.outputs y0 y1 y2 y3 y4 y5 y6 y7 y8 y9 y10 y11 y12 y13 y14 y15 y16 y17 y18 y19\n.names a y0\n1 1\n.names a y1\n1 1\n.names a y2\n1 1\n.names a y3\n1 1\n.names a y4\n1 1\n.names a y5\n1 1\n.names a y6\n1 1\n.names a y7\n1 1\n.names a y8\n1 1\n.names a y9\n1 1\n.names a y10\n1 1\n.names a y11\n1 1\n.names a y12\n1 1\n.names a y13\n1 1\n.names a y14\n1 1\n.names a y15\n1 1\n.names a y16\n1 1\n.names a y17\n1 1\n.names a y18\n1 1\n.names a y19\n1 1\n.end\n";

/// A netlist of them with a constant check: 21 monitored nets, so that the checker is matched gate by gate.
const MATCHED: &[u8] =
    b".inputs a\n.outputs y0 y1 y2 y3 y4 y5 y6 y7 y8 y9 y10 y11 y12 y13 y14 y15 y16 y17 y18 y19 r1 r2\n#tsc 1 parity\n#tsc group y0 y1 y2 y3 y4 y5 y6 y7 y8 y9 y10 y11 y12 y13 y14 y15 y16 y17 y18 y19 p\n.names a y0\n1 1\n.names a y1\n1 1\n.names a y2\n1 1\n.names a y3\n1 1\n.names a y4\n1 1\n.names a y5\n1 1\n.names a y6\n1 1\n.names a y7\n1 1\n.names a y8\n1 1\n.names a y9\n1 1\n.names a y10\n1 1\n.names a y11\n1 1\n.names a y12\n1 1\n.names a y13\n1 1\n.names a y14\n1 1\n.names a y15\n1 1\n.names a y16\n1 1\n.names a y17\n1 1\n.names a y18\n1 1\n.names a y19\n1 1\n.names p\n1\n.names y0 y1 c1\n10 1\n01 1\n.names c1 y2 c2\n10 1\n01 1\n.names c2 y3 c3\n10 1\n01 1\n.names c3 y4 c4\n10 1\n01 1\n.names c4 y5 c5\n10 1\n01 1\n.names c5 y6 c6\n10 1\n01 1\n.names c6 y7 c7\n10 1\n01 1\n.names c7 y8 c8\n10 1\n01 1\n.names c8 y9 c9\n10 1\n01 1\n.names c9 y10 c10\n10 1\n01 1\n.names c10 y11 c11\n10 1\n01 1\n.names c11 y12 c12\n10 1\n01 1\n.names c12 y13 c13\n10 1\n01 1\n.names c13 y14 c14\n10 1\n01 1\n.names c14 y15 c15\n10 1\n01 1\n.names c15 y16 c16\n10 1\n01 1\n.names c16 y17 c17\n10 1\n01 1\n.names c17 y18 c18\n10 1\n01 1\n.names c18 y19 c19\n10 1\n01 1\n.names c19 r1\n1 1\n.names p r2\n1 1\n.end\n";

/// The same where a gate of the checker has its two rows in another order.
const TURNED_ROWS: &[u8] =
    b".inputs a\n.outputs y0 y1 y2 y3 y4 y5 y6 y7 y8 y9 y10 y11 y12 y13 y14 y15 y16 y17 y18 y19 r1 r2\n#tsc 1 parity\n#tsc group y0 y1 y2 y3 y4 y5 y6 y7 y8 y9 y10 y11 y12 y13 y14 y15 y16 y17 y18 y19 p\n.names a y0\n1 1\n.names a y1\n1 1\n.names a y2\n1 1\n.names a y3\n1 1\n.names a y4\n1 1\n.names a y5\n1 1\n.names a y6\n1 1\n.names a y7\n1 1\n.names a y8\n1 1\n.names a y9\n1 1\n.names a y10\n1 1\n.names a y11\n1 1\n.names a y12\n1 1\n.names a y13\n1 1\n.names a y14\n1 1\n.names a y15\n1 1\n.names a y16\n1 1\n.names a y17\n1 1\n.names a y18\n1 1\n.names a y19\n1 1\n.names p\n1\n.names y0 y1 c1\n01 1\n10 1\n.names c1 y2 c2\n10 1\n01 1\n.names c2 y3 c3\n10 1\n01 1\n.names c3 y4 c4\n10 1\n01 1\n.names c4 y5 c5\n10 1\n01 1\n.names c5 y6 c6\n10 1\n01 1\n.names c6 y7 c7\n10 1\n01 1\n.names c7 y8 c8\n10 1\n01 1\n.names c8 y9 c9\n10 1\n01 1\n.names c9 y10 c10\n10 1\n01 1\n.names c10 y11 c11\n10 1\n01 1\n.names c11 y12 c12\n10 1\n01 1\n.names c12 y13 c13\n10 1\n01 1\n.names c13 y14 c14\n10 1\n01 1\n.names c14 y15 c15\n10 1\n01 1\n.names c15 y16 c16\n10 1\n01 1\n.names c16 y17 c17\n10 1\n01 1\n.names c17 y18 c18\n10 1\n01 1\n.names c18 y19 c19\n10 1\n01 1\n.names c19 r1\n1 1\n.names p r2\n1 1\n.end\n";

/// Netlists of more than 20 monitored nets.
static GATE_BY_GATE: [Audit; 2] = [
    (b"audit blif", TWENTY, MATCHED, 0, b"yes\n"),
    (
        b"audit blif",
        TWENTY,
        TURNED_ROWS,
        1,
        b"no checker net c1\n",
    ),
];

/// An output that its machine leaves free.
static FREE: [Audit; 2] = [
    // Version 2, in which the output is free.
    (
        b"audit kiss",
        b".i 1\n.o 1\n0 A A -\n1 A A 1\n.e\n",
        b".inputs x\n.outputs y r1 r2\n#tsc 2 berger\n#tsc check p\n#tsc state 01\n.latch e s 0\n.latch f u 1\n.names y\n1\n.names p\n.names e\n.names f\n1\n.names y p e f r1\n1-1- 1\n-1-1 1\n.names y p e f r2\n1--1 1\n-11- 1\n.end\n",
        0,
        b"yes\n",
    ),
    // Version 1, in which nothing is free.
    (
        b"audit kiss",
        b".i 1\n.o 1\n0 A A -\n1 A A 1\n.e\n",
        b".inputs x\n.outputs y r1 r2\n#tsc 1 berger\n#tsc check p\n#tsc state 01\n.latch e s 0\n.latch f u 1\n.names y\n1\n.names p\n.names e\n.names f\n1\n.names y p e f r1\n1-1- 1\n-1-1 1\n.names y p e f r2\n1--1 1\n-11- 1\n.end\n",
        1,
        b"no output 0 0 0\n",
    ),
];

/// Texts that are not audited.
static REFUSED: [Refused; 13] = [
    // An output that reads what nothing drives.
    (
        b"audit blif",
        ZERO,
        b".model model\n.inputs\n.outputs y t0_1 t0_2\n#tsc 1 berger\n#tsc check t0_0\n.names a y\n1 1\n.names t0_0\n1\n.names y t0_3\n0 1\n.names t0_3 t0_4\n0 1\n.names t0_4 t0_1\n1 1\n.names t0_0 t0_2\n1 1\n.end\n",
        3,
        b"tsc: undriven: a\n",
    ),
    // Version 3.
    (
        b"audit kiss",
        b".i 1\n.o 1\n0 A A -\n1 A A 1\n.e\n",
        b".inputs x\n.outputs y r1 r2\n#tsc 3 berger\n#tsc check p\n#tsc state 01\n.latch e s 0\n.latch f u 1\n.names y\n1\n.names p\n.names e\n.names f\n1\n.names y p e f r1\n1-1- 1\n-1-1 1\n.names y p e f r2\n1--1 1\n-11- 1\n.end\n",
        3,
        b"tsc: line 8: plan shape\n",
    ),
    // No plan.
    (
        b"audit blif",
        Y,
        b".model red\n.inputs a b\n.outputs y r1 r2\n.names a b n\n11 1\n.names a n y\n1- 1\n-1 1\n.names a p\n0 1\n.names y r1\n1 1\n.names p r2\n1 1\n.end\n",
        3,
        b"tsc: no plan\n",
    ),
    // No netlist.
    (b"audit blif", Y, b"", 3, b"tsc: no netlist\n"),
    // No netlist behind a machine.
    (
        b"audit kiss",
        TWO_STATES,
        b"# nothing\n\n",
        3,
        b"tsc: no netlist\n",
    ),
    // A plan line alone is a netlist without outputs or with a wrong plan, not none.
    (
        b"audit blif",
        Y,
        b"#tsc 1 parity\n",
        3,
        b"tsc: no outputs\n",
    ),
    // A source that is refused, before its netlist is missing.
    (
        b"audit blif",
        b".inputs a\n.outputs y\n.names a y\n2 1\n.end\n",
        b"",
        3,
        b"tsc: line 4: row shape\n",
    ),
    // A line behind the netlist.
    (
        b"audit blif",
        Y,
        b".model red\n.inputs a b\n.outputs y r1 r2\n#tsc 1 parity\n#tsc group y p\n.names a b n\n11 1\n.names a n y\n1- 1\n-1 1\n.names a p\n0 1\n.names y r1\n1 1\n.names p r2\n1 1\n.end\n.end\n",
        3,
        b"tsc: line 23: after the end\n",
    ),
    // A plan line behind the netlist.
    (
        b"audit blif",
        Y,
        b".model red\n.inputs a b\n.outputs y r1 r2\n#tsc 1 parity\n#tsc group y p\n.names a b n\n11 1\n.names a n y\n1- 1\n-1 1\n.names a p\n0 1\n.names y r1\n1 1\n.names p r2\n1 1\n.end\n#tsc 1 parity\n",
        3,
        b"tsc: line 23: after the end\n",
    ),
    // A source without `.end` takes the netlist into itself.
    (
        b"audit blif",
        b".model s\n.inputs a b\n.outputs y\n.names a y\n1 1\n",
        Q,
        3,
        b"tsc: line 6: unsupported\n",
    ),
    // A machine for a network.
    (
        b"audit blif",
        TWO_STATES,
        TOGGLE,
        3,
        b"tsc: line 1: unsupported\n",
    ),
    // A network for a machine.
    (b"audit kiss", Y, Q, 3, b"tsc: line 1: unsupported\n"),
    // 21 inputs.
    (
        b"audit blif",
        b".inputs i0 i1 i2 i3 i4 i5 i6 i7 i8 i9 i10 i11 i12 i13 i14 i15 i16 i17 i18 i19 i20\n.outputs i0\n.end\n",
        b".inputs i0 i1 i2 i3 i4 i5 i6 i7 i8 i9 i10 i11 i12 i13 i14 i15 i16 i17 i18 i19 i20\n.outputs i0 r1 r2\n#tsc 1 parity\n#tsc group i0 p\n.names i0 p\n0 1\n.names i0 r1\n1 1\n.names p r2\n1 1\n.end\n",
        4,
        b"tsc: limit: 1048576 points\n",
    ),
];

fn is_audited(alloc: Global, row: &Audit) -> Result<bool, AllocError> {
    let (words, source, netlist, status, line) = row;
    let text = joined(alloc, source, netlist)?;
    ends(alloc, words, text, *status, line, b"")
}

/// The place of the first row that isn't audited so.
pub fn first_not_audited(alloc: Global, rows: &[Audit]) -> Result<Option<usize>, AllocError> {
    for (place, row) in rows.iter().enumerate() {
        if !is_audited(alloc, row)? {
            return Ok(Some(place));
        }
    }
    Ok(None)
}

#[test]
fn networks_are_audited(rt: HostRuntime) -> Result<(), Fail> {
    assert_eq!(rt; first_not_audited(rt.alloc(), &VERDICTS)?, None);
    Ok(())
}

#[test]
fn machines_are_audited(rt: HostRuntime) -> Result<(), Fail> {
    assert_eq!(rt; first_not_audited(rt.alloc(), &MACHINES)?, None);
    Ok(())
}

#[test]
fn netlists_from_elsewhere_are_audited(rt: HostRuntime) -> Result<(), Fail> {
    assert_eq!(rt; first_not_audited(rt.alloc(), &ELSEWHERE)?, None);
    assert_eq!(rt; first_not_audited(rt.alloc(), &GATE_BY_GATE)?, None);
    Ok(())
}

#[test]
fn free_outputs_are_audited(rt: HostRuntime) -> Result<(), Fail> {
    assert_eq!(rt; first_not_audited(rt.alloc(), &FREE)?, None);
    Ok(())
}

#[test]
fn audits_are_refused(rt: HostRuntime) -> Result<(), Fail> {
    assert_eq!(rt; first_not_refused(rt.alloc(), &REFUSED)?, None);
    Ok(())
}
