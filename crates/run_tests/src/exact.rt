//! Exact audits: the verdict by every point and every failing cell, as it is worked out by hand, and what is refused.

use crate::accepted::first_not_accepted;
use crate::audits::{Audit, first_not_audited};
use crate::chains::{DUPLEX, PARITY, UNORDERED};
use crate::runs::{Refused, first_not_refused};
use crate::texts::{AND2, FOLLOWING, FREE_AT_ONE, SAFE_AND2, SAFE_WIRE, TOGGLE, TWO_STATES, WIRE};
use std::test::Fail;

/// The verdicts: yes, and each no.
static VERDICTS: [Audit; 20] = [
    (b"audit exact blif", AND2, SAFE_AND2, 0, b"yes\n"),
    // The output, and a monitored net, is an input.
    (b"audit exact blif", WIRE, SAFE_WIRE, 0, b"yes\n"),
    (b"audit exact kiss", TWO_STATES, TOGGLE, 0, b"yes\n"),
    (b"audit exact pla", FREE_AT_ONE, FOLLOWING, 0, b"yes\n"),
    // A constant.
    (
        b"audit exact blif",
        b".inputs a\n.outputs y\n.names y\n1\n.end\n",
        b".model model\n.inputs a\n.outputs y t0_1 t0_2\n#tsc 1 berger\n#tsc check t0_0\n.names y\n1\n.names t0_0\n.names y t0_3\n0 1\n.names t0_3 t0_4\n0 1\n.names t0_4 t0_1\n1 1\n.names t0_0 t0_2\n1 1\n.end\n",
        0,
        b"yes\n",
    ),
    // A rail is the check.
    (
        b"audit exact blif",
        AND2,
        b".model and2\n.inputs a b\n.outputs y r1 r2\n#tsc 1 parity\n#tsc group y r2\n.names a b y\n11 1\n.names y r1\n1 1\n.names a b r2\n11 0\n.end\n",
        0,
        b"yes\n",
    ),
    // A state to which no step leads.
    (
        b"audit exact kiss",
        b".i 1\n.o 1\n0 A A 0\n1 A B 1\n0 B B 0\n1 B A 1\n- C A 0\n.e\n",
        b".model machine\n.inputs i0\n.outputs o0 t0_9 t0_10\n#tsc 2 mofn\n#tsc check t0_8\n#tsc state 0011\n#tsc state 0101\n#tsc state 0110\n.latch t0_4 t0_0 0\n.latch t0_5 t0_1 0\n.latch t0_6 t0_2 1\n.latch t0_7 t0_3 1\n.names t0_4\n.names t0_2 t0_3 t0_11\n11 1\n.names t0_1 t0_3 t0_12\n11 1\n.names t0_1 t0_2 t0_13\n11 1\n.names i0 t0_14\n0 1\n.names i0 t0_14 t0_15\n11 1\n.names t0_16\n1\n.names t0_11 i0 t0_17\n11 1\n.names t0_12 i0 t0_18\n11 1\n.names t0_17 t0_18 o0\n1- 1\n-1 1\n.names t0_11 t0_14 t0_19\n11 1\n.names t0_11 t0_15 t0_20\n11 1\n.names t0_19 t0_20 t0_21\n1- 1\n-1 1\n.names t0_12 t0_14 t0_22\n11 1\n.names t0_21 t0_22 t0_23\n1- 1\n-1 1\n.names t0_12 t0_15 t0_24\n11 1\n.names t0_23 t0_24 t0_25\n1- 1\n-1 1\n.names t0_13 t0_16 t0_26\n11 1\n.names t0_25 t0_26 t0_8\n1- 1\n-1 1\n.names t0_17 t0_22 t0_5\n1- 1\n-1 1\n.names t0_21 t0_18 t0_27\n1- 1\n-1 1\n.names t0_27 t0_24 t0_28\n1- 1\n-1 1\n.names t0_28 t0_26 t0_6\n1- 1\n-1 1\n.names t0_19 t0_17 t0_29\n1- 1\n-1 1\n.names t0_29 t0_20 t0_30\n1- 1\n-1 1\n.names t0_30 t0_22 t0_31\n1- 1\n-1 1\n.names t0_31 t0_18 t0_32\n1- 1\n-1 1\n.names t0_32 t0_24 t0_33\n1- 1\n-1 1\n.names t0_33 t0_26 t0_7\n1- 1\n-1 1\n.names t0_4 t0_5 t0_34\n1- 1\n-1 1\n.names t0_6 t0_7 t0_35\n1- 1\n-1 1\n.names t0_34 t0_35 t0_36\n11 1\n.names o0 t0_36 t0_37\n11 1\n.names t0_6 t0_7 t0_38\n11 1\n.names t0_4 t0_5 t0_39\n11 1\n.names t0_38 t0_39 t0_40\n1- 1\n-1 1\n.names t0_8 t0_40 t0_41\n11 1\n.names t0_37 t0_41 t0_42\n1- 1\n-1 1\n.names t0_42 t0_9\n1 1\n.names o0 t0_40 t0_43\n11 1\n.names t0_8 t0_36 t0_44\n11 1\n.names t0_43 t0_44 t0_45\n1- 1\n-1 1\n.names t0_45 t0_10\n1 1\n.end\n",
        0,
        b"yes\n",
    ),
    // An input less, an output less, a state less than the source.
    (
        b"audit exact blif",
        AND2,
        SAFE_WIRE,
        1,
        b"no shape inputs\n",
    ),
    (
        b"audit exact blif",
        b".inputs a\n.outputs a b\n.names b\n.end\n",
        SAFE_WIRE,
        1,
        b"no shape outputs\n",
    ),
    (
        b"audit exact kiss",
        b".i 1\n.o 1\n0 A A 0\n1 A B 1\n0 B B 0\n1 B C 1\n- C A 0\n.e\n",
        TOGGLE,
        1,
        b"no shape states\n",
    ),
    // Another output.
    (
        b"audit exact blif",
        b".inputs a b\n.outputs y\n.names a b y\n1- 1\n-1 1\n.end\n",
        SAFE_AND2,
        1,
        b"no output 0 01 0\n",
    ),
    // Another next state.
    (
        b"audit exact kiss",
        b".i 1\n.o 1\n0 A A 0\n1 A A 1\n0 B B 0\n1 B A 1\n.e\n",
        TOGGLE,
        1,
        b"no next 0 1\n",
    ),
    // Both rails buffer the output: they agree without a fault.
    (
        b"audit exact blif",
        WIRE,
        b".model w\n.inputs a\n.outputs a r1 r2\n#tsc 1 parity\n#tsc group a p\n.names a p\n0 1\n.names a r1\n1 1\n.names a r2\n1 1\n.end\n",
        1,
        b"no quiet 0 0\n",
    ),
    // The check is the negated output: where the output's cell fails, the check follows it.
    (
        b"audit exact blif",
        AND2,
        b".model and2\n.inputs a b\n.outputs y r1 r2\n#tsc 1 parity\n#tsc group y p\n.names a b y\n11 1\n.names y p\n0 1\n.names y r1\n1 1\n.names p r2\n1 1\n.end\n",
        1,
        b"no alarm y 1 0 00\n",
    ),
    // One next bit is the other one negated: where its cell fails, both are wrong, and the word is a codeword.
    (
        b"audit exact kiss",
        TWO_STATES,
        b".model machine\n.inputs i0\n.outputs o0 t0_5 t0_6\n#tsc 2 mofn\n#tsc check t0_4\n#tsc state 01\n#tsc state 10\n.latch t0_2 t0_0 0\n.latch t0_3 t0_1 1\n.names i0 t0_7\n0 1\n.names t0_1 i0 t0_8\n11 1\n.names t0_0 i0 t0_9\n11 1\n.names t0_1 t0_7 t0_10\n11 1\n.names t0_0 t0_7 t0_11\n11 1\n.names t0_8 t0_9 o0\n1- 1\n-1 1\n.names t0_8 t0_11 t0_2\n1- 1\n-1 1\n.names t0_2 t0_3\n0 1\n.names t0_10 t0_11 t0_4\n1- 1\n-1 1\n.names o0 t0_2 t0_12\n11 1\n.names t0_4 t0_3 t0_13\n11 1\n.names t0_12 t0_13 t0_14\n1- 1\n-1 1\n.names t0_14 t0_5\n1 1\n.names o0 t0_3 t0_15\n11 1\n.names t0_4 t0_2 t0_16\n11 1\n.names t0_15 t0_16 t0_17\n1- 1\n-1 1\n.names t0_17 t0_6\n1 1\n.end\n",
        1,
        b"no alarm t0_0 1 0 0\n",
    ),
    // A structure that no audit takes: the check isn't what the second rail reads.
    (
        b"audit exact blif",
        AND2,
        b".model and2\n.inputs a b\n.outputs y r1 r2\n#tsc 1 parity\n#tsc group y p\n.names a b n\n11 1\n.names a b y\n11 1\n.names y q\n1 1\n.names q p\n0 1\n.names y r1\n1 1\n.names n r2\n0 1\n.end\n",
        0,
        b"yes\n",
    ),
    // More than 20 monitored nets: 21 outputs, of which the second netlist's rails leave out two.
    (
        b"audit exact blif",
        b".inputs a\n.outputs y1 y2 y3 y4 y5 y6 y7 y8 y9 y10 y11 y12 y13 y14 y15 y16 y17 y18 y19 y20 y21\n.names a y1\n1 1\n.names a y2\n1 1\n.names a y3\n1 1\n.names a y4\n1 1\n.names a y5\n1 1\n.names a y6\n1 1\n.names a y7\n1 1\n.names a y8\n1 1\n.names a y9\n1 1\n.names a y10\n1 1\n.names a y11\n1 1\n.names a y12\n1 1\n.names a y13\n1 1\n.names a y14\n1 1\n.names a y15\n1 1\n.names a y16\n1 1\n.names a y17\n1 1\n.names a y18\n1 1\n.names a y19\n1 1\n.names a y20\n1 1\n.names a y21\n1 1\n.end\n",
        b".inputs a\n.outputs y1 y2 y3 y4 y5 y6 y7 y8 y9 y10 y11 y12 y13 y14 y15 y16 y17 y18 y19 y20 y21 r1 r2\n#tsc 1 parity\n#tsc group y1 y2 y3 y4 y5 y6 y7 y8 y9 y10 y11 y12 y13 y14 y15 y16 y17 y18 y19 y20 y21 p\n.names a y1\n1 1\n.names a y2\n1 1\n.names a y3\n1 1\n.names a y4\n1 1\n.names a y5\n1 1\n.names a y6\n1 1\n.names a y7\n1 1\n.names a y8\n1 1\n.names a y9\n1 1\n.names a y10\n1 1\n.names a y11\n1 1\n.names a y12\n1 1\n.names a y13\n1 1\n.names a y14\n1 1\n.names a y15\n1 1\n.names a y16\n1 1\n.names a y17\n1 1\n.names a y18\n1 1\n.names a y19\n1 1\n.names a y20\n1 1\n.names a y21\n1 1\n.names a p\n0 1\n.names y1 y2 x2\n10 1\n01 1\n.names x2 y3 x3\n10 1\n01 1\n.names x3 y4 x4\n10 1\n01 1\n.names x4 y5 x5\n10 1\n01 1\n.names x5 y6 x6\n10 1\n01 1\n.names x6 y7 x7\n10 1\n01 1\n.names x7 y8 x8\n10 1\n01 1\n.names x8 y9 x9\n10 1\n01 1\n.names x9 y10 x10\n10 1\n01 1\n.names x10 y11 x11\n10 1\n01 1\n.names x11 y12 x12\n10 1\n01 1\n.names x12 y13 x13\n10 1\n01 1\n.names x13 y14 x14\n10 1\n01 1\n.names x14 y15 x15\n10 1\n01 1\n.names x15 y16 x16\n10 1\n01 1\n.names x16 y17 x17\n10 1\n01 1\n.names x17 y18 x18\n10 1\n01 1\n.names x18 y19 x19\n10 1\n01 1\n.names x19 y20 x20\n10 1\n01 1\n.names x20 y21 r1\n10 1\n01 1\n.names p r2\n1 1\n.end\n",
        0,
        b"yes\n",
    ),
    (
        b"audit exact blif",
        b".inputs a\n.outputs y1 y2 y3 y4 y5 y6 y7 y8 y9 y10 y11 y12 y13 y14 y15 y16 y17 y18 y19 y20 y21\n.names a y1\n1 1\n.names a y2\n1 1\n.names a y3\n1 1\n.names a y4\n1 1\n.names a y5\n1 1\n.names a y6\n1 1\n.names a y7\n1 1\n.names a y8\n1 1\n.names a y9\n1 1\n.names a y10\n1 1\n.names a y11\n1 1\n.names a y12\n1 1\n.names a y13\n1 1\n.names a y14\n1 1\n.names a y15\n1 1\n.names a y16\n1 1\n.names a y17\n1 1\n.names a y18\n1 1\n.names a y19\n1 1\n.names a y20\n1 1\n.names a y21\n1 1\n.end\n",
        b".inputs a\n.outputs y1 y2 y3 y4 y5 y6 y7 y8 y9 y10 y11 y12 y13 y14 y15 y16 y17 y18 y19 y20 y21 r1 r2\n#tsc 1 parity\n#tsc group y1 y2 y3 y4 y5 y6 y7 y8 y9 y10 y11 y12 y13 y14 y15 y16 y17 y18 y19 y20 y21 p\n.names a y1\n1 1\n.names a y2\n1 1\n.names a y3\n1 1\n.names a y4\n1 1\n.names a y5\n1 1\n.names a y6\n1 1\n.names a y7\n1 1\n.names a y8\n1 1\n.names a y9\n1 1\n.names a y10\n1 1\n.names a y11\n1 1\n.names a y12\n1 1\n.names a y13\n1 1\n.names a y14\n1 1\n.names a y15\n1 1\n.names a y16\n1 1\n.names a y17\n1 1\n.names a y18\n1 1\n.names a y19\n1 1\n.names a y20\n1 1\n.names a y21\n1 1\n.names a p\n0 1\n.names y1 y2 x2\n10 1\n01 1\n.names x2 y3 x3\n10 1\n01 1\n.names x3 y4 x4\n10 1\n01 1\n.names x4 y5 x5\n10 1\n01 1\n.names x5 y6 x6\n10 1\n01 1\n.names x6 y7 x7\n10 1\n01 1\n.names x7 y8 x8\n10 1\n01 1\n.names x8 y9 x9\n10 1\n01 1\n.names x9 y10 x10\n10 1\n01 1\n.names x10 y11 x11\n10 1\n01 1\n.names x11 y12 x12\n10 1\n01 1\n.names x12 y13 x13\n10 1\n01 1\n.names x13 y14 x14\n10 1\n01 1\n.names x14 y15 x15\n10 1\n01 1\n.names x15 y16 x16\n10 1\n01 1\n.names x16 y17 x17\n10 1\n01 1\n.names x17 y18 x18\n10 1\n01 1\n.names x18 y19 r1\n10 1\n01 1\n.names p r2\n1 1\n.end\n",
        1,
        b"no alarm y20 1 0 0\n",
    ),
    // At a state to which no step leads, and there alone: the rails agree without a fault, or a failing cell is unheard.
    (
        b"audit exact kiss",
        b".i 1\n.o 1\n0 A A 0\n1 A B 1\n0 B B 0\n1 B A 1\n- C A 0\n.e\n",
        b".model machine\n.inputs i0\n.outputs o0 t0_9 t0_10\n#tsc 2 mofn\n#tsc check t0_8\n#tsc state 0011\n#tsc state 0101\n#tsc state 0110\n.latch t0_4 t0_0 0\n.latch t0_5 t0_1 0\n.latch t0_6 t0_2 1\n.latch t0_7 t0_3 1\n.names t0_4\n.names t0_2 t0_3 t0_11\n11 1\n.names t0_1 t0_3 t0_12\n11 1\n.names t0_1 t0_2 t0_13\n11 1\n.names i0 t0_14\n0 1\n.names i0 t0_14 t0_15\n11 1\n.names t0_16\n1\n.names t0_11 i0 t0_17\n11 1\n.names t0_12 i0 t0_18\n11 1\n.names t0_17 t0_18 o0\n1- 1\n-1 1\n.names t0_11 t0_14 t0_19\n11 1\n.names t0_11 t0_15 t0_20\n11 1\n.names t0_19 t0_20 t0_21\n1- 1\n-1 1\n.names t0_12 t0_14 t0_22\n11 1\n.names t0_21 t0_22 t0_23\n1- 1\n-1 1\n.names t0_12 t0_15 t0_24\n11 1\n.names t0_23 t0_24 t0_25\n1- 1\n-1 1\n.names t0_13 t0_16 t0_26\n11 1\n.names t0_25 t0_26 t0_8\n1- 1\n-1 1\n.names t0_17 t0_22 t0_5\n1- 1\n-1 1\n.names t0_21 t0_18 t0_27\n1- 1\n-1 1\n.names t0_27 t0_24 t0_28\n1- 1\n-1 1\n.names t0_28 t0_26 t0_6\n1- 1\n-1 1\n.names t0_19 t0_17 t0_29\n1- 1\n-1 1\n.names t0_29 t0_20 t0_30\n1- 1\n-1 1\n.names t0_30 t0_22 t0_31\n1- 1\n-1 1\n.names t0_31 t0_18 t0_32\n1- 1\n-1 1\n.names t0_32 t0_24 t0_33\n1- 1\n-1 1\n.names t0_33 t0_26 t0_7\n1- 1\n-1 1\n.names t0_4 t0_5 t0_34\n1- 1\n-1 1\n.names t0_6 t0_7 t0_35\n1- 1\n-1 1\n.names t0_34 t0_35 t0_36\n11 1\n.names o0 t0_36 t0_37\n11 1\n.names t0_6 t0_7 t0_38\n11 1\n.names t0_4 t0_5 t0_39\n11 1\n.names t0_38 t0_39 t0_40\n1- 1\n-1 1\n.names t0_8 t0_40 t0_41\n11 1\n.names t0_37 t0_41 t0_42\n1- 1\n-1 1\n.names t0_42 t0_9\n1 1\n.names o0 t0_40 t0_43\n11 1\n.names t0_8 t0_36 t0_44\n11 1\n.names t0_43 t0_44 t0_45\n1- 1\n-1 1\n.names t0_45 t0_13 t0_10\n1- 1\n-1 1\n.end\n",
        1,
        b"no quiet 2 0\n",
    ),
    (
        b"audit exact kiss",
        b".i 1\n.o 1\n0 A A 0\n1 A B 1\n0 B B 0\n1 B A 1\n- C A 0\n.e\n",
        b".model machine\n.inputs i0\n.outputs o0 t0_9 t0_10\n#tsc 2 mofn\n#tsc check t0_8\n#tsc state 0011\n#tsc state 0101\n#tsc state 0110\n.latch t0_4 t0_0 0\n.latch t0_5 t0_1 0\n.latch t0_6 t0_2 1\n.latch t0_7 t0_3 1\n.names t0_4\n.names t0_2 t0_3 t0_11\n11 1\n.names t0_1 t0_3 t0_12\n11 1\n.names t0_1 t0_2 t0_13\n11 1\n.names i0 t0_14\n0 1\n.names i0 t0_14 t0_15\n11 1\n.names t0_16\n1\n.names t0_11 i0 t0_17\n11 1\n.names t0_12 i0 t0_18\n11 1\n.names t0_17 t0_18 o0\n1- 1\n-1 1\n.names t0_11 t0_14 t0_19\n11 1\n.names t0_11 t0_15 t0_20\n11 1\n.names t0_19 t0_20 t0_21\n1- 1\n-1 1\n.names t0_12 t0_14 t0_22\n11 1\n.names t0_21 t0_22 t0_23\n1- 1\n-1 1\n.names t0_12 t0_15 t0_24\n11 1\n.names t0_23 t0_24 t0_25\n1- 1\n-1 1\n.names t0_13 t0_16 t0_26\n11 1\n.names t0_25 t0_26 t0_8\n1- 1\n-1 1\n.names t0_17 t0_22 t0_5\n1- 1\n-1 1\n.names t0_21 t0_18 t0_27\n1- 1\n-1 1\n.names t0_27 t0_24 t0_28\n1- 1\n-1 1\n.names t0_28 t0_26 t0_6\n1- 1\n-1 1\n.names t0_19 t0_17 t0_29\n1- 1\n-1 1\n.names t0_29 t0_20 t0_30\n1- 1\n-1 1\n.names t0_30 t0_22 t0_31\n1- 1\n-1 1\n.names t0_31 t0_18 t0_32\n1- 1\n-1 1\n.names t0_32 t0_24 t0_33\n1- 1\n-1 1\n.names t0_33 t0_26 t0_7\n1- 1\n-1 1\n.names t0_4 t0_5 t0_34\n1- 1\n-1 1\n.names t0_6 t0_7 t0_35\n1- 1\n-1 1\n.names t0_34 t0_35 t0_36\n11 1\n.names o0 t0_36 t0_37\n11 1\n.names t0_6 t0_7 t0_38\n11 1\n.names t0_4 t0_5 t0_39\n11 1\n.names t0_38 t0_39 t0_40\n1- 1\n-1 1\n.names t0_8 t0_40 t0_41\n11 1\n.names t0_37 t0_41 t0_42\n1- 1\n-1 1\n.names t0_42 t0_13 t0_9\n1- 1\n-1 1\n.names o0 t0_40 t0_43\n11 1\n.names t0_8 t0_36 t0_44\n11 1\n.names t0_43 t0_44 t0_45\n1- 1\n-1 1\n.names t0_45 t0_10\n1 1\n.end\n",
        1,
        b"no alarm t0_16 0 2 0\n",
    ),
];

/// Texts that are not audited, as an audit has it.
static REFUSED: [Refused; 4] = [
    (b"audit exact", b"", b"", 2, USAGE),
    (b"audit exact mapped", b"", b"", 2, USAGE),
    (b"audit exact blif", AND2, b"", 3, b"tsc: no netlist\n"),
    (
        b"audit exact blif",
        b".inputs i0 i1 i2 i3 i4 i5 i6 i7 i8 i9 i10 i11 i12 i13 i14 i15 i16 i17 i18 i19 i20\n.outputs i0\n.end\n",
        b".inputs i0 i1 i2 i3 i4 i5 i6 i7 i8 i9 i10 i11 i12 i13 i14 i15 i16 i17 i18 i19 i20\n.outputs i0 r1 r2\n#tsc 1 parity\n#tsc group i0 p\n.names i0 p\n0 1\n.names i0 r1\n1 1\n.names p r2\n1 1\n.end\n",
        4,
        b"tsc: limit: 1048576 points\n",
    ),
];

const USAGE: &[u8] = b"tsc: usage: tsc synth|ask|audit|faults|vectors|grade|sim|make|join|help\n";

#[test]
fn netlists_are_decided(rt: HostRuntime) -> Result<(), Fail> {
    assert_eq!(rt; first_not_audited(rt.alloc(), &VERDICTS)?, None);
    Ok(())
}

#[test]
fn exact_audits_are_refused(rt: HostRuntime) -> Result<(), Fail> {
    assert_eq!(rt; first_not_refused(rt.alloc(), &REFUSED)?, None);
    Ok(())
}

#[test]
fn synthesised_netlists_are_accepted(rt: HostRuntime) -> Result<(), Fail> {
    let words = b"audit exact blif";
    assert_eq!(rt; first_not_accepted(rt.alloc(), words, &PARITY)?, None);
    assert_eq!(rt; first_not_accepted(rt.alloc(), words, &DUPLEX)?, None);
    assert_eq!(rt; first_not_accepted(rt.alloc(), words, &UNORDERED)?, None);
    Ok(())
}
