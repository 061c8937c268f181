//! Refutations of exact questions, followed line by line: a yes, a no before the refutation is looked at, and the first fault.

use crate::audits::{Audit, first_not_audited};
use crate::runs::{Refused, first_not_refused};
use crate::texts::{AND2, PROVED_WIRE, SAFE_WIRE, WIRE};
use std::test::Fail;

/// Refutations that are followed, and netlists of which nothing is asked.
static AUDITED: [Audit; 6] = [
    // The refutation of a wire's question, as a solver's was elaborated.
    (b"audit proof", WIRE, PROVED_WIRE, 0, b"yes\n"),
    // The same with remarks, a continued line and line ends of two bytes; what follows the empty clause isn't looked at.
    (
        b"audit proof",
        WIRE,
        b".model w\n.inputs a\n.outputs a t0_1 t0_2\n#tsc 1 parity\n#tsc group a t0_0\n.names a t0_0\n0 1\n.names a t0_1\n1 1\n.names t0_0 t0_2\n1 1\n.end\nc a remark\n62 d 7 8 9 10 11 12 13 14 15 16 17 18 19 20 21 22 23 24 25 26 27 28 29 30 31 32 33 34 35 36 37 38 39 40 41 42 43 44 45 48 49 52 53 56 57 58 59 60 0
\n63 -21 -20 19 0 61 62 0
\n63 d 62 61 0
\n64 -19 0 46 47 0\n64 d 47 46 0\n65 2 20 0 \\\n 1 50 0 # a remark\n65 d 50 0\n66 20 0 65 2 51 0\n66 d 51 65 0\n67 -21 0 66 64 63 0\n67 d 63 64 66 0\n68 -4 0 67 6 55 2 4 0\n68 d 4 2 55 6 0\n69 -2 0 68 5 0\n69 d 5 0\n70 -3 0 67 68 54 0\n70 d 54 68 67 0\n71 1 0 69 1 0\n71 d 1 69 0\n72 0 71 70 3 0\nwhat follows is passed over 0\n",
        0,
        b"yes\n",
    ),
    // An and gate, and a gate that its own copy checks.
    (
        b"audit proof",
        AND2,
        b".model and2\n.inputs a b\n.outputs y t0_2 t0_3\n#tsc 1 parity\n#tsc group y t0_1\n.names a b y\n11 1\n.names a b t0_0\n11 1\n.names t0_0 t0_1\n0 1\n.names y t0_2\n1 1\n.names t0_1 t0_3\n1 1\n.end\n113 d 22 23 24 25 26 27 28 29 30 33 34 36 37 38 39 40 41 42 43 44 45 46 47 48 51 53 54 55 56 57 58 59 60 61 62 65 68 70 73 74 75 76 77 79 81 82 83 84 85 86 87 88 92 93 97 98 103 109 110 0\n114 -35 -39 -42 0 111 112 35 50 52 64 66 49 78 80 63 94 91 108 90 21 100 69 31 71 0\n114 d 71 31 69 90 108 0\n115 -42 -39 0 111 112 114 107 35 50 52 64 66 49 78 80 63 94 67 91 72 89 20 99 32 0\n115 d 32 89 72 91 67 94 63 80 78 49 66 64 52 50 35 107 114 112 111 0\n116 11 -40 39 0 20 16 15 11 12 8 9 101 0\n116 d 101 0\n117 -40 39 0 116 21 104 18 102 0\n117 d 102 104 116 0\n118 -9 39 0 20 117 106 19 17 10 14 6 7 13 0\n118 d 13 7 6 14 10 17 0\n119 39 0 117 118 16 21 15 105 11 12 18 8 9 0\n119 d 118 117 0\n120 -42 0 119 115 0\n120 d 115 0\n121 11 0 119 120 20 16 99 15 18 11 12 105 113 3 96 4 0\n121 d 4 96 3 105 12 11 18 15 99 16 20 0\n122 9 0 121 21 0\n122 d 21 0\n123 -5 0 122 119 100 0\n123 d 100 122 0\n124 -6 0 123 9 0\n124 d 9 0\n125 -10 0 123 19 0\n125 d 19 0\n126 40 0 125 121 106 0\n126 d 106 121 125 0\n127 38 0 120 119 126 113 0\n127 d 113 126 119 120 0\n128 3 0 127 123 95 0\n128 d 95 123 127 0\n129 4 0 128 5 0\n129 d 5 128 0\n130 1 0 129 1 0\n130 d 1 0\n131 2 0 129 2 0\n131 d 2 129 0\n132 0 131 130 124 8 0\n",
        0,
        b"yes\n",
    ),
    // An input more: the refutation is not looked at.
    (
        b"audit proof",
        b".inputs a b\n.outputs a\n.end\n",
        b".model w\n.inputs a\n.outputs a t0_1 t0_2\n#tsc 1 parity\n#tsc group a t0_0\n.names a t0_0\n0 1\n.names a t0_1\n1 1\n.names t0_0 t0_2\n1 1\n.end\nno refutation\n",
        1,
        b"no shape inputs\n",
    ),
    // One listed state, as many as a network has: there are latches. There is no refutation, and none is missed.
    (
        b"audit proof",
        WIRE,
        b".model m\n.inputs a\n.outputs a r1 r2\n#tsc 1 berger\n#tsc check p\n#tsc state 01\n.latch l l 0\n.latch k k 1\n.names a p\n0 1\n.names a r1\n1 1\n.names p r2\n1 1\n.end\n",
        1,
        b"no latched\n",
    ),
    // Another code.
    (
        b"audit proof",
        b".inputs a\n.outputs y\n.names y\n1\n.end\n",
        b".model model\n.inputs a\n.outputs y t0_1 t0_2\n#tsc 1 berger\n#tsc check t0_0\n.names y\n1\n.names t0_0\n.names y t0_3\n0 1\n.names t0_3 t0_4\n0 1\n.names t0_4 t0_1\n1 1\n.names t0_0 t0_2\n1 1\n.end\n",
        1,
        b"no parity\n",
    ),
];

/// Words without a meaning, texts that are refused before a refutation is looked at, and refutations with a fault.
static REFUSED: [Refused; 18] = [
    (b"audit proof blif", b"", b"", 2, USAGE),
    (b"proof", b"", b"", 2, USAGE),
    (b"audit proof", AND2, b"", 3, b"tsc: no netlist\n"),
    (
        b"audit proof",
        AND2,
        b".inputs a b\n.outputs y r1 r2\n.names a b y\n11 1\n.names y r1\n1 1\n.names y r2\n0 1\n.end\n",
        3,
        b"tsc: no plan\n",
    ),
    // No refutation, and one that ends before the empty clause.
    (b"audit proof", WIRE, SAFE_WIRE, 3, b"tsc: no refutation\n"),
    (
        b"audit proof",
        WIRE,
        b".model w\n.inputs a\n.outputs a t0_1 t0_2\n#tsc 1 parity\n#tsc group a t0_0\n.names a t0_0\n0 1\n.names a t0_1\n1 1\n.names t0_0 t0_2\n1 1\n.end\n62 d 7 8 9 10 11 12 13 14 15 16 17 18 19 20 21 22 23 24 25 26 27 28 29 30 31 32 33 34 35 36 37 38 39 40 41 42 43 44 45 48 49 52 53 56 57 58 59 60 0\n",
        3,
        b"tsc: unfinished\n",
    ),
    (
        b"audit proof",
        WIRE,
        b".model w\n.inputs a\n.outputs a t0_1 t0_2\n#tsc 1 parity\n#tsc group a t0_0\n.names a t0_0\n0 1\n.names a t0_1\n1 1\n.names t0_0 t0_2\n1 1\n.end\nc a remark\n",
        3,
        b"tsc: unfinished\n",
    ),
    // Words that are no numbers, a line without its closing 0, a literal that is no variable's, and a number that doesn't rise.
    (
        b"audit proof",
        WIRE,
        b".model w\n.inputs a\n.outputs a t0_1 t0_2\n#tsc 1 parity\n#tsc group a t0_0\n.names a t0_0\n0 1\n.names a t0_1\n1 1\n.names t0_0 t0_2\n1 1\n.end\n63 -21 x 0 61 62 0\n",
        3,
        b"tsc: line 17: refutation shape\n",
    ),
    (
        b"audit proof",
        WIRE,
        b".model w\n.inputs a\n.outputs a t0_1 t0_2\n#tsc 1 parity\n#tsc group a t0_0\n.names a t0_0\n0 1\n.names a t0_1\n1 1\n.names t0_0 t0_2\n1 1\n.end\n62 d 7 8 9 10 11 12 13 14 15 16 17 18 19 20 21 22 23 24 25 26 27 28 29 30 31 32 33 34 35 36 37 38 39 40 41 42 43 44 45 48 49 52 53 56 57 58 59 60 0\n63 -21 -20 19 0 61 62\n",
        3,
        b"tsc: line 18: refutation shape\n",
    ),
    (
        b"audit proof",
        WIRE,
        b".model w\n.inputs a\n.outputs a t0_1 t0_2\n#tsc 1 parity\n#tsc group a t0_0\n.names a t0_0\n0 1\n.names a t0_1\n1 1\n.names t0_0 t0_2\n1 1\n.end\n63 24 0 1 0\n",
        3,
        b"tsc: line 17: refutation shape\n",
    ),
    (
        b"audit proof",
        WIRE,
        b".model w\n.inputs a\n.outputs a t0_1 t0_2\n#tsc 1 parity\n#tsc group a t0_0\n.names a t0_0\n0 1\n.names a t0_1\n1 1\n.names t0_0 t0_2\n1 1\n.end\n62 1 0 1 0\n",
        3,
        b"tsc: line 17: refutation shape\n",
    ),
    (
        b"audit proof",
        WIRE,
        b".model w\n.inputs a\n.outputs a t0_1 t0_2\n#tsc 1 parity\n#tsc group a t0_0\n.names a t0_0\n0 1\n.names a t0_1\n1 1\n.names t0_0 t0_2\n1 1\n.end\n.model m\n",
        3,
        b"tsc: line 17: refutation shape\n",
    ),
    // A hint and deletions of clauses that aren't alive.
    (
        b"audit proof",
        WIRE,
        b".model w\n.inputs a\n.outputs a t0_1 t0_2\n#tsc 1 parity\n#tsc group a t0_0\n.names a t0_0\n0 1\n.names a t0_1\n1 1\n.names t0_0 t0_2\n1 1\n.end\n63 -21 -20 19 0 61 99 0\n",
        3,
        b"tsc: line 17: no clause\n",
    ),
    (
        b"audit proof",
        WIRE,
        b".model w\n.inputs a\n.outputs a t0_1 t0_2\n#tsc 1 parity\n#tsc group a t0_0\n.names a t0_0\n0 1\n.names a t0_1\n1 1\n.names t0_0 t0_2\n1 1\n.end\n62 d 7 0\n62 d 8 7 0\n",
        3,
        b"tsc: line 18: no clause\n",
    ),
    (
        b"audit proof",
        WIRE,
        b".model w\n.inputs a\n.outputs a t0_1 t0_2\n#tsc 1 parity\n#tsc group a t0_0\n.names a t0_0\n0 1\n.names a t0_1\n1 1\n.names t0_0 t0_2\n1 1\n.end\n62 d 61 0\n63 -21 -20 19 0 61 62 0\n",
        3,
        b"tsc: line 18: no clause\n",
    ),
    // Hints that lead to no false clause, that leave two literals, and a negative one.
    (
        b"audit proof",
        WIRE,
        b".model w\n.inputs a\n.outputs a t0_1 t0_2\n#tsc 1 parity\n#tsc group a t0_0\n.names a t0_0\n0 1\n.names a t0_1\n1 1\n.names t0_0 t0_2\n1 1\n.end\n63 1 0 2 0\n",
        3,
        b"tsc: line 17: hint\n",
    ),
    (
        b"audit proof",
        WIRE,
        b".model w\n.inputs a\n.outputs a t0_1 t0_2\n#tsc 1 parity\n#tsc group a t0_0\n.names a t0_0\n0 1\n.names a t0_1\n1 1\n.names t0_0 t0_2\n1 1\n.end\n63 0 10 0\n",
        3,
        b"tsc: line 17: hint\n",
    ),
    (
        b"audit proof",
        WIRE,
        b".model w\n.inputs a\n.outputs a t0_1 t0_2\n#tsc 1 parity\n#tsc group a t0_0\n.names a t0_0\n0 1\n.names a t0_1\n1 1\n.names t0_0 t0_2\n1 1\n.end\n63 1 0 -1 1 0\n",
        3,
        b"tsc: line 17: hint\n",
    ),
];

const USAGE: &[u8] = b"tsc: usage: tsc synth|ask|audit|faults|vectors|grade|sim|make|join|help\n";

#[test]
fn refutations_are_followed(rt: HostRuntime) -> Result<(), Fail> {
    assert_eq!(rt; first_not_audited(rt.alloc(), &AUDITED)?, None);
    Ok(())
}

#[test]
fn refutations_are_refused(rt: HostRuntime) -> Result<(), Fail> {
    assert_eq!(rt; first_not_refused(rt.alloc(), &REFUSED)?, None);
    Ok(())
}
