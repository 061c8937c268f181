//! Audits whatever the number of inputs: the verdict, as it is worked out by hand, and what is refused.

use crate::accepted::first_not_accepted;
use crate::audits::{Audit, first_not_audited};
use crate::chains::{DUPLEX, PARITY, UNORDERED};
use crate::runs::{Refused, first_not_refused};
use crate::texts::{AND2, ONE, SAFE_AND2, SAFE_ONE, SAFE_WIRE, WIRE};
use std::test::Fail;

/// An output that is its first input.
const Y: &[u8] = b".inputs a b\n.outputs y\n.names a y\n1 1\n.end\n";

/// A netlist of it with a redundant gate.
const Q: &[u8] =
    b".model red\n.inputs a b\n.outputs y r1 r2\n#tsc 1 parity\n#tsc group y p\n.names a b n\n11 1\n.names a n y\n1- 1\n-1 1\n.names a p\n0 1\n.names y r1\n1 1\n.names p r2\n1 1\n.end\n";

/// An and gate of 32 pins.
const AND32: &[u8] =
    b".inputs a b c d e f g h i j k l m n o p q r s t u v w x y z A B C D E F\n.outputs Y\n.names a b c d e f g h i j k l m n o p q r s t u v w x y z A B C D E F Y\n11111111111111111111111111111111 1\n.end\n";

/// The same with a parity check and two rails.
const SAFE_AND32: &[u8] =
    b".model model\n.inputs a b c d e f g h i j k l m n o p q r s t u v w x y z A B C D E F\n.outputs Y t0_2 t0_3\n#tsc 1 parity\n#tsc group Y t0_1\n.names a b c d e f g h i j k l m n o p q r s t u v w x y z A B C D E F Y\n11111111111111111111111111111111 1\n.names a b c d e f g h i j k l m n o p q r s t u v w x y z A B C D E F t0_0\n11111111111111111111111111111111 1\n.names t0_0 t0_1\n0 1\n.names Y t0_2\n1 1\n.names t0_1 t0_3\n1 1\n.end\n";

/// The verdicts: yes, and each no.
static VERDICTS: [Audit; 15] = [
    // As many rows as different cofactors, and a number with zeros before it.
    (b"audit wide 7", AND2, SAFE_AND2, 0, b"yes\n"),
    (b"audit wide 007", AND2, SAFE_AND2, 0, b"yes\n"),
    // An output that is an input, no input, and inputs that no audit tries.
    (b"audit wide 64", WIRE, SAFE_WIRE, 0, b"yes\n"),
    (b"audit wide 2", ONE, SAFE_ONE, 0, b"yes\n"),
    (b"audit wide 562", AND32, SAFE_AND32, 0, b"yes\n"),
    // An input less; rails that are monitored; a rail that reads past the word; latches under a code that lets them be.
    (b"audit wide 64", AND2, SAFE_WIRE, 1, b"no shape inputs\n"),
    (
        b"audit wide 64",
        Y,
        b".model red\n.inputs a b\n.outputs y p r2\n#tsc 1 parity\n#tsc group y p\n.names a b n\n11 1\n.names a n y\n1- 1\n-1 1\n.names a p\n0 1\n.names y r1\n1 1\n.names p r2\n1 1\n.end\n",
        1,
        b"no rails p\n",
    ),
    (
        b"audit wide 64",
        Y,
        b".model red\n.inputs a b\n.outputs y r1 r2\n#tsc 1 parity\n#tsc group y p\n.names a b n\n11 1\n.names a n y\n1- 1\n-1 1\n.names a p\n0 1\n.names n r1\n1 1\n.names p r2\n1 1\n.end\n",
        1,
        b"no reads r1 0\n",
    ),
    (
        b"audit wide 64",
        WIRE,
        b".inputs a\n.outputs a r1 r2\n#tsc 1 berger\n#tsc check p\n#tsc state 01\n.latch e s 0\n.latch f u 1\n.names a p\n0 1\n.names e\n.names f\n1\n.names a p e f r1\n1-1- 1\n-1-1 1\n.names a p e f r2\n1--1 1\n-11- 1\n.end\n",
        1,
        b"no latched\n",
    ),
    // Another output, from the first input on; another check; both at one input, where the word comes first.
    (
        b"audit wide 64",
        b".inputs a b\n.outputs y\n.names a y\n0 1\n.end\n",
        Q,
        1,
        b"no output 0 00 0\n",
    ),
    (
        b"audit wide 64",
        Y,
        b".model red\n.inputs a b\n.outputs y r1 r2\n#tsc 1 parity\n#tsc group y p\n.names a b n\n11 1\n.names a n y\n1- 1\n-1 1\n.names a p\n1 1\n.names y r1\n1 1\n.names p r2\n1 1\n.end\n",
        1,
        b"no word 0 00\n",
    ),
    (
        b"audit wide 64",
        b".inputs a b\n.outputs y\n.names a y\n0 1\n.end\n",
        b".model red\n.inputs a b\n.outputs y r1 r2\n#tsc 1 parity\n#tsc group y p\n.names a b n\n11 1\n.names a n y\n1- 1\n-1 1\n.names a p\n1 1\n.names y r1\n1 1\n.names p r2\n1 1\n.end\n",
        1,
        b"no word 0 00\n",
    ),
    // An output that is wrong at a lesser input than the word is.
    (
        b"audit wide 64",
        b".inputs a b\n.outputs y\n.names a b y\n1- 1\n-1 1\n.end\n",
        b".model red\n.inputs a b\n.outputs y r1 r2\n#tsc 1 parity\n#tsc group y p\n.names a b n\n11 1\n.names a n y\n1- 1\n-1 1\n.names a b p\n0- 1\n11 1\n.names y r1\n1 1\n.names p r2\n1 1\n.end\n",
        1,
        b"no output 0 01 0\n",
    ),
    // Without inputs.
    (
        b"audit wide 64",
        b".outputs y\n.names y\n.end\n",
        SAFE_ONE,
        1,
        b"no output 0 . 0\n",
    ),
    // A rail that doesn't decide the code.
    (
        b"audit wide 64",
        Y,
        b".model red\n.inputs a b\n.outputs y r1 r2\n#tsc 1 parity\n#tsc group y p\n.names a b n\n11 1\n.names a n y\n1- 1\n-1 1\n.names a p\n0 1\n.names y r1\n1 1\n.names y r2\n1 1\n.end\n",
        1,
        b"no checker 01\n",
    ),
];

const USAGE: &[u8] = b"tsc: usage: tsc synth|ask|audit|faults|vectors|grade|sim|make|join|help\n";

/// Texts that need a row more, words that aren't meant, and a source alone.
static REFUSED: [Refused; 9] = [
    (b"audit wide 6", AND2, SAFE_AND2, 4, b"tsc: limit: 6 rows\n"),
    (
        b"audit wide 561",
        AND32,
        SAFE_AND32,
        4,
        b"tsc: limit: 561 rows\n",
    ),
    (b"audit wide 64", AND2, b"", 3, b"tsc: no netlist\n"),
    (b"audit wide", b"", b"", 2, USAGE),
    (b"audit wide 1", b"", b"", 2, USAGE),
    (b"audit wide 4194305", b"", b"", 2, USAGE),
    (b"audit wide +7", b"", b"", 2, USAGE),
    (b"audit wide blif", b"", b"", 2, USAGE),
    (b"audit wide 7 7", b"", b"", 2, USAGE),
];

#[test]
fn wide_netlists_are_audited(rt: HostRuntime) -> Result<(), Fail> {
    assert_eq!(rt; first_not_audited(rt.alloc(), &VERDICTS)?, None);
    Ok(())
}

#[test]
fn wide_audits_are_refused(rt: HostRuntime) -> Result<(), Fail> {
    assert_eq!(rt; first_not_refused(rt.alloc(), &REFUSED)?, None);
    Ok(())
}

#[test]
fn synthesised_netlists_are_accepted_widely(rt: HostRuntime) -> Result<(), Fail> {
    let words = b"audit wide 4096";
    assert_eq!(rt; first_not_accepted(rt.alloc(), words, &PARITY)?, None);
    assert_eq!(rt; first_not_accepted(rt.alloc(), words, &DUPLEX)?, None);
    assert_eq!(rt; first_not_accepted(rt.alloc(), words, &UNORDERED)?, None);
    Ok(())
}
