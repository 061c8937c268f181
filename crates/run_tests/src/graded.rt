//! What step lines show of each listed fault, as a script that runs each fault by itself has it.

use crate::runs::{Done, Refused, first_not_done, first_not_refused};
use crate::texts::{SAFE_AND2, SAFE_WIRE, TOGGLE, WATCHED_HELD};
use std::test::Fail;

/// The grades.
static GRADES: [Done; 7] = [
    // An and gate: each fault at its step; without steps none is seen.
    (
        b"grade",
        SAFE_AND2,
        b"11\n01\n00\n",
        b"stem y 0 alarm 0\nstem y 1 alarm 1\npin y 0 0 alarm 0\npin y 0 1 alarm 1\npin y 1 0 alarm 0\npin y 1 1 unseen\nstem t0_0 0 alarm 0\nstem t0_0 1 alarm 1\npin t0_0 0 0 alarm 0\npin t0_0 0 1 alarm 1\npin t0_0 1 0 alarm 0\npin t0_0 1 1 unseen\nstem t0_1 0 alarm 1\nstem t0_1 1 alarm 0\npin t0_1 0 0 alarm 0\npin t0_1 0 1 alarm 1\nstem t0_2 0 alarm 0\nstem t0_2 1 alarm 1\npin t0_2 0 0 alarm 0\npin t0_2 0 1 alarm 1\nstem t0_3 0 alarm 1\nstem t0_3 1 alarm 0\npin t0_3 0 0 alarm 1\npin t0_3 0 1 alarm 0\nalarm 22 silent 0 unseen 2\n",
    ),
    (
        b"grade",
        SAFE_AND2,
        b"",
        b"stem y 0 unseen\nstem y 1 unseen\npin y 0 0 unseen\npin y 0 1 unseen\npin y 1 0 unseen\npin y 1 1 unseen\nstem t0_0 0 unseen\nstem t0_0 1 unseen\npin t0_0 0 0 unseen\npin t0_0 0 1 unseen\npin t0_0 1 0 unseen\npin t0_0 1 1 unseen\nstem t0_1 0 unseen\nstem t0_1 1 unseen\npin t0_1 0 0 unseen\npin t0_1 0 1 unseen\nstem t0_2 0 unseen\nstem t0_2 1 unseen\npin t0_2 0 0 unseen\npin t0_2 0 1 unseen\nstem t0_3 0 unseen\nstem t0_3 1 unseen\npin t0_3 0 0 unseen\npin t0_3 0 1 unseen\nalarm 0 silent 0 unseen 24\n",
    ),
    // A machine: its latches come first, and the pin of one shows from step 1 on.
    (
        b"grade",
        TOGGLE,
        b"0\n1\n0\n",
        b"stem t0_0 0 alarm 2\nstem t0_0 1 alarm 0\npin t0_0 0 0 alarm 2\npin t0_0 0 1 alarm 1\nstem t0_1 0 alarm 0\nstem t0_1 1 alarm 2\npin t0_1 0 0 alarm 1\npin t0_1 0 1 alarm 2\nstem t0_7 0 alarm 0\nstem t0_7 1 alarm 1\npin t0_7 0 0 alarm 1\npin t0_7 0 1 alarm 0\nstem t0_8 0 alarm 1\nstem t0_8 1 alarm 0\npin t0_8 0 0 alarm 1\npin t0_8 0 1 unseen\npin t0_8 1 0 alarm 1\npin t0_8 1 1 alarm 0\nstem t0_9 0 unseen\nstem t0_9 1 alarm 0\npin t0_9 0 0 unseen\npin t0_9 0 1 alarm 1\npin t0_9 1 0 unseen\npin t0_9 1 1 alarm 2\nstem t0_10 0 alarm 0\nstem t0_10 1 alarm 1\npin t0_10 0 0 alarm 0\npin t0_10 0 1 alarm 2\npin t0_10 1 0 alarm 0\npin t0_10 1 1 alarm 1\nstem t0_11 0 alarm 2\nstem t0_11 1 alarm 0\npin t0_11 0 0 alarm 2\npin t0_11 0 1 alarm 0\npin t0_11 1 0 alarm 2\npin t0_11 1 1 unseen\nstem o0 0 alarm 1\nstem o0 1 alarm 0\npin o0 0 0 alarm 1\npin o0 0 1 alarm 0\npin o0 1 0 unseen\npin o0 1 1 alarm 0\nstem t0_2 0 alarm 1\nstem t0_2 1 alarm 0\npin t0_2 0 0 alarm 1\npin t0_2 0 1 alarm 0\npin t0_2 1 0 alarm 2\npin t0_2 1 1 alarm 0\nstem t0_3 0 alarm 0\nstem t0_3 1 alarm 1\npin t0_3 0 0 alarm 0\npin t0_3 0 1 alarm 1\npin t0_3 1 0 unseen\npin t0_3 1 1 alarm 1\nstem t0_4 0 alarm 0\nstem t0_4 1 alarm 1\npin t0_4 0 0 alarm 0\npin t0_4 0 1 alarm 1\npin t0_4 1 0 alarm 2\npin t0_4 1 1 alarm 1\nstem t0_12 0 alarm 1\nstem t0_12 1 alarm 2\npin t0_12 0 0 alarm 1\npin t0_12 0 1 alarm 2\npin t0_12 1 0 alarm 1\npin t0_12 1 1 unseen\nstem t0_13 0 alarm 0\nstem t0_13 1 alarm 2\npin t0_13 0 0 alarm 0\npin t0_13 0 1 unseen\npin t0_13 1 0 alarm 0\npin t0_13 1 1 alarm 2\nstem t0_14 0 alarm 0\nstem t0_14 1 alarm 2\npin t0_14 0 0 alarm 1\npin t0_14 0 1 alarm 2\npin t0_14 1 0 alarm 0\npin t0_14 1 1 alarm 2\nstem t0_5 0 alarm 0\nstem t0_5 1 alarm 2\npin t0_5 0 0 alarm 0\npin t0_5 0 1 alarm 2\nstem t0_15 0 unseen\nstem t0_15 1 alarm 0\npin t0_15 0 0 unseen\npin t0_15 0 1 alarm 0\npin t0_15 1 0 unseen\npin t0_15 1 1 alarm 1\nstem t0_16 0 alarm 2\nstem t0_16 1 alarm 0\npin t0_16 0 0 alarm 2\npin t0_16 0 1 alarm 1\npin t0_16 1 0 alarm 2\npin t0_16 1 1 alarm 0\nstem t0_17 0 alarm 2\nstem t0_17 1 alarm 0\npin t0_17 0 0 unseen\npin t0_17 0 1 alarm 0\npin t0_17 1 0 alarm 2\npin t0_17 1 1 alarm 0\nstem t0_6 0 alarm 2\nstem t0_6 1 alarm 0\npin t0_6 0 0 alarm 2\npin t0_6 0 1 alarm 0\nalarm 91 silent 0 unseen 13\n",
    ),
    // Two copies of registers, which are watched.
    (
        b"grade",
        WATCHED_HELD,
        b"0\n1\n1\n0\n1\n",
        b"stem p 0 alarm 1\nstem p 1 alarm 0\npin p 0 0 alarm 1\npin p 0 1 alarm 2\nstem t0_0 0 alarm 1\nstem t0_0 1 alarm 0\npin t0_0 0 0 alarm 1\npin t0_0 0 1 alarm 2\nstem n 0 alarm 0\nstem n 1 alarm 1\npin n 0 0 alarm 1\npin n 0 1 alarm 3\npin n 1 0 alarm 1\npin n 1 1 alarm 2\nstem t0_1 0 alarm 0\nstem t0_1 1 alarm 1\npin t0_1 0 0 alarm 1\npin t0_1 0 1 alarm 3\npin t0_1 1 0 alarm 1\npin t0_1 1 1 alarm 2\nstem t0_2 0 alarm 0\nstem t0_2 1 alarm 1\npin t0_2 0 0 alarm 1\npin t0_2 0 1 alarm 0\nstem t0_3 0 alarm 1\nstem t0_3 1 alarm 0\npin t0_3 0 0 alarm 0\npin t0_3 0 1 alarm 1\nstem t0_4 0 alarm 0\nstem t0_4 1 alarm 1\npin t0_4 0 0 alarm 1\npin t0_4 0 1 alarm 0\nstem t0_5 0 alarm 3\nstem t0_5 1 alarm 0\npin t0_5 0 0 alarm 3\npin t0_5 0 1 alarm 0\npin t0_5 1 0 alarm 3\npin t0_5 1 1 alarm 1\nstem t0_6 0 unseen\nstem t0_6 1 alarm 0\npin t0_6 0 0 unseen\npin t0_6 0 1 alarm 1\npin t0_6 1 0 unseen\npin t0_6 1 1 alarm 0\nstem t0_7 0 alarm 3\nstem t0_7 1 alarm 0\npin t0_7 0 0 alarm 3\npin t0_7 0 1 alarm 0\npin t0_7 1 0 unseen\npin t0_7 1 1 alarm 0\nstem t0_8 0 alarm 3\nstem t0_8 1 alarm 1\npin t0_8 0 0 alarm 3\npin t0_8 0 1 alarm 1\npin t0_8 1 0 alarm 3\npin t0_8 1 1 unseen\nstem t0_9 0 alarm 1\nstem t0_9 1 alarm 3\npin t0_9 0 0 alarm 1\npin t0_9 0 1 unseen\npin t0_9 1 0 alarm 1\npin t0_9 1 1 alarm 3\nstem t0_10 0 alarm 0\nstem t0_10 1 alarm 3\npin t0_10 0 0 alarm 0\npin t0_10 0 1 alarm 3\npin t0_10 1 0 alarm 0\npin t0_10 1 1 unseen\nstem t0_11 0 alarm 0\nstem t0_11 1 alarm 3\npin t0_11 0 0 alarm 1\npin t0_11 0 1 alarm 3\npin t0_11 1 0 alarm 0\npin t0_11 1 1 alarm 3\nstem t0_12 0 alarm 0\nstem t0_12 1 alarm 1\npin t0_12 0 0 alarm 0\npin t0_12 0 1 unseen\npin t0_12 1 0 alarm 0\npin t0_12 1 1 alarm 1\nstem t0_13 0 alarm 0\nstem t0_13 1 alarm 1\npin t0_13 0 0 alarm 3\npin t0_13 0 1 alarm 1\npin t0_13 1 0 alarm 0\npin t0_13 1 1 alarm 1\nstem t0_14 0 alarm 0\nstem t0_14 1 alarm 1\npin t0_14 0 0 alarm 0\npin t0_14 0 1 alarm 1\nstem t0_15 0 unseen\nstem t0_15 1 alarm 0\npin t0_15 0 0 unseen\npin t0_15 0 1 alarm 0\npin t0_15 1 0 unseen\npin t0_15 1 1 alarm 3\nstem t0_16 0 alarm 1\nstem t0_16 1 alarm 0\npin t0_16 0 0 alarm 1\npin t0_16 0 1 alarm 3\npin t0_16 1 0 alarm 1\npin t0_16 1 1 alarm 0\nstem t0_17 0 alarm 1\nstem t0_17 1 alarm 0\npin t0_17 0 0 unseen\npin t0_17 0 1 alarm 0\npin t0_17 1 0 alarm 1\npin t0_17 1 1 alarm 0\nstem t0_18 0 alarm 1\nstem t0_18 1 alarm 0\npin t0_18 0 0 alarm 1\npin t0_18 0 1 alarm 0\nalarm 100 silent 0 unseen 12\n",
    ),
    // A copy that is made of the output: its faults are silent. What fails after it is heard.
    (
        b"grade",
        b".model m\n.inputs a b\n.outputs y r1 r2\n#tsc 1 parity\n#tsc group y p\n.names a b y\n11 1\n.names y p\n0 1\n.names y r1\n1 1\n.names p r2\n1 1\n.end\n",
        b"11\n01\n00\n",
        b"stem y 0 silent 0\nstem y 1 silent 1\npin y 0 0 silent 0\npin y 0 1 silent 1\npin y 1 0 silent 0\npin y 1 1 unseen\nstem p 0 alarm 1\nstem p 1 alarm 0\npin p 0 0 alarm 0\npin p 0 1 alarm 1\nstem r1 0 alarm 0\nstem r1 1 alarm 1\npin r1 0 0 alarm 0\npin r1 0 1 alarm 1\nstem r2 0 alarm 1\nstem r2 1 alarm 0\npin r2 0 0 alarm 1\npin r2 0 1 alarm 0\nalarm 12 silent 5 unseen 1\n",
    ),
    // The rails agree without a fault.
    (
        b"grade",
        b".model m\n.inputs a\n.outputs y r1 r2\n#tsc 1 parity\n#tsc group y p\n.names a y\n1 1\n.names a p\n0 1\n.names y r1\n1 1\n.names y r2\n1 1\n.end\n",
        b"0\n",
        b"stem y 0 alarm 0\nstem y 1 alarm 0\npin y 0 0 alarm 0\npin y 0 1 alarm 0\nstem p 0 alarm 0\nstem p 1 alarm 0\npin p 0 0 alarm 0\npin p 0 1 alarm 0\nstem r1 0 alarm 0\nstem r1 1 unseen\npin r1 0 0 alarm 0\npin r1 0 1 unseen\nstem r2 0 alarm 0\nstem r2 1 unseen\npin r2 0 0 alarm 0\npin r2 0 1 unseen\nalarm 12 silent 0 unseen 4\n",
    ),
    // No fault is listed.
    (
        b"grade",
        b".model m\n.inputs a p q r\n.outputs a q r\n#tsc 1 parity\n#tsc group a p\n.end\n",
        b"0110\n1001\n",
        b"alarm 0 silent 0 unseen 0\n",
    ),
];

/// Words without a meaning, and texts that are refused as `sim none` refuses them.
static REFUSED: [Refused; 6] = [
    (b"grade none", b"", b"", 2, USAGE),
    (b"grade 0", b"", b"", 2, USAGE),
    (b"grade", b"", b"", 3, b"tsc: no outputs\n"),
    (
        b"grade",
        b".inputs a\n.outputs y\n.names a y\n1 1\n.end\n",
        b"0\n",
        3,
        b"tsc: no plan\n",
    ),
    (
        b"grade",
        SAFE_AND2,
        b"00\n0\n",
        3,
        b"tsc: line 18: step shape\n",
    ),
    (
        b"grade",
        SAFE_WIRE,
        b"0\n2\n",
        3,
        b"tsc: line 14: step shape\n",
    ),
];

const USAGE: &[u8] = b"tsc: usage: tsc synth|ask|audit|faults|vectors|grade|sim|make|join|help\n";

#[test]
fn faults_are_graded(rt: HostRuntime) -> Result<(), Fail> {
    assert_eq!(rt; first_not_done(rt.alloc(), &GRADES)?, None);
    Ok(())
}

#[test]
fn grades_are_refused(rt: HostRuntime) -> Result<(), Fail> {
    assert_eq!(rt; first_not_refused(rt.alloc(), &REFUSED)?, None);
    Ok(())
}
