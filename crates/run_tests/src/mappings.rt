//! Runs of `audit mapped`: the answer on a netlist after another one, as it is worked out by hand, and what is refused.

use crate::audits::{Audit, first_not_audited};
use crate::runs::{Refused, first_not_refused};
use crate::texts::{AND2, SAFE_AND2, SAFE_ONE, TOGGLE, WATCHED_HELD, WATCHED_TICKED};
use std::test::Fail;

/// Netlists and mapped ones: a change of the mapped one for each answer.
static ANSWERS: [Audit; 34] = [
    // Itself.
    (b"audit mapped", SAFE_AND2, SAFE_AND2, 0, b"yes\n"),
    // A machine's netlist, itself: its plan lines are passed over.
    (b"audit mapped", TOGGLE, TOGGLE, 0, b"yes\n"),
    // Two copies of registers, itself; and with one copy's register that reads what the other's does.
    (b"audit mapped", WATCHED_TICKED, WATCHED_TICKED, 0, b"yes\n"),
    (b"audit mapped", WATCHED_HELD, WATCHED_HELD, 0, b"yes\n"),
    (
        b"audit mapped",
        WATCHED_TICKED,
        b".model ex\n.inputs clk a b\n.outputs y z t0_19 t0_23\n#tsc 1 parity\n#tsc group y t0_5\n#tsc group z t0_6\n#tsc watch p q t0_8\n.latch n1 p re clk 0\n.latch p q re clk 1\n.latch n1 t0_0 re clk 0\n.latch t0_0 t0_1 re clk 1\n.names a q n1\n11 1\n.names p b y\n1- 1\n-1 1\n.names q z\n0 1\n.names a t0_1 t0_2\n11 1\n.names t0_0 b t0_3\n1- 1\n-1 1\n.names t0_1 t0_4\n0 1\n.names t0_3 t0_5\n0 1\n.names t0_4 t0_6\n0 1\n.names t0_0 t0_1 t0_7\n10 1\n01 1\n.names t0_7 t0_8\n0 1\n.names y z t0_9\n11 1\n.names t0_5 t0_6 t0_10\n11 1\n.names t0_9 t0_10 t0_11\n1- 1\n-1 1\n.names p q t0_12\n10 1\n01 1\n.names t0_11 t0_12 t0_13\n11 1\n.names y t0_6 t0_14\n11 1\n.names t0_5 z t0_15\n11 1\n.names t0_14 t0_15 t0_16\n1- 1\n-1 1\n.names t0_16 t0_8 t0_17\n11 1\n.names t0_13 t0_17 t0_18\n1- 1\n-1 1\n.names t0_18 t0_19\n1 1\n.names t0_11 t0_8 t0_20\n11 1\n.names t0_16 t0_12 t0_21\n11 1\n.names t0_20 t0_21 t0_22\n1- 1\n-1 1\n.names t0_22 t0_23\n1 1\n.end\n",
        1,
        b"no latches\n",
    ),
    // The same clocks, without plan lines.
    (
        b"audit mapped",
        b".model d\n.inputs clk a\n.outputs y r s\n#tsc 1 parity\n#tsc group y p\n.latch a y re clk 0\n.latch a q re clk 0\n.names q p\n0 1\n.names y r\n1 1\n.names p s\n1 1\n.end\n",
        b".model d\n.inputs clk a\n.outputs y r s\n.latch a y re clk 0\n.latch a q re clk 0\n.names q p\n0 1\n.names y r\n1 1\n.names p s\n1 1\n.end\n",
        0,
        b"yes\n",
    ),
    // One latch at the other edge.
    (
        b"audit mapped",
        b".model d\n.inputs clk a\n.outputs y r s\n#tsc 1 parity\n#tsc group y p\n.latch a y re clk 0\n.latch a q re clk 0\n.names q p\n0 1\n.names y r\n1 1\n.names p s\n1 1\n.end\n",
        b".model d\n.inputs clk a\n.outputs y r s\n.latch a y re clk 0\n.latch a q fe clk 0\n.names q p\n0 1\n.names y r\n1 1\n.names p s\n1 1\n.end\n",
        1,
        b"no latches\n",
    ),
    // One latch by another net.
    (
        b"audit mapped",
        b".model d\n.inputs clk a\n.outputs y r s\n#tsc 1 parity\n#tsc group y p\n.latch a y re clk 0\n.latch a q re clk 0\n.names q p\n0 1\n.names y r\n1 1\n.names p s\n1 1\n.end\n",
        b".model d\n.inputs clk a\n.outputs y r s\n.latch a y re a 0\n.latch a q re clk 0\n.names q p\n0 1\n.names y r\n1 1\n.names p s\n1 1\n.end\n",
        1,
        b"no latches\n",
    ),
    // A mapped netlist without clocks, and one with a clock at one latch, the other one's.
    (
        b"audit mapped",
        b".model d\n.inputs clk a\n.outputs y r s\n#tsc 1 parity\n#tsc group y p\n.latch a y re clk 0\n.latch a q re clk 0\n.names q p\n0 1\n.names y r\n1 1\n.names p s\n1 1\n.end\n",
        b".model d\n.inputs clk a\n.outputs y r s\n.latch a y 0\n.latch a q 0\n.names q p\n0 1\n.names y r\n1 1\n.names p s\n1 1\n.end\n",
        0,
        b"yes\n",
    ),
    (
        b"audit mapped",
        b".model d\n.inputs clk a\n.outputs y r s\n#tsc 1 parity\n#tsc group y p\n.latch a y re clk 0\n.latch a q re clk 0\n.names q p\n0 1\n.names y r\n1 1\n.names p s\n1 1\n.end\n",
        b".model d\n.inputs clk a\n.outputs y r s\n.latch a y 0\n.latch a q re clk 0\n.names q p\n0 1\n.names y r\n1 1\n.names p s\n1 1\n.end\n",
        0,
        b"yes\n",
    ),
    // Clocks in the mapped one alone.
    (
        b"audit mapped",
        b".model d\n.inputs clk a\n.outputs y r s\n#tsc 1 parity\n#tsc group y p\n.latch a y 0\n.latch a q 0\n.names q p\n0 1\n.names y r\n1 1\n.names p s\n1 1\n.end\n",
        b".model d\n.inputs clk a\n.outputs y r s\n.latch a y re clk 0\n.latch a q fe a 0\n.names q p\n0 1\n.names y r\n1 1\n.names p s\n1 1\n.end\n",
        0,
        b"yes\n",
    ),
    // Another clock comes after other inputs, and before other outputs.
    (
        b"audit mapped",
        b".model d\n.inputs clk a\n.outputs y r s\n#tsc 1 parity\n#tsc group y p\n.latch a y re clk 0\n.latch a q re clk 0\n.names q p\n0 1\n.names y r\n1 1\n.names p s\n1 1\n.end\n",
        b".model d\n.inputs a clk\n.outputs y r s\n.latch a y re clk 0\n.latch a q fe clk 0\n.names q p\n0 1\n.names y r\n1 1\n.names p s\n1 1\n.end\n",
        1,
        b"no inputs\n",
    ),
    (
        b"audit mapped",
        b".model d\n.inputs clk a\n.outputs y r s\n#tsc 1 parity\n#tsc group y p\n.latch a y re clk 0\n.latch a q re clk 0\n.names q p\n0 1\n.names y r\n1 1\n.names p s\n1 1\n.end\n",
        b".model d\n.inputs clk a\n.outputs y s r\n.latch a y re clk 0\n.latch a q fe clk 0\n.names q p\n0 1\n.names y r\n1 1\n.names p s\n1 1\n.end\n",
        1,
        b"no latches\n",
    ),
    // Another order, without plan lines; an and as two gates, a repeater as two inverters.
    (
        b"audit mapped",
        SAFE_AND2,
        b".inputs a b\n.outputs y t0_2 t0_3\n.names m y\n0 1\n.names k t0_3\n0 1\n.names a b m\n11 0\n.names a b t0_0\n11 1\n.names t0_0 t0_1\n0 1\n.names t0_1 k\n0 1\n.names y t0_2\n1 1\n.end\n",
        0,
        b"yes\n",
    ),
    // Gates that nothing reads, and one that only these read.
    (
        b"audit mapped",
        SAFE_AND2,
        b".inputs a b\n.outputs y t0_2 t0_3\n.names a b y\n11 1\n.names a b t0_0\n11 1\n.names t0_0 t0_1\n0 1\n.names y t0_2\n1 1\n.names t0_1 t0_3\n1 1\n.names a t0_0 m\n11 1\n.names m y k\n01 1\n.end\n",
        0,
        b"yes\n",
    ),
    // Inputs in another order.
    (
        b"audit mapped",
        SAFE_AND2,
        b".inputs b a\n.outputs y t0_2 t0_3\n.names a b y\n11 1\n.names a b t0_0\n11 1\n.names t0_0 t0_1\n0 1\n.names y t0_2\n1 1\n.names t0_1 t0_3\n1 1\n.end\n",
        1,
        b"no inputs\n",
    ),
    // First bits exchanged.
    (
        b"audit mapped",
        TOGGLE,
        b".model machine\n.inputs i0\n.outputs o0 t0_5 t0_6\n#tsc 2 mofn\n#tsc check t0_4\n#tsc state 01\n#tsc state 10\n.latch t0_2 t0_0 1\n.latch t0_3 t0_1 0\n.names i0 t0_7\n0 1\n.names t0_1 i0 t0_8\n11 1\n.names t0_0 i0 t0_9\n11 1\n.names t0_1 t0_7 t0_10\n11 1\n.names t0_0 t0_7 t0_11\n11 1\n.names t0_8 t0_9 o0\n1- 1\n-1 1\n.names t0_8 t0_11 t0_2\n1- 1\n-1 1\n.names t0_10 t0_9 t0_3\n1- 1\n-1 1\n.names t0_10 t0_11 t0_4\n1- 1\n-1 1\n.names o0 t0_2 t0_12\n11 1\n.names t0_4 t0_3 t0_13\n11 1\n.names t0_12 t0_13 t0_14\n1- 1\n-1 1\n.names t0_14 t0_5\n1 1\n.names o0 t0_3 t0_15\n11 1\n.names t0_4 t0_2 t0_16\n11 1\n.names t0_15 t0_16 t0_17\n1- 1\n-1 1\n.names t0_17 t0_6\n1 1\n.end\n",
        1,
        b"no latches\n",
    ),
    // Rails exchanged.
    (
        b"audit mapped",
        SAFE_AND2,
        b".inputs a b\n.outputs y t0_3 t0_2\n.names a b y\n11 1\n.names a b t0_0\n11 1\n.names t0_0 t0_1\n0 1\n.names y t0_2\n1 1\n.names t0_1 t0_3\n1 1\n.end\n",
        1,
        b"no outputs\n",
    ),
    // The copy has another name.
    (
        b"audit mapped",
        SAFE_AND2,
        b".inputs a b\n.outputs y t0_2 t0_3\n.names a b y\n11 1\n.names a b u\n11 1\n.names u t0_1\n0 1\n.names y t0_2\n1 1\n.names t0_1 t0_3\n1 1\n.end\n",
        1,
        b"no net t0_0\n",
    ),
    // An and that two blocks share.
    (
        b"audit mapped",
        SAFE_AND2,
        b".inputs a b\n.outputs y t0_2 t0_3\n.names a b m\n11 0\n.names m y\n0 1\n.names m t0_0\n0 1\n.names t0_0 t0_1\n0 1\n.names y t0_2\n1 1\n.names t0_1 t0_3\n1 1\n.end\n",
        1,
        b"no block m\n",
    ),
    // Two such gates, the later of which leads to the first by another.
    (
        b"audit mapped",
        SAFE_AND2,
        b".inputs a b\n.outputs y t0_2 t0_3\n.names a b m\n11 1\n.names m k\n0 1\n.names k y\n0 1\n.names k t0_0\n0 1\n.names t0_0 t0_1\n0 1\n.names y t0_2\n1 1\n.names t0_1 t0_3\n1 1\n.end\n",
        1,
        b"no block k\n",
    ),
    // A rail that reads the copy in the place of the check.
    (
        b"audit mapped",
        SAFE_AND2,
        b".inputs a b\n.outputs y t0_2 t0_3\n.names a b y\n11 1\n.names a b t0_0\n11 1\n.names t0_0 t0_1\n0 1\n.names y t0_2\n1 1\n.names t0_0 t0_3\n0 1\n.end\n",
        1,
        b"no pin t0_3 0\n",
    ),
    // A copy with a third pin, at the output, which is masked.
    (
        b"audit mapped",
        SAFE_AND2,
        b".inputs a b\n.outputs y t0_2 t0_3\n.names a b y\n11 1\n.names a b y t0_0\n11- 1\n.names t0_0 t0_1\n0 1\n.names y t0_2\n1 1\n.names t0_1 t0_3\n1 1\n.end\n",
        1,
        b"no pin t0_0 2\n",
    ),
    // An output behind its cover, which the rail reads.
    (
        b"audit mapped",
        SAFE_AND2,
        b".inputs a b\n.outputs y t0_2 t0_3\n.names a b m\n11 1\n.names m y\n1 1\n.names a b t0_0\n11 1\n.names t0_0 t0_1\n0 1\n.names m t0_2\n1 1\n.names t0_1 t0_3\n1 1\n.end\n",
        1,
        b"no block m\n",
    ),
    // An or for the and.
    (
        b"audit mapped",
        SAFE_AND2,
        b".inputs a b\n.outputs y t0_2 t0_3\n.names a b y\n1- 1\n-1 1\n.names a b t0_0\n11 1\n.names t0_0 t0_1\n0 1\n.names y t0_2\n1 1\n.names t0_1 t0_3\n1 1\n.end\n",
        1,
        b"no cover y 01\n",
    ),
    // Wrong on one value, with its pins exchanged.
    (
        b"audit mapped",
        SAFE_AND2,
        b".inputs a b\n.outputs y t0_2 t0_3\n.names b a y\n11 1\n01 1\n.names a b t0_0\n11 1\n.names t0_0 t0_1\n0 1\n.names y t0_2\n1 1\n.names t0_1 t0_3\n1 1\n.end\n",
        1,
        b"no cover y 10\n",
    ),
    // Wrong on the last value alone.
    (
        b"audit mapped",
        SAFE_AND2,
        b".inputs a b\n.outputs y t0_2 t0_3\n.names y\n.names a b t0_0\n11 1\n.names t0_0 t0_1\n0 1\n.names y t0_2\n1 1\n.names t0_1 t0_3\n1 1\n.end\n",
        1,
        b"no cover y 11\n",
    ),
    // Two blocks that are wrong: the first node comes first, not the first gate.
    (
        b"audit mapped",
        SAFE_AND2,
        b".inputs a b\n.outputs y t0_2 t0_3\n.names t0_1 t0_3\n0 1\n.names y t0_2\n1 1\n.names t0_0 t0_1\n1 1\n.names a b t0_0\n11 1\n.names a b y\n11 1\n.end\n",
        1,
        b"no cover t0_1 0\n",
    ),
    // A wrong constant.
    (
        b"audit mapped",
        SAFE_ONE,
        b".inputs\n.outputs y t0_2 t0_3\n.names y\n.names t0_0\n1\n.names t0_0 t0_1\n0 1\n.names y t0_2\n1 1\n.names t0_1 t0_3\n1 1\n.end\n",
        1,
        b"no cover y .\n",
    ),
    // No node and no gate.
    (
        b"audit mapped",
        b".inputs a b c\n.outputs a b c\n#tsc 1 parity\n#tsc group a a\n.end\n",
        b".inputs a b c\n.outputs a b c\n.end\n",
        0,
        b"yes\n",
    ),
    // No node, and gates.
    (
        b"audit mapped",
        b".inputs a b c\n.outputs a b c\n#tsc 1 parity\n#tsc group a a\n.end\n",
        b".inputs a b c\n.outputs a b c\n.names d\n.names a e\n1 1\n.end\n",
        1,
        b"no block d\n",
    ),
    // A cover of 20 pins as two gates.
    (
        b"audit mapped",
        b".inputs i0 i1 i2 i3 i4 i5 i6 i7 i8 i9 i10 i11 i12 i13 i14 i15 i16 i17 i18 i19\n.outputs y r s\n#tsc 1 parity\n#tsc group y p\n.names i0 i1 i2 i3 i4 i5 i6 i7 i8 i9 i10 i11 i12 i13 i14 i15 i16 i17 i18 i19 y\n11111111111111111111 1\n.names p\n1\n.names y r\n1 1\n.names p s\n1 1\n.end\n",
        b".inputs i0 i1 i2 i3 i4 i5 i6 i7 i8 i9 i10 i11 i12 i13 i14 i15 i16 i17 i18 i19\n.outputs y r s\n.names i0 i1 i2 i3 i4 i5 i6 i7 i8 i9 i10 i11 i12 i13 i14 i15 i16 i17 i18 m\n1111111111111111111 1\n.names m i19 y\n11 1\n.names p\n1\n.names y r\n1 1\n.names p s\n1 1\n.end\n",
        0,
        b"yes\n",
    ),
    // A cover of 21 pins as the very gate.
    (
        b"audit mapped",
        b".inputs i0 i1 i2 i3 i4 i5 i6 i7 i8 i9 i10 i11 i12 i13 i14 i15 i16 i17 i18 i19 i20\n.outputs y r s\n#tsc 1 parity\n#tsc group y p\n.names i0 i1 i2 i3 i4 i5 i6 i7 i8 i9 i10 i11 i12 i13 i14 i15 i16 i17 i18 i19 i20 y\n111111111111111111111 1\n.names p\n1\n.names y r\n1 1\n.names p s\n1 1\n.end\n",
        b".inputs i0 i1 i2 i3 i4 i5 i6 i7 i8 i9 i10 i11 i12 i13 i14 i15 i16 i17 i18 i19 i20\n.outputs y r s\n#tsc 1 parity\n#tsc group y p\n.names i0 i1 i2 i3 i4 i5 i6 i7 i8 i9 i10 i11 i12 i13 i14 i15 i16 i17 i18 i19 i20 y\n111111111111111111111 1\n.names p\n1\n.names y r\n1 1\n.names p s\n1 1\n.end\n",
        0,
        b"yes\n",
    ),
    // A pin that is nowhere in such a cover comes before its limit.
    (
        b"audit mapped",
        b".inputs i0 i1 i2 i3 i4 i5 i6 i7 i8 i9 i10 i11 i12 i13 i14 i15 i16 i17 i18 i19 i20\n.outputs y r s\n#tsc 1 parity\n#tsc group y p\n.names i0 i1 i2 i3 i4 i5 i6 i7 i8 i9 i10 i11 i12 i13 i14 i15 i16 i17 i18 i19 i20 y\n111111111111111111111 1\n.names p\n1\n.names y r\n1 1\n.names p s\n1 1\n.end\n",
        b".inputs i0 i1 i2 i3 i4 i5 i6 i7 i8 i9 i10 i11 i12 i13 i14 i15 i16 i17 i18 i19 i20\n.outputs y r s\n.names i0 i1 i2 i3 i4 i5 i6 i7 i8 i9 i10 i11 i12 i13 i14 i15 i16 i17 i18 i19 m\n11111111111111111111 1\n.names m p y\n11 1\n.names p\n1\n.names y r\n1 1\n.names p s\n1 1\n.end\n",
        1,
        b"no pin y 1\n",
    ),
];

#[test]
fn mapped_netlists_are_audited(rt: HostRuntime) -> Result<(), Fail> {
    assert_eq!(rt; first_not_audited(rt.alloc(), &ANSWERS)?, None);
    Ok(())
}

/// Texts that have no answer, and words without a meaning.
static REFUSED: [Refused; 9] = [
    // Nothing behind the netlist.
    (b"audit mapped", SAFE_AND2, b"", 3, b"tsc: no netlist\n"),
    // A source in front.
    (b"audit mapped", AND2, SAFE_AND2, 3, b"tsc: no plan\n"),
    // What is refused of the mapped one.
    (
        b"audit mapped",
        SAFE_AND2,
        b".inputs a b\n.outputs y t0_2 t0_3\n.gate nand2 A=a B=b Y=y\n.end\n",
        3,
        b"tsc: line 19: unsupported\n",
    ),
    // Its names.
    (
        b"audit mapped",
        SAFE_AND2,
        b".inputs a b\n.outputs y t0_2 t0_3\n.names a b y\n11 1\n.names a b t0_0\n11 1\n.names t0_0 t0_1\n0 1\n.names y t0_2\n1 1\n.end\n",
        3,
        b"tsc: undriven: t0_3\n",
    ),
    // A ring in it.
    (
        b"audit mapped",
        SAFE_AND2,
        b".inputs a b\n.outputs y t0_2 t0_3\n.names m y\n0 1\n.names y a b m\n011 1\n.names a b t0_0\n11 1\n.names t0_0 t0_1\n0 1\n.names y t0_2\n1 1\n.names t0_1 t0_3\n1 1\n.end\n",
        3,
        b"tsc: cycle: y m\n",
    ),
    // A third netlist.
    (
        b"audit mapped",
        SAFE_AND2,
        b".model and2\n.inputs a b\n.outputs y t0_2 t0_3\n#tsc 1 parity\n#tsc group y t0_1\n.names a b y\n11 1\n.names a b t0_0\n11 1\n.names t0_0 t0_1\n0 1\n.names y t0_2\n1 1\n.names t0_1 t0_3\n1 1\n.end\n.model and2\n.inputs a b\n.outputs y t0_2 t0_3\n#tsc 1 parity\n#tsc group y t0_1\n.names a b y\n11 1\n.names a b t0_0\n11 1\n.names t0_0 t0_1\n0 1\n.names y t0_2\n1 1\n.names t0_1 t0_3\n1 1\n.end\n",
        3,
        b"tsc: line 33: after the end\n",
    ),
    // A cover of 21 pins as two gates.
    (
        b"audit mapped",
        b".inputs i0 i1 i2 i3 i4 i5 i6 i7 i8 i9 i10 i11 i12 i13 i14 i15 i16 i17 i18 i19 i20\n.outputs y r s\n#tsc 1 parity\n#tsc group y p\n.names i0 i1 i2 i3 i4 i5 i6 i7 i8 i9 i10 i11 i12 i13 i14 i15 i16 i17 i18 i19 i20 y\n111111111111111111111 1\n.names p\n1\n.names y r\n1 1\n.names p s\n1 1\n.end\n",
        b".inputs i0 i1 i2 i3 i4 i5 i6 i7 i8 i9 i10 i11 i12 i13 i14 i15 i16 i17 i18 i19 i20\n.outputs y r s\n.names i0 i1 i2 i3 i4 i5 i6 i7 i8 i9 i10 i11 i12 i13 i14 i15 i16 i17 i18 i19 m\n11111111111111111111 1\n.names m i20 y\n11 1\n.names p\n1\n.names y r\n1 1\n.names p s\n1 1\n.end\n",
        4,
        b"tsc: limit: 20 pins\n",
    ),
    (
        b"audit mapped blif",
        SAFE_AND2,
        SAFE_AND2,
        2,
        b"tsc: usage: tsc synth|ask|audit|faults|vectors|grade|sim|make|join|help\n",
    ),
    (
        b"mapped",
        SAFE_AND2,
        SAFE_AND2,
        2,
        b"tsc: usage: tsc synth|ask|audit|faults|vectors|grade|sim|make|join|help\n",
    ),
];

#[test]
fn mapped_netlists_are_refused(rt: HostRuntime) -> Result<(), Fail> {
    assert_eq!(rt; first_not_refused(rt.alloc(), &REFUSED)?, None);
    Ok(())
}
