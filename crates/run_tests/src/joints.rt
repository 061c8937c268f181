//! Runs of `join`: netlists one after another, and their joint. The worked example is stated; the others were worked out by another program.

use crate::runs::{
    Done, NO_FAULTS, Refused, after_run, ends, first_not_done, first_not_refused, joined,
};
use crate::texts::{AND2, DUPLEX_TICKED, SAFE_AND2, SAFE_WIRE, TOGGLE, WATCHED_HELD};
use std::alloc::{AllocError, Global};
use std::test::Fail;
use tsc_io::Bytes;
use tsc_text::push_number;

/// Netlists and their joint.
static JOINED: [Done; 9] = [
    // The and gate and the wire: an output that is an input stands once, and each net but the inputs has its part's number.
    (
        b"join",
        SAFE_AND2,
        SAFE_WIRE,
        b".model joint\n.inputs a b\n.outputs p0_0_y a p0_t3 p0_t7\n.names a b p0_0_y\n11 1\n.names a b p0_0_t0_0\n11 1\n.names p0_0_t0_0 p0_0_t0_1\n0 1\n.names p0_0_y p0_0_t0_2\n1 1\n.names p0_0_t0_1 p0_0_t0_3\n1 1\n.names a p0_1_t0_0\n0 1\n.names a p0_1_t0_1\n1 1\n.names p0_1_t0_0 p0_1_t0_2\n1 1\n.names p0_0_t0_2 p0_1_t0_1 p0_t0\n11 1\n.names p0_0_t0_3 p0_1_t0_2 p0_t1\n11 1\n.names p0_t0 p0_t1 p0_t2\n1- 1\n-1 1\n.names p0_t2 p0_t3\n1 1\n.names p0_0_t0_2 p0_1_t0_2 p0_t4\n11 1\n.names p0_0_t0_3 p0_1_t0_1 p0_t5\n11 1\n.names p0_t4 p0_t5 p0_t6\n1- 1\n-1 1\n.names p0_t6 p0_t7\n1 1\n.end\n",
    ),
    // One netlist, without an end line: its rails have a buffer each.
    (
        b"join",
        b".model w\n.inputs a\n.outputs a t0_1 t0_2\n#tsc 1 parity\n#tsc group a t0_0\n.names a t0_0\n0 1\n.names a t0_1\n1 1\n.names t0_0 t0_2\n1 1\n",
        b"",
        b".model joint\n.inputs a\n.outputs a p0_t0 p0_t1\n.names a p0_0_t0_0\n0 1\n.names a p0_0_t0_1\n1 1\n.names p0_0_t0_0 p0_0_t0_2\n1 1\n.names p0_0_t0_1 p0_t0\n1 1\n.names p0_0_t0_2 p0_t1\n1 1\n.end\n",
    ),
    // A machine and a network: the latches stand before all nodes.
    (
        b"join",
        TOGGLE,
        SAFE_AND2,
        b".model joint\n.inputs i0 a b\n.outputs p0_0_o0 p0_1_y p0_t3 p0_t7\n.latch p0_0_t0_2 p0_0_t0_0 0\n.latch p0_0_t0_3 p0_0_t0_1 1\n.names i0 p0_0_t0_7\n0 1\n.names p0_0_t0_1 i0 p0_0_t0_8\n11 1\n.names p0_0_t0_0 i0 p0_0_t0_9\n11 1\n.names p0_0_t0_1 p0_0_t0_7 p0_0_t0_10\n11 1\n.names p0_0_t0_0 p0_0_t0_7 p0_0_t0_11\n11 1\n.names p0_0_t0_8 p0_0_t0_9 p0_0_o0\n1- 1\n-1 1\n.names p0_0_t0_8 p0_0_t0_11 p0_0_t0_2\n1- 1\n-1 1\n.names p0_0_t0_10 p0_0_t0_9 p0_0_t0_3\n1- 1\n-1 1\n.names p0_0_t0_10 p0_0_t0_11 p0_0_t0_4\n1- 1\n-1 1\n.names p0_0_o0 p0_0_t0_2 p0_0_t0_12\n11 1\n.names p0_0_t0_4 p0_0_t0_3 p0_0_t0_13\n11 1\n.names p0_0_t0_12 p0_0_t0_13 p0_0_t0_14\n1- 1\n-1 1\n.names p0_0_t0_14 p0_0_t0_5\n1 1\n.names p0_0_o0 p0_0_t0_3 p0_0_t0_15\n11 1\n.names p0_0_t0_4 p0_0_t0_2 p0_0_t0_16\n11 1\n.names p0_0_t0_15 p0_0_t0_16 p0_0_t0_17\n1- 1\n-1 1\n.names p0_0_t0_17 p0_0_t0_6\n1 1\n.names a b p0_1_y\n11 1\n.names a b p0_1_t0_0\n11 1\n.names p0_1_t0_0 p0_1_t0_1\n0 1\n.names p0_1_y p0_1_t0_2\n1 1\n.names p0_1_t0_1 p0_1_t0_3\n1 1\n.names p0_0_t0_5 p0_1_t0_2 p0_t0\n11 1\n.names p0_0_t0_6 p0_1_t0_3 p0_t1\n11 1\n.names p0_t0 p0_t1 p0_t2\n1- 1\n-1 1\n.names p0_t2 p0_t3\n1 1\n.names p0_0_t0_5 p0_1_t0_3 p0_t4\n11 1\n.names p0_0_t0_6 p0_1_t0_2 p0_t5\n11 1\n.names p0_t4 p0_t5 p0_t6\n1- 1\n-1 1\n.names p0_t6 p0_t7\n1 1\n.end\n",
    ),
    // Three netlists, of which the last has no inputs: an odd pair passes on.
    (
        b"join",
        SAFE_AND2,
        b".model w\n.inputs a\n.outputs a t0_1 t0_2\n#tsc 1 parity\n#tsc group a t0_0\n.names a t0_0\n0 1\n.names a t0_1\n1 1\n.names t0_0 t0_2\n1 1\n.end\n.model model\n.inputs\n.outputs y t0_2 t0_3\n#tsc 1 parity\n#tsc group y t0_1\n.names y\n1\n.names t0_0\n1\n.names t0_0 t0_1\n0 1\n.names y t0_2\n1 1\n.names t0_1 t0_3\n1 1\n.end\n",
        b".model joint\n.inputs a b\n.outputs p0_0_y a p0_2_y p0_t9 p0_t13\n.names a b p0_0_y\n11 1\n.names a b p0_0_t0_0\n11 1\n.names p0_0_t0_0 p0_0_t0_1\n0 1\n.names p0_0_y p0_0_t0_2\n1 1\n.names p0_0_t0_1 p0_0_t0_3\n1 1\n.names a p0_1_t0_0\n0 1\n.names a p0_1_t0_1\n1 1\n.names p0_1_t0_0 p0_1_t0_2\n1 1\n.names p0_2_y\n1\n.names p0_2_t0_0\n1\n.names p0_2_t0_0 p0_2_t0_1\n0 1\n.names p0_2_y p0_2_t0_2\n1 1\n.names p0_2_t0_1 p0_2_t0_3\n1 1\n.names p0_0_t0_2 p0_1_t0_1 p0_t0\n11 1\n.names p0_0_t0_3 p0_1_t0_2 p0_t1\n11 1\n.names p0_t0 p0_t1 p0_t2\n1- 1\n-1 1\n.names p0_t2 p0_2_t0_2 p0_t3\n11 1\n.names p0_0_t0_2 p0_1_t0_2 p0_t4\n11 1\n.names p0_0_t0_3 p0_1_t0_1 p0_t5\n11 1\n.names p0_t4 p0_t5 p0_t6\n1- 1\n-1 1\n.names p0_t6 p0_2_t0_3 p0_t7\n11 1\n.names p0_t3 p0_t7 p0_t8\n1- 1\n-1 1\n.names p0_t8 p0_t9\n1 1\n.names p0_t2 p0_2_t0_3 p0_t10\n11 1\n.names p0_t6 p0_2_t0_2 p0_t11\n11 1\n.names p0_t10 p0_t11 p0_t12\n1- 1\n-1 1\n.names p0_t12 p0_t13\n1 1\n.end\n",
    ),
    // An input that begins with `p0_`, a rail that is an input, and an input with the name of another netlist's output, to which it isn't joined.
    (
        b"join",
        b".inputs p0_a b\n.outputs y b r\n#tsc 1 parity\n#tsc group y p\n.names p0_a b y\n11 1\n.names p0_a b p\n11 0\n.names b r\n0 1\n.end\n",
        b".inputs y\n.outputs y r s\n#tsc 1 parity\n#tsc group y p\n.names y p\n0 1\n.names y r\n1 1\n.names p s\n1 1\n.end\n",
        b".model joint\n.inputs p0_a b y\n.outputs p1_0_y y p1_t3 p1_t7\n.names p0_a b p1_0_y\n11 1\n.names p0_a b p1_0_p\n11 0\n.names b p1_0_r\n0 1\n.names y p1_1_p\n0 1\n.names y p1_1_r\n1 1\n.names p1_1_p p1_1_s\n1 1\n.names b p1_1_r p1_t0\n11 1\n.names p1_0_r p1_1_s p1_t1\n11 1\n.names p1_t0 p1_t1 p1_t2\n1- 1\n-1 1\n.names p1_t2 p1_t3\n1 1\n.names b p1_1_s p1_t4\n11 1\n.names p1_0_r p1_1_r p1_t5\n11 1\n.names p1_t4 p1_t5 p1_t6\n1- 1\n-1 1\n.names p1_t6 p1_t7\n1 1\n.end\n",
    ),
    // A comment behind the last end line.
    (
        b"join",
        SAFE_AND2,
        b"# no netlist\n\n",
        b".model joint\n.inputs a b\n.outputs p0_0_y p0_t0 p0_t1\n.names a b p0_0_y\n11 1\n.names a b p0_0_t0_0\n11 1\n.names p0_0_t0_0 p0_0_t0_1\n0 1\n.names p0_0_y p0_0_t0_2\n1 1\n.names p0_0_t0_1 p0_0_t0_3\n1 1\n.names p0_0_t0_2 p0_t0\n1 1\n.names p0_0_t0_3 p0_t1\n1 1\n.end\n",
    ),
    // A source with registers and a clock, and a network.
    (
        b"join",
        DUPLEX_TICKED,
        SAFE_AND2,
        b".model joint\n.inputs clk a b\n.outputs p0_0_y p0_0_z p0_1_y p0_t3 p0_t7\n.latch p0_0_n1 p0_0_p re clk 0\n.latch p0_0_p p0_0_q re clk 1\n.latch p0_0_t0_2 p0_0_t0_0 re clk 0\n.latch p0_0_t0_0 p0_0_t0_1 re clk 1\n.names a p0_0_q p0_0_n1\n11 1\n.names p0_0_p b p0_0_y\n1- 1\n-1 1\n.names p0_0_q p0_0_z\n0 1\n.names a p0_0_t0_1 p0_0_t0_2\n11 1\n.names p0_0_t0_0 b p0_0_t0_3\n1- 1\n-1 1\n.names p0_0_t0_1 p0_0_t0_4\n0 1\n.names p0_0_t0_3 p0_0_t0_5\n0 1\n.names p0_0_t0_4 p0_0_t0_6\n0 1\n.names p0_0_y p0_0_z p0_0_t0_7\n11 1\n.names p0_0_t0_5 p0_0_t0_6 p0_0_t0_8\n11 1\n.names p0_0_t0_7 p0_0_t0_8 p0_0_t0_9\n1- 1\n-1 1\n.names p0_0_t0_9 p0_0_t0_10\n1 1\n.names p0_0_y p0_0_t0_6 p0_0_t0_11\n11 1\n.names p0_0_t0_5 p0_0_z p0_0_t0_12\n11 1\n.names p0_0_t0_11 p0_0_t0_12 p0_0_t0_13\n1- 1\n-1 1\n.names p0_0_t0_13 p0_0_t0_14\n1 1\n.names a b p0_1_y\n11 1\n.names a b p0_1_t0_0\n11 1\n.names p0_1_t0_0 p0_1_t0_1\n0 1\n.names p0_1_y p0_1_t0_2\n1 1\n.names p0_1_t0_1 p0_1_t0_3\n1 1\n.names p0_0_t0_10 p0_1_t0_2 p0_t0\n11 1\n.names p0_0_t0_14 p0_1_t0_3 p0_t1\n11 1\n.names p0_t0 p0_t1 p0_t2\n1- 1\n-1 1\n.names p0_t2 p0_t3\n1 1\n.names p0_0_t0_10 p0_1_t0_3 p0_t4\n11 1\n.names p0_0_t0_14 p0_1_t0_2 p0_t5\n11 1\n.names p0_t4 p0_t5 p0_t6\n1- 1\n-1 1\n.names p0_t6 p0_t7\n1 1\n.end\n",
    ),
    // Registers without a clock, and their watch, before others with one: all have that one.
    (
        b"join",
        WATCHED_HELD,
        DUPLEX_TICKED,
        b".model joint\n.inputs a clk b\n.outputs p0_0_p p0_0_n p0_1_y p0_1_z p0_t3 p0_t7\n.latch p0_0_n p0_0_p re clk 0\n.latch p0_0_t0_1 p0_0_t0_0 re clk 0\n.latch p0_1_n1 p0_1_p re clk 0\n.latch p0_1_p p0_1_q re clk 1\n.latch p0_1_t0_2 p0_1_t0_0 re clk 0\n.latch p0_1_t0_0 p0_1_t0_1 re clk 1\n.names a p0_0_p p0_0_n\n11 0\n.names a p0_0_t0_0 p0_0_t0_1\n11 0\n.names p0_0_t0_0 p0_0_t0_2\n0 1\n.names p0_0_t0_1 p0_0_t0_3\n0 1\n.names p0_0_t0_0 p0_0_t0_4\n0 1\n.names p0_0_p p0_0_n p0_0_t0_5\n11 1\n.names p0_0_t0_2 p0_0_t0_3 p0_0_t0_6\n11 1\n.names p0_0_t0_5 p0_0_t0_6 p0_0_t0_7\n1- 1\n-1 1\n.names p0_0_t0_7 p0_0_p p0_0_t0_8\n11 1\n.names p0_0_p p0_0_t0_3 p0_0_t0_9\n11 1\n.names p0_0_t0_2 p0_0_n p0_0_t0_10\n11 1\n.names p0_0_t0_9 p0_0_t0_10 p0_0_t0_11\n1- 1\n-1 1\n.names p0_0_t0_11 p0_0_t0_4 p0_0_t0_12\n11 1\n.names p0_0_t0_8 p0_0_t0_12 p0_0_t0_13\n1- 1\n-1 1\n.names p0_0_t0_13 p0_0_t0_14\n1 1\n.names p0_0_t0_7 p0_0_t0_4 p0_0_t0_15\n11 1\n.names p0_0_t0_11 p0_0_p p0_0_t0_16\n11 1\n.names p0_0_t0_15 p0_0_t0_16 p0_0_t0_17\n1- 1\n-1 1\n.names p0_0_t0_17 p0_0_t0_18\n1 1\n.names a p0_1_q p0_1_n1\n11 1\n.names p0_1_p b p0_1_y\n1- 1\n-1 1\n.names p0_1_q p0_1_z\n0 1\n.names a p0_1_t0_1 p0_1_t0_2\n11 1\n.names p0_1_t0_0 b p0_1_t0_3\n1- 1\n-1 1\n.names p0_1_t0_1 p0_1_t0_4\n0 1\n.names p0_1_t0_3 p0_1_t0_5\n0 1\n.names p0_1_t0_4 p0_1_t0_6\n0 1\n.names p0_1_y p0_1_z p0_1_t0_7\n11 1\n.names p0_1_t0_5 p0_1_t0_6 p0_1_t0_8\n11 1\n.names p0_1_t0_7 p0_1_t0_8 p0_1_t0_9\n1- 1\n-1 1\n.names p0_1_t0_9 p0_1_t0_10\n1 1\n.names p0_1_y p0_1_t0_6 p0_1_t0_11\n11 1\n.names p0_1_t0_5 p0_1_z p0_1_t0_12\n11 1\n.names p0_1_t0_11 p0_1_t0_12 p0_1_t0_13\n1- 1\n-1 1\n.names p0_1_t0_13 p0_1_t0_14\n1 1\n.names p0_0_t0_14 p0_1_t0_10 p0_t0\n11 1\n.names p0_0_t0_18 p0_1_t0_14 p0_t1\n11 1\n.names p0_t0 p0_t1 p0_t2\n1- 1\n-1 1\n.names p0_t2 p0_t3\n1 1\n.names p0_0_t0_14 p0_1_t0_14 p0_t4\n11 1\n.names p0_0_t0_18 p0_1_t0_10 p0_t5\n11 1\n.names p0_t4 p0_t5 p0_t6\n1- 1\n-1 1\n.names p0_t6 p0_t7\n1 1\n.end\n",
    ),
    // A control that is no net and begins with `p0_`.
    (
        b"join",
        b".model ex\n.inputs a b\n.outputs y z t0_10 t0_14\n#tsc 1 parity\n#tsc group y t0_5\n#tsc group z t0_6\n.latch n1 p re p0_1_n1 0\n.latch p q re p0_1_n1 1\n.latch t0_2 t0_0 re p0_1_n1 0\n.latch t0_0 t0_1 re p0_1_n1 1\n.names a q n1\n11 1\n.names p b y\n1- 1\n-1 1\n.names q z\n0 1\n.names a t0_1 t0_2\n11 1\n.names t0_0 b t0_3\n1- 1\n-1 1\n.names t0_1 t0_4\n0 1\n.names t0_3 t0_5\n0 1\n.names t0_4 t0_6\n0 1\n.names y z t0_7\n11 1\n.names t0_5 t0_6 t0_8\n11 1\n.names t0_7 t0_8 t0_9\n1- 1\n-1 1\n.names t0_9 t0_10\n1 1\n.names y t0_6 t0_11\n11 1\n.names t0_5 z t0_12\n11 1\n.names t0_11 t0_12 t0_13\n1- 1\n-1 1\n.names t0_13 t0_14\n1 1\n.end\n",
        SAFE_AND2,
        b".model joint\n.inputs a b\n.outputs p1_0_y p1_0_z p1_1_y p1_t3 p1_t7\n.latch p1_0_n1 p1_0_p re p0_1_n1 0\n.latch p1_0_p p1_0_q re p0_1_n1 1\n.latch p1_0_t0_2 p1_0_t0_0 re p0_1_n1 0\n.latch p1_0_t0_0 p1_0_t0_1 re p0_1_n1 1\n.names a p1_0_q p1_0_n1\n11 1\n.names p1_0_p b p1_0_y\n1- 1\n-1 1\n.names p1_0_q p1_0_z\n0 1\n.names a p1_0_t0_1 p1_0_t0_2\n11 1\n.names p1_0_t0_0 b p1_0_t0_3\n1- 1\n-1 1\n.names p1_0_t0_1 p1_0_t0_4\n0 1\n.names p1_0_t0_3 p1_0_t0_5\n0 1\n.names p1_0_t0_4 p1_0_t0_6\n0 1\n.names p1_0_y p1_0_z p1_0_t0_7\n11 1\n.names p1_0_t0_5 p1_0_t0_6 p1_0_t0_8\n11 1\n.names p1_0_t0_7 p1_0_t0_8 p1_0_t0_9\n1- 1\n-1 1\n.names p1_0_t0_9 p1_0_t0_10\n1 1\n.names p1_0_y p1_0_t0_6 p1_0_t0_11\n11 1\n.names p1_0_t0_5 p1_0_z p1_0_t0_12\n11 1\n.names p1_0_t0_11 p1_0_t0_12 p1_0_t0_13\n1- 1\n-1 1\n.names p1_0_t0_13 p1_0_t0_14\n1 1\n.names a b p1_1_y\n11 1\n.names a b p1_1_t0_0\n11 1\n.names p1_1_t0_0 p1_1_t0_1\n0 1\n.names p1_1_y p1_1_t0_2\n1 1\n.names p1_1_t0_1 p1_1_t0_3\n1 1\n.names p1_0_t0_10 p1_1_t0_2 p1_t0\n11 1\n.names p1_0_t0_14 p1_1_t0_3 p1_t1\n11 1\n.names p1_t0 p1_t1 p1_t2\n1- 1\n-1 1\n.names p1_t2 p1_t3\n1 1\n.names p1_0_t0_10 p1_1_t0_3 p1_t4\n11 1\n.names p1_0_t0_14 p1_1_t0_2 p1_t5\n11 1\n.names p1_t4 p1_t5 p1_t6\n1- 1\n-1 1\n.names p1_t6 p1_t7\n1 1\n.end\n",
    ),
];

#[test]
fn netlists_are_joined(rt: HostRuntime) -> Result<(), Fail> {
    assert_eq!(rt; first_not_done(rt.alloc(), &JOINED)?, None);
    Ok(())
}

/// What is refused, in order.
static REFUSED: [Refused; 16] = [
    // No line: one netlist without lines.
    (b"join", b"", b"", 3, b"tsc: no outputs\n"),
    // A further end line is a netlist without lines, and so is a plan line.
    (b"join", SAFE_AND2, b".end\n", 3, b"tsc: no outputs\n"),
    (
        b"join",
        SAFE_AND2,
        b"#tsc 1 parity\n",
        3,
        b"tsc: no outputs\n",
    ),
    // A source behind a netlist, and before it.
    (b"join", SAFE_AND2, AND2, 3, b"tsc: no plan\n"),
    (b"join", AND2, SAFE_AND2, 3, b"tsc: no plan\n"),
    // The second netlist, by the number of its line.
    (
        b"join",
        SAFE_AND2,
        b".inputs a\n.gate and A=a\n",
        3,
        b"tsc: line 18: unsupported\n",
    ),
    // The first refusal, though another one stands behind it.
    (
        b"join",
        b".inputs a\n.gate and A=a\n.end\n",
        b".names\n.end\n",
        3,
        b"tsc: line 2: unsupported\n",
    ),
    // A byte before all.
    (
        b"join",
        b".gate and A=a\n.end\n",
        b"\x00",
        3,
        b"tsc: line 3: byte\n",
    ),
    // A joint has no plan.
    (
        b"join",
        b".model joint\n.inputs a b\n.outputs p0_0_y a p0_t3 p0_t7\n.names a b p0_0_y\n11 1\n.names a b p0_0_t0_0\n11 1\n.names p0_0_t0_0 p0_0_t0_1\n0 1\n.names p0_0_y p0_0_t0_2\n1 1\n.names p0_0_t0_1 p0_0_t0_3\n1 1\n.names a p0_1_t0_0\n0 1\n.names a p0_1_t0_1\n1 1\n.names p0_1_t0_0 p0_1_t0_2\n1 1\n.names p0_0_t0_2 p0_1_t0_1 p0_t0\n11 1\n.names p0_0_t0_3 p0_1_t0_2 p0_t1\n11 1\n.names p0_t0 p0_t1 p0_t2\n1- 1\n-1 1\n.names p0_t2 p0_t3\n1 1\n.names p0_0_t0_2 p0_1_t0_2 p0_t4\n11 1\n.names p0_0_t0_3 p0_1_t0_1 p0_t5\n11 1\n.names p0_t4 p0_t5 p0_t6\n1- 1\n-1 1\n.names p0_t6 p0_t7\n1 1\n.end\n",
        SAFE_AND2,
        3,
        b"tsc: no plan\n",
    ),
    // Another edge than that of the first netlist: the line of its first latch.
    (
        b"join",
        DUPLEX_TICKED,
        b".model k\n.inputs a\n.outputs p n t0_14 t0_18\n#tsc 1 parity\n#tsc group p t0_2\n#tsc group n t0_3\n#tsc watch p t0_4\n.latch n p fe clk 0\n.latch t0_1 t0_0 fe clk 0\n.names a p n\n11 0\n.names a t0_0 t0_1\n11 0\n.names t0_0 t0_2\n0 1\n.names t0_1 t0_3\n0 1\n.names t0_0 t0_4\n0 1\n.names p n t0_5\n11 1\n.names t0_2 t0_3 t0_6\n11 1\n.names t0_5 t0_6 t0_7\n1- 1\n-1 1\n.names t0_7 p t0_8\n11 1\n.names p t0_3 t0_9\n11 1\n.names t0_2 n t0_10\n11 1\n.names t0_9 t0_10 t0_11\n1- 1\n-1 1\n.names t0_11 t0_4 t0_12\n11 1\n.names t0_8 t0_12 t0_13\n1- 1\n-1 1\n.names t0_13 t0_14\n1 1\n.names t0_7 t0_4 t0_15\n11 1\n.names t0_11 p t0_16\n11 1\n.names t0_15 t0_16 t0_17\n1- 1\n-1 1\n.names t0_17 t0_18\n1 1\n.end\n",
        3,
        b"tsc: line 55: latch clock\n",
    ),
    // Another control.
    (
        b"join",
        DUPLEX_TICKED,
        b".inputs a\n.outputs p r s\n#tsc 1 parity\n#tsc group p c\n#tsc watch p c\n.latch a p re c2 0\n.names a c\n0 1\n.names p r\n1 1\n.names c s\n1 1\n.end\n",
        3,
        b"tsc: line 53: latch clock\n",
    ),
    // Listed states, and latches that are transparent.
    (
        b"join",
        b".inputs x\n.outputs y r1 r2\n#tsc 2 berger\n#tsc check p\n#tsc state 01\n.latch e s ah x2 0\n.latch f u ah x2 1\n.names y\n.names p\n1\n.names e\n.names f\n1\n.names y p e f r1\n1-1- 1\n-1-1 1\n.names y p e f r2\n1--1 1\n-11- 1\n.end\n",
        SAFE_AND2,
        3,
        b"tsc: line 6: latch clock\n",
    ),
    // A control that a latch reads.
    (
        b"join",
        b".inputs a\n.outputs p r s\n#tsc 1 parity\n#tsc group p c\n#tsc watch p c\n.latch a p re a 0\n.names a c\n0 1\n.names p r\n1 1\n.names c s\n1 1\n.end\n",
        SAFE_AND2,
        3,
        b"tsc: line 6: latch clock\n",
    ),
    // Listed states, and one latch of two with a clock.
    (
        b"join",
        b".inputs x\n.outputs y r1 r2\n#tsc 2 berger\n#tsc check p\n#tsc state 01\n.latch e s 0\n.latch f u re k 1\n.names y\n.names p\n1\n.names e\n.names f\n1\n.names y p e f r1\n1-1- 1\n-1-1 1\n.names y p e f r2\n1--1 1\n-11- 1\n.end\n",
        SAFE_AND2,
        3,
        b"tsc: line 7: latch clock\n",
    ),
    (b"join join", SAFE_AND2, b"", 2, USAGE),
    (b"Join", SAFE_AND2, b"", 2, USAGE),
];

const USAGE: &[u8] = b"tsc: usage: tsc synth|ask|audit|faults|vectors|grade|sim|make|join|help\n";

#[test]
fn netlists_are_not_joined(rt: HostRuntime) -> Result<(), Fail> {
    assert_eq!(rt; first_not_refused(rt.alloc(), &REFUSED)?, None);
    Ok(())
}

/// A text so many times.
fn times(alloc: Global, text: &[u8], count: usize) -> Result<Bytes, AllocError> {
    let mut out = Bytes::new(alloc);
    for _ in 0..count {
        out.append(text)?;
    }
    Ok(out)
}

/// How many lines of a text begin with this.
fn count_of(text: &[u8], begin: &[u8]) -> usize {
    text.split(|byte| *byte == b'\n')
        .filter(|line| line.starts_with(begin))
        .count()
}

/// Whether the joint of so many times the wire has an input, an output and two rails, and so many covers.
fn is_joint_of_wires(alloc: Global, count: usize, covers: usize) -> Result<bool, AllocError> {
    let text = times(alloc, SAFE_WIRE, count)?;
    let ended = after_run(alloc, b"join", text, NO_FAULTS)?;
    let answer = ended.sink.written();
    Ok(
        ended.status.code() == 0
            && answer.starts_with(b".model joint\n.inputs a\n.outputs a p0_t")
            && count_of(answer, b".names ") == covers,
    )
}

#[test]
fn sixty_four_netlists_are_joined(rt: HostRuntime) -> Result<(), Fail> {
    assert!(rt; is_joint_of_wires(rt.alloc(), 1, 5)?);
    assert!(rt; is_joint_of_wires(rt.alloc(), 63, 563)?);
    assert!(rt; is_joint_of_wires(rt.alloc(), 64, 572)?);
    Ok(())
}

/// Whether so many times this text is refused so, before any netlist is read where they are too many.
fn is_refused_times(
    alloc: Global,
    text: &[u8],
    count: usize,
    status: u8,
    note: &[u8],
) -> Result<bool, AllocError> {
    ends(
        alloc,
        b"join",
        times(alloc, text, count)?,
        status,
        b"",
        note,
    )
}

#[test]
fn sixty_five_netlists_are_too_many(rt: HostRuntime) -> Result<(), Fail> {
    let many = b"tsc: limit: 64 parts\n";
    assert!(rt; is_refused_times(rt.alloc(), SAFE_WIRE, 65, 4, many)?);
    assert!(rt; is_refused_times(rt.alloc(), b".end\n", 65, 4, many)?);
    assert!(rt; is_refused_times(rt.alloc(), b".end\n", 64, 3, b"tsc: no outputs\n")?);
    Ok(())
}

/// A netlist with so many inputs, of which the first is its output.
fn wide(alloc: Global, inputs: u64) -> Result<Bytes, AllocError> {
    let mut text = Bytes::from_slice(alloc, b".inputs")?;
    for input in 0..inputs {
        text.append(b" i")?;
        push_number(&mut text, input)?;
    }
    text.append(
        b"\n.outputs i0 r s\n#tsc 1 parity\n#tsc group i0 p\n.names i0 p\n0 1\n.names i0 r\n1 1\n.names p s\n1 1\n.end\n",
    )?;
    Ok(text)
}

/// Whether the joint of the wire and a netlist with so many other inputs ends so.
fn ends_beside_the_wire(
    alloc: Global,
    inputs: u64,
    status: u8,
    note: &[u8],
) -> Result<bool, AllocError> {
    let text = joined(alloc, wide(alloc, inputs)?.as_slice(), SAFE_WIRE)?;
    let ended = after_run(alloc, b"join", text, NO_FAULTS)?;
    Ok(ended.status.code() == status && ended.notes.written() == note)
}

#[test]
fn inputs_have_a_limit(rt: HostRuntime) -> Result<(), Fail> {
    assert!(rt; ends_beside_the_wire(rt.alloc(), 1023, 0, b"")?);
    assert!(rt; ends_beside_the_wire(rt.alloc(), 1024, 4, b"tsc: limit: 1024 inputs\n")?);
    Ok(())
}
