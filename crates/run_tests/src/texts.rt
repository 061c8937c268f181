//! Sources, and their netlists as they are written by hand from the stated construction.

/// An and gate.
pub const AND2: &[u8] = b".model and2\n.inputs a b\n.outputs y\n.names a b y\n11 1\n.end\n";

/// The and gate with a parity check and two rails.
pub const SAFE_AND2: &[u8] =
    b".model and2\n.inputs a b\n.outputs y t0_2 t0_3\n#tsc 1 parity\n#tsc group y t0_1\n.names a b y\n11 1\n.names a b t0_0\n11 1\n.names t0_0 t0_1\n0 1\n.names y t0_2\n1 1\n.names t0_1 t0_3\n1 1\n.end\n";

/// Its 24 faults.
pub const AND2_FAULTS: &[u8] =
    b"stem y 0\nstem y 1\npin y 0 0\npin y 0 1\npin y 1 0\npin y 1 1\nstem t0_0 0\nstem t0_0 1\npin t0_0 0 0\npin t0_0 0 1\npin t0_0 1 0\npin t0_0 1 1\nstem t0_1 0\nstem t0_1 1\npin t0_1 0 0\npin t0_1 0 1\nstem t0_2 0\nstem t0_2 1\npin t0_2 0 0\npin t0_2 0 1\nstem t0_3 0\nstem t0_3 1\npin t0_3 0 0\npin t0_3 0 1\ntotal 24\n";

/// An output that is an input.
pub const WIRE: &[u8] = b".model w\n.inputs a\n.outputs a\n.end\n";

/// The wire with a parity check and two rails.
pub const SAFE_WIRE: &[u8] =
    b".model w\n.inputs a\n.outputs a t0_1 t0_2\n#tsc 1 parity\n#tsc group a t0_0\n.names a t0_0\n0 1\n.names a t0_1\n1 1\n.names t0_0 t0_2\n1 1\n.end\n";

/// The same with a refutation of its exact question.
pub const PROVED_WIRE: &[u8] =
    b".model w\n.inputs a\n.outputs a t0_1 t0_2\n#tsc 1 parity\n#tsc group a t0_0\n.names a t0_0\n0 1\n.names a t0_1\n1 1\n.names t0_0 t0_2\n1 1\n.end\n62 d 7 8 9 10 11 12 13 14 15 16 17 18 19 20 21 22 23 24 25 26 27 28 29 30 31 32 33 34 35 36 37 38 39 40 41 42 43 44 45 48 49 52 53 56 57 58 59 60 0\n63 -21 -20 19 0 61 62 0\n63 d 62 61 0\n64 -19 0 46 47 0\n64 d 47 46 0\n65 2 20 0 1 50 0\n65 d 50 0\n66 20 0 65 2 51 0\n66 d 51 65 0\n67 -21 0 66 64 63 0\n67 d 63 64 66 0\n68 -4 0 67 6 55 2 4 0\n68 d 4 2 55 6 0\n69 -2 0 68 5 0\n69 d 5 0\n70 -3 0 67 68 54 0\n70 d 54 68 67 0\n71 1 0 69 1 0\n71 d 1 69 0\n72 0 71 70 3 0\n";

/// Its 12 faults: the stem of the input is none of them, and a pin that reads it is one.
pub const WIRE_FAULTS: &[u8] =
    b"stem t0_0 0\nstem t0_0 1\npin t0_0 0 0\npin t0_0 0 1\nstem t0_1 0\nstem t0_1 1\npin t0_1 0 0\npin t0_1 0 1\nstem t0_2 0\nstem t0_2 1\npin t0_2 0 0\npin t0_2 0 1\ntotal 12\n";

/// Covers in reverse order, a continued line, a comment, CR LF, no `.model` and no `.end`.
pub const LOOSE: &[u8] =
    b".inputs a \\\n b # two inputs\r\n.outputs $y$1[3]\n.names n1 $y$1[3]\n0 1\n.names a b n1\n11 1\n";

/// The same with a parity check and two rails.
pub const SAFE_LOOSE: &[u8] =
    b".model model\n.inputs a b\n.outputs $y$1[3] t0_3 t0_4\n#tsc 1 parity\n#tsc group $y$1[3] t0_2\n.names n1 $y$1[3]\n0 1\n.names a b n1\n11 1\n.names t0_1 t0_0\n0 1\n.names a b t0_1\n11 1\n.names t0_0 t0_2\n0 1\n.names $y$1[3] t0_3\n1 1\n.names t0_2 t0_4\n1 1\n.end\n";

/// Three outputs, two of which share a cover.
pub const SHARING: &[u8] =
    b".model g\n.inputs a b\n.outputs x y z\n.names a b n\n11 1\n.names n x\n1 1\n.names a y\n0 1\n.names n b z\n1- 1\n-1 1\n.end\n";

/// The same in two groups: `x` and `y`, and `z`, which shares the cover of `n` with `x`.
pub const SAFE_SHARING: &[u8] =
    b".model g\n.inputs a b\n.outputs x y z t0_12 t0_16\n#tsc 1 parity\n#tsc group x y t0_4\n#tsc group z t0_7\n.names a b n\n11 1\n.names n x\n1 1\n.names a y\n0 1\n.names n b z\n1- 1\n-1 1\n.names a b t0_0\n11 1\n.names t0_0 t0_1\n1 1\n.names a t0_2\n0 1\n.names t0_1 t0_2 t0_3\n10 1\n01 1\n.names t0_3 t0_4\n0 1\n.names a b t0_5\n11 1\n.names t0_5 b t0_6\n1- 1\n-1 1\n.names t0_6 t0_7\n0 1\n.names x y t0_8\n10 1\n01 1\n.names t0_8 z t0_9\n11 1\n.names t0_4 t0_7 t0_10\n11 1\n.names t0_9 t0_10 t0_11\n1- 1\n-1 1\n.names t0_11 t0_12\n1 1\n.names t0_8 t0_7 t0_13\n11 1\n.names t0_4 z t0_14\n11 1\n.names t0_13 t0_14 t0_15\n1- 1\n-1 1\n.names t0_15 t0_16\n1 1\n.end\n";

/// The same over one copy, which both groups share.
pub const DUPLEX_SHARING: &[u8] =
    b".model g\n.inputs a b\n.outputs x y z t0_11 t0_15\n#tsc 1 parity\n#tsc group x y t0_5\n#tsc group z t0_6\n.names a b n\n11 1\n.names n x\n1 1\n.names a y\n0 1\n.names n b z\n1- 1\n-1 1\n.names a b t0_0\n11 1\n.names t0_0 t0_1\n1 1\n.names a t0_2\n0 1\n.names t0_0 b t0_3\n1- 1\n-1 1\n.names t0_1 t0_2 t0_4\n10 1\n01 1\n.names t0_4 t0_5\n0 1\n.names t0_3 t0_6\n0 1\n.names x y t0_7\n10 1\n01 1\n.names t0_7 z t0_8\n11 1\n.names t0_5 t0_6 t0_9\n11 1\n.names t0_8 t0_9 t0_10\n1- 1\n-1 1\n.names t0_10 t0_11\n1 1\n.names t0_7 t0_6 t0_12\n11 1\n.names t0_5 z t0_13\n11 1\n.names t0_12 t0_13 t0_14\n1- 1\n-1 1\n.names t0_14 t0_15\n1 1\n.end\n";

/// A network with a cover that no output depends on, an output that is an input, and one that shares a cover with another.
pub const CHAINED: &[u8] =
    b".model h\n.inputs a b\n.outputs p b q\n.names p a q\n11 1\n.names a d\n1 1\n.names a b p\n1- 1\n-1 1\n.end\n";

/// The same over one copy: in the group of `p` and `b` the chain goes over the copy of `p` and the input itself.
pub const DUPLEX_CHAINED: &[u8] =
    b".model h\n.inputs a b\n.outputs p b q t0_9 t0_13\n#tsc 1 parity\n#tsc group p b t0_3\n#tsc group q t0_4\n.names p a q\n11 1\n.names a b p\n1- 1\n-1 1\n.names t0_1 a t0_0\n11 1\n.names a b t0_1\n1- 1\n-1 1\n.names t0_1 b t0_2\n10 1\n01 1\n.names t0_2 t0_3\n0 1\n.names t0_0 t0_4\n0 1\n.names p b t0_5\n10 1\n01 1\n.names t0_5 q t0_6\n11 1\n.names t0_3 t0_4 t0_7\n11 1\n.names t0_6 t0_7 t0_8\n1- 1\n-1 1\n.names t0_8 t0_9\n1 1\n.names t0_5 t0_4 t0_10\n11 1\n.names t0_3 q t0_11\n11 1\n.names t0_10 t0_11 t0_12\n1- 1\n-1 1\n.names t0_12 t0_13\n1 1\n.end\n";

/// Two registers with a clock, of which one reads the other.
pub const TICKED: &[u8] =
    b".model ex\n.inputs clk a b\n.outputs y z\n.latch n1 p re clk 0\n.latch p q re clk 1\n.names a q n1\n11 1\n.names p b y\n1- 1\n-1 1\n.names q z\n0 1\n.end\n";

/// Two copies of it.
pub const DUPLEX_TICKED: &[u8] =
    b".model ex\n.inputs clk a b\n.outputs y z t0_10 t0_14\n#tsc 1 parity\n#tsc group y t0_5\n#tsc group z t0_6\n.latch n1 p re clk 0\n.latch p q re clk 1\n.latch t0_2 t0_0 re clk 0\n.latch t0_0 t0_1 re clk 1\n.names a q n1\n11 1\n.names p b y\n1- 1\n-1 1\n.names q z\n0 1\n.names a t0_1 t0_2\n11 1\n.names t0_0 b t0_3\n1- 1\n-1 1\n.names t0_1 t0_4\n0 1\n.names t0_3 t0_5\n0 1\n.names t0_4 t0_6\n0 1\n.names y z t0_7\n11 1\n.names t0_5 t0_6 t0_8\n11 1\n.names t0_7 t0_8 t0_9\n1- 1\n-1 1\n.names t0_9 t0_10\n1 1\n.names y t0_6 t0_11\n11 1\n.names t0_5 z t0_12\n11 1\n.names t0_11 t0_12 t0_13\n1- 1\n-1 1\n.names t0_13 t0_14\n1 1\n.end\n";

/// The same with its registers watched.
pub const WATCHED_TICKED: &[u8] =
    b".model ex\n.inputs clk a b\n.outputs y z t0_19 t0_23\n#tsc 1 parity\n#tsc group y t0_5\n#tsc group z t0_6\n#tsc watch p q t0_8\n.latch n1 p re clk 0\n.latch p q re clk 1\n.latch t0_2 t0_0 re clk 0\n.latch t0_0 t0_1 re clk 1\n.names a q n1\n11 1\n.names p b y\n1- 1\n-1 1\n.names q z\n0 1\n.names a t0_1 t0_2\n11 1\n.names t0_0 b t0_3\n1- 1\n-1 1\n.names t0_1 t0_4\n0 1\n.names t0_3 t0_5\n0 1\n.names t0_4 t0_6\n0 1\n.names t0_0 t0_1 t0_7\n10 1\n01 1\n.names t0_7 t0_8\n0 1\n.names y z t0_9\n11 1\n.names t0_5 t0_6 t0_10\n11 1\n.names t0_9 t0_10 t0_11\n1- 1\n-1 1\n.names p q t0_12\n10 1\n01 1\n.names t0_11 t0_12 t0_13\n11 1\n.names y t0_6 t0_14\n11 1\n.names t0_5 z t0_15\n11 1\n.names t0_14 t0_15 t0_16\n1- 1\n-1 1\n.names t0_16 t0_8 t0_17\n11 1\n.names t0_13 t0_17 t0_18\n1- 1\n-1 1\n.names t0_18 t0_19\n1 1\n.names t0_11 t0_8 t0_20\n11 1\n.names t0_16 t0_12 t0_21\n11 1\n.names t0_20 t0_21 t0_22\n1- 1\n-1 1\n.names t0_22 t0_23\n1 1\n.end\n";

/// An output that is a register, without a clock, and one that no output depends on; an init that is any.
pub const HELD: &[u8] =
    b".model k\n.inputs a\n.outputs p n\n.latch n p 2\n.latch p u 0\n.names a p n\n11 0\n.names u d\n1 1\n.end\n";

/// Two copies of it; of the register that is watched the chain is the register itself.
pub const WATCHED_HELD: &[u8] =
    b".model k\n.inputs a\n.outputs p n t0_14 t0_18\n#tsc 1 parity\n#tsc group p t0_2\n#tsc group n t0_3\n#tsc watch p t0_4\n.latch n p 0\n.latch t0_1 t0_0 0\n.names a p n\n11 0\n.names a t0_0 t0_1\n11 0\n.names t0_0 t0_2\n0 1\n.names t0_1 t0_3\n0 1\n.names t0_0 t0_4\n0 1\n.names p n t0_5\n11 1\n.names t0_2 t0_3 t0_6\n11 1\n.names t0_5 t0_6 t0_7\n1- 1\n-1 1\n.names t0_7 p t0_8\n11 1\n.names p t0_3 t0_9\n11 1\n.names t0_2 n t0_10\n11 1\n.names t0_9 t0_10 t0_11\n1- 1\n-1 1\n.names t0_11 t0_4 t0_12\n11 1\n.names t0_8 t0_12 t0_13\n1- 1\n-1 1\n.names t0_13 t0_14\n1 1\n.names t0_7 t0_4 t0_15\n11 1\n.names t0_11 p t0_16\n11 1\n.names t0_15 t0_16 t0_17\n1- 1\n-1 1\n.names t0_17 t0_18\n1 1\n.end\n";

/// A register that no output depends on.
pub const UNREAD: &[u8] = b".model l\n.inputs a\n.outputs y\n.latch a p 2\n.names a y\n0 1\n.end\n";

/// Two copies of what is left, without a watch.
pub const DUPLEX_UNREAD: &[u8] =
    b".model l\n.inputs a\n.outputs y t0_2 t0_3\n#tsc 1 parity\n#tsc group y t0_1\n.names a y\n0 1\n.names a t0_0\n0 1\n.names t0_0 t0_1\n0 1\n.names y t0_2\n1 1\n.names t0_1 t0_3\n1 1\n.end\n";

/// A register whose plan lists no states, which is watched: a netlist to be read, and secure for nothing.
pub const LISTLESS: &[u8] =
    b".inputs a\n.outputs p r s\n#tsc 1 parity\n#tsc group p c\n#tsc watch p c\n.latch a p 0\n.names a c\n0 1\n.names p r\n1 1\n.names c s\n1 1\n.end\n";

/// Its faults: the register first.
pub const LISTLESS_FAULTS: &[u8] =
    b"stem p 0\nstem p 1\npin p 0 0\npin p 0 1\nstem c 0\nstem c 1\npin c 0 0\npin c 0 1\nstem r 0\nstem r 1\npin r 0 0\npin r 0 1\nstem s 0\nstem s 1\npin s 0 0\npin s 0 1\ntotal 16\n";

/// Two latches that hold their values, one of two states.
pub const LATCHED: &[u8] =
    b".inputs x\n.outputs y r1 r2\n#tsc 2 berger\n#tsc check p\n#tsc state 01\n.latch e s 0\n.latch f u 1\n.names y\n.names p\n1\n.names e\n.names f\n1\n.names y p e f r1\n1-1- 1\n-1-1 1\n.names y p e f r2\n1--1 1\n-11- 1\n.end\n";

/// Its 36 faults: the latches first.
pub const LATCHED_FAULTS: &[u8] =
    b"stem s 0\nstem s 1\npin s 0 0\npin s 0 1\nstem u 0\nstem u 1\npin u 0 0\npin u 0 1\nstem y 0\nstem y 1\nstem p 0\nstem p 1\nstem e 0\nstem e 1\nstem f 0\nstem f 1\nstem r1 0\nstem r1 1\npin r1 0 0\npin r1 0 1\npin r1 1 0\npin r1 1 1\npin r1 2 0\npin r1 2 1\npin r1 3 0\npin r1 3 1\nstem r2 0\nstem r2 1\npin r2 0 0\npin r2 0 1\npin r2 1 0\npin r2 1 1\npin r2 2 0\npin r2 2 1\npin r2 3 0\npin r2 3 1\ntotal 36\n";

/// As Yosys writes a full adder that it had mapped by ABC.
pub const BY_YOSYS: &[u8] =
    b"# Generated by Yosys 0.23 (git sha1 7ce5011c24b)\n\n.model adder\n.inputs a b cin\n.outputs sum[0] sum[1] $unused[0]\n.names $false\n.names $true\n1\n.names $undef\n.names a b $abc$41$new_n7_\n10 1\n01 1\n.names cin $abc$41$new_n7_ sum[0]\n10 1\n01 1\n.names a b $abc$41$new_n9_\n11 1\n.names cin $abc$41$new_n7_ $abc$41$new_n10_\n11 1\n.names $abc$41$new_n9_ $abc$41$new_n10_ sum[1]\n00 0\n.names $false $unused[0]\n1 1\n.end\n";

/// As ABC writes a network of nodes in sums of products: a continued line, rows of an off-set, a constant as a row without pins.
pub const BY_ABC: &[u8] =
    b"# Benchmark \"route\" written by ABC on Fri Nov 27 04:00:00 2026\n.model route\n.inputs set \\\nclear[0] clear[1] \\\nlocked\n.outputs proceed stop zero\n.names set clear[0] clear[1] locked new_n8\n1111 1\n.names new_n8 proceed\n1 1\n.names set clear[0] clear[1] locked stop\n1111 0\n.names zero\n 0\n.end\n";

/// As Yosys writes a multiplexer of two bits with its `$`-names and a comment after a line.
pub const BY_YOSYS_MUX: &[u8] =
    b"# Generated by Yosys 0.23\n.model mux\n.inputs sel in[0] in[1] in[2] in[3] # buses are split\n.outputs out[0] out[1] always\n.names in[0] in[2] sel $techmap$mux.v:3$1_Y[0]\n1-0 1\n-11 1\n.names in[1] in[3] sel $techmap$mux.v:3$1_Y[1]\n1-0 1\n-11 1\n.names $techmap$mux.v:3$1_Y[0] out[0]\n1 1\n.names $techmap$mux.v:3$1_Y[1] out[1]\n0 0\n.names always\n1\n.end\n";

/// A network without inputs.
pub const ONE: &[u8] = b".outputs y\n.names y\n1\n.end\n";

/// The same with a parity check and two rails.
pub const SAFE_ONE: &[u8] =
    b".model model\n.inputs\n.outputs y t0_2 t0_3\n#tsc 1 parity\n#tsc group y t0_1\n.names y\n1\n.names t0_0\n1\n.names t0_0 t0_1\n0 1\n.names y t0_2\n1 1\n.names t0_1 t0_3\n1 1\n.end\n";

/// A cover of an off-set, two constants, and a cover with an input and no row.
pub const FOUR: &[u8] =
    b".inputs a\n.outputs p q r s\n.names a p\n0 0\n.names q\n.names r\n1\n.names a s\n.end\n";

/// A machine of two states that toggles at a 1 and hands its input on: one-hot states, an m-out-of-n code, negations at the input alone.
pub const TOGGLE: &[u8] =
    b".model machine\n.inputs i0\n.outputs o0 t0_5 t0_6\n#tsc 2 mofn\n#tsc check t0_4\n#tsc state 01\n#tsc state 10\n.latch t0_2 t0_0 0\n.latch t0_3 t0_1 1\n.names i0 t0_7\n0 1\n.names t0_1 i0 t0_8\n11 1\n.names t0_0 i0 t0_9\n11 1\n.names t0_1 t0_7 t0_10\n11 1\n.names t0_0 t0_7 t0_11\n11 1\n.names t0_8 t0_9 o0\n1- 1\n-1 1\n.names t0_8 t0_11 t0_2\n1- 1\n-1 1\n.names t0_10 t0_9 t0_3\n1- 1\n-1 1\n.names t0_10 t0_11 t0_4\n1- 1\n-1 1\n.names o0 t0_2 t0_12\n11 1\n.names t0_4 t0_3 t0_13\n11 1\n.names t0_12 t0_13 t0_14\n1- 1\n-1 1\n.names t0_14 t0_5\n1 1\n.names o0 t0_3 t0_15\n11 1\n.names t0_4 t0_2 t0_16\n11 1\n.names t0_15 t0_16 t0_17\n1- 1\n-1 1\n.names t0_17 t0_6\n1 1\n.end\n";

/// A machine of two states, whose output is its input.
pub const TWO_STATES: &[u8] = b".i 1\n.o 1\n0 A A 0\n1 A B 1\n0 B B 0\n1 B A 1\n.e\n";

/// A level crossing, with names, counts, a comment, CR LF and rows of every state.
pub const CROSSING: &[u8] =
    b".i 2\r\n.o 2\r\n.s 3\r\n.p 5\r\n.r open\r\n.ilb train clear\r\n.ob light barrier\r\n# a train comes\r\n1- open warning 10\r\n0- open open 00\r\n-- warning closed 11\r\n\r\n-1 closed open 00\r\n-0 closed closed 11\r\n.end\r\n";

/// A machine of the benchmark sets as SIS writes it, with counts, a reset state and a free output.
pub const BY_SIS: &[u8] =
    b"# lion in the form that SIS writes (write_kiss)\n.i 2\n.o 1\n.p 11\n.s 4\n.r st0\n-0 st0 st0 0\n11 st0 st0 0\n01 st0 st1 -\n0- st1 st1 1\n11 st1 st0 0\n10 st1 st2 1\n1- st2 st2 1\n00 st2 st1 1\n01 st2 st3 1\n0- st3 st3 1\n11 st3 st2 1\n.e\n";

/// A machine as Yosys exports it, with an input that resets it, and without an end.
pub const BY_YOSYS_FSM: &[u8] =
    b".i 3\n.o 2\n.p 8\n.s 3\n.r s0\n-00 s0 s0 00\n--1 s0 s0 00\n-10 s0 s2 00\n1-0 s1 s0 01\n--1 s1 s0 01\n0-0 s1 s1 01\n--1 s2 s0 10\n--0 s2 s1 10\n";

/// A machine as the benchmark sets have it: a blank line first, tabs, no reset state.
pub const BENCHMARK: &[u8] =
    b"\n.i 2\n.o 1\n.p 14\n.s 4\n00\tst0\tst0\t0\n10\tst0\tst1\t-\n01\tst0\tst1\t-\n10\tst1\tst1\t1\n01\tst1\tst1\t1\n00\tst1\tst2\t1\n11\tst1\tst2\t1\n00\tst2\tst2\t1\n11\tst2\tst2\t1\n01\tst2\tst3\t1\n10\tst2\tst3\t1\n10\tst3\tst3\t1\n01\tst3\tst3\t1\n00\tst3\tst0\t-\n.e\n";

/// A table of two inputs and two outputs, of which the second is free where both inputs are 1.
pub const TABLE: &[u8] = b".i 2\n.o 2\n.type fd\n11 1-\n0- 01\n.e\n";

/// The same with a parity check and two rails: its two outputs share no gate.
pub const SAFE_TABLE: &[u8] =
    b".model pla\n.inputs i0 i1\n.outputs o0 o1 t0_5 t0_6\n#tsc 2 parity\n#tsc group o0 o1 t0_3\n.names i0 i1 o0\n11 1\n.names i0 i1 o1\n0- 1\n.names i0 i1 t0_0\n11 1\n.names i0 i1 t0_1\n0- 1\n.names t0_0 t0_1 t0_2\n10 1\n01 1\n.names t0_2 t0_3\n0 1\n.names o0 o1 t0_4\n10 1\n01 1\n.names t0_4 t0_5\n1 1\n.names t0_3 t0_6\n1 1\n.end\n";

/// A table of one output that is free where its input is 1.
pub const FREE_AT_ONE: &[u8] = b".i 1\n.o 1\n1 -\n.e\n";

/// A netlist whose output is its input, under parity.
pub const FOLLOWING: &[u8] =
    b".inputs i0\n.outputs y r1 r2\n#tsc 2 parity\n#tsc group y p\n.names i0 y\n1 1\n.names i0 p\n0 1\n.names y r1\n1 1\n.names p r2\n1 1\n.end\n";

/// A decimal digit on seven segments, free at the six codes that are none.
pub const SEGMENTS: &[u8] =
    b"# BCD to seven segments\n.i 4\n.o 7\n.ilb b3 b2 b1 b0\n.ob a b c d e f g\n.p 12\n0000 1111110\n0001 0110000\n0010 1101101\n0011 1111001\n0100 0110011\n0101 1011011\n0110 1011111\n0111 1110000\n1000 1111111\n1001 1111011\n1-1- -------\n11-- -------\n.e\n";

/// The same minimised by hand, with another answer at each of the six codes; `.type f`, so nothing is free.
pub const FEWER_SEGMENTS: &[u8] =
    b".type f\n.i 4\n.o 7\n.ilb b3 b2 b1 b0\n.ob a b c d e f g\n.p 15\n1--- 1001011\n--1- 1000000\n-1-1 1000000\n-0-0 1001100\n-0-- 0100000\n--00 0100010\n--11 0100000\n-1-- 0010000\n--0- 0010000\n---1 0010000\n--10 0001101\n-101 0001000\n-01- 0001001\n-10- 0000011\n-1-0 0000010\n.e\n";
