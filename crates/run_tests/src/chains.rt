//! A synthesis, and then a simulation of what it wrote.

use crate::runs::{NO_FAULTS, after_run, ends, joined};
use crate::texts::{
    AND2, BENCHMARK, BY_ABC, BY_SIS, BY_YOSYS, BY_YOSYS_FSM, BY_YOSYS_MUX, CROSSING, FOUR, SHARING,
    TWO_STATES,
};
use std::alloc::{AllocError, Global};
use std::test::Fail;
use tsc_io::Bytes;
use tsc_text::push_number;

/// The words of the synthesis, its source, how the netlist begins, the step lines, and the lines of a simulation without a fault.
pub type Chain = (
    &'static [u8],
    &'static [u8],
    &'static [u8],
    &'static [u8],
    &'static [u8],
);

/// The outputs by the sources' truth, and the checks and rails by the stated groups and checkers.
pub static PARITY: [Chain; 4] = [
    (
        b"synth blif parity",
        FOUR,
        b".model model\n.inputs a\n.outputs p q r s t0_11 t0_12\n#tsc 1 parity\n#tsc group p q r s t0_7\n",
        b"0\n1\n",
        b"0 0010 0 . 10 quiet\n1 1010 1 . 01 quiet\n",
    ),
    (
        b"synth blif parity",
        BY_YOSYS,
        b".model adder\n.inputs a b cin\n",
        b"000\n100\n110\n111\n",
        b"0 000 11 . 10 quiet\n1 100 01 . 01 quiet\n2 010 10 . 01 quiet\n3 110 00 . 10 quiet\n",
    ),
    (
        b"synth blif parity",
        BY_ABC,
        b".model route\n.inputs set clear[0] clear[1] locked\n",
        b"1111\n0111\n",
        b"0 100 0 . 10 quiet\n1 010 0 . 10 quiet\n",
    ),
    (
        b"synth blif parity",
        BY_YOSYS_MUX,
        b".model mux\n.inputs sel in[0] in[1] in[2] in[3]\n",
        b"01000\n10010\n10011\n00011\n",
        b"0 101 1 . 01 quiet\n1 101 1 . 01 quiet\n2 111 0 . 10 quiet\n3 001 0 . 10 quiet\n",
    ),
];

/// Netlists over one shared copy: the outputs, checks and rails of the same groups.
pub static DUPLEX: [Chain; 2] = [
    (
        b"synth blif duplex",
        SHARING,
        b".model g\n.inputs a b\n.outputs x y z t0_11 t0_15\n#tsc 1 parity\n#tsc group x y t0_5\n#tsc group z t0_6\n",
        b"00\n01\n10\n11\n",
        b"0 010 01 . 01 quiet\n1 011 00 . 10 quiet\n2 000 11 . 10 quiet\n3 101 00 . 10 quiet\n",
    ),
    (
        b"synth blif duplex",
        BY_YOSYS,
        b".model adder\n.inputs a b cin\n",
        b"000\n100\n110\n111\n",
        b"0 000 11 . 10 quiet\n1 100 01 . 01 quiet\n2 010 10 . 01 quiet\n3 110 00 . 10 quiet\n",
    ),
];

/// Berger and m-out-of-n netlists: the checks are the number of zeros among the outputs, in binary, or as a thermometer.
pub static UNORDERED: [Chain; 6] = [
    (
        b"synth blif berger",
        AND2,
        b".model and2\n.inputs a b\n.outputs y t0_1 t0_2\n#tsc 1 berger\n#tsc check t0_0\n",
        b"00\n11\n",
        b"0 0 1 . 01 quiet\n1 1 0 . 10 quiet\n",
    ),
    (
        b"synth blif mofn",
        AND2,
        b".model and2\n.inputs a b\n.outputs y t0_1 t0_2\n#tsc 1 mofn\n#tsc check t0_0\n",
        b"00\n11\n",
        b"0 0 1 . 01 quiet\n1 1 0 . 10 quiet\n",
    ),
    (
        b"synth blif berger",
        b".inputs a b c\n.outputs a b c\n.end\n",
        b".model model\n.inputs a b c\n.outputs a b c t0_2 t0_3\n#tsc 1 berger\n#tsc check t0_0 t0_1\n",
        b"000\n010\n111\n",
        b"0 000 11 . 10 quiet\n1 010 10 . 01 quiet\n2 111 00 . 10 quiet\n",
    ),
    (
        b"synth blif berger",
        b".inputs a b c d\n.outputs a b c d\n.end\n",
        b".model model\n.inputs a b c d\n.outputs a b c d t0_3 t0_4\n#tsc 1 berger\n#tsc check t0_0 t0_1 t0_2\n",
        b"0000\n1111\n",
        b"0 0000 100 . 01 quiet\n1 1111 000 . 10 quiet\n",
    ),
    (
        b"synth blif berger",
        FOUR,
        b".model model\n.inputs a\n.outputs p q r s t0_3 t0_4\n#tsc 1 berger\n#tsc check t0_0 t0_1 t0_2\n",
        b"0\n1\n",
        b"0 0010 011 . 10 quiet\n1 1010 010 . 01 quiet\n",
    ),
    (
        b"synth blif mofn",
        FOUR,
        b".model model\n.inputs a\n.outputs p q r s t0_4 t0_5\n#tsc 1 mofn\n#tsc check t0_0 t0_1 t0_2 t0_3\n",
        b"0\n1\n",
        b"0 0010 1110 . 10 quiet\n1 1010 1100 . 01 quiet\n",
    ),
];

/// Machines: a latch for each bit of a state word, and the next state's word in each step.
static MACHINES: [Chain; 8] = [
    (
        b"synth kiss mofn",
        TWO_STATES,
        b".model machine\n.inputs i0\n.outputs o0 t0_5 t0_6\n#tsc 2 mofn\n#tsc check t0_4\n#tsc state 01\n#tsc state 10\n.latch t0_2 t0_0 0\n.latch t0_3 t0_1 1\n",
        b"1\n0\n1\n",
        b"0 1 0 10 10 quiet\n1 0 1 10 01 quiet\n2 1 0 01 01 quiet\n",
    ),
    (
        b"synth kiss berger",
        b".i 2\n.o 2\n.s 2\n.p 3\n0- A B 1-\n1- A * 01\n11 B A -1\n.e\n",
        b".model machine\n.inputs i0 i1\n.outputs o0 o1 t0_6 t0_7\n#tsc 2 berger\n#tsc check t0_4 t0_5\n#tsc state 01\n#tsc state 10\n",
        b"00\n00\n10\n",
        b"0 10 01 10 01 quiet\n1 00 10 01 10 quiet\n2 01 01 01 10 quiet\n",
    ),
    (
        b"synth kiss berger",
        b".i 1\n.o 1\n- a b 0\n- b c 0\n- c d 0\n- d e 0\n- e f 0\n- f g 0\n- g a 1\n.e\n",
        b".model machine\n.inputs i0\n.outputs o0 t0_13 t0_14\n#tsc 2 berger\n#tsc check t0_12\n#tsc state 000111\n#tsc state 001011\n#tsc state 001101\n#tsc state 001110\n#tsc state 010011\n#tsc state 010101\n#tsc state 010110\n.latch t0_6 t0_0 0\n",
        b"",
        b"",
    ),
    (
        b"synth kiss mofn",
        b".i 2\n.o 1\n0- A A 1\n-0 A A 1\n.e\n",
        b".model machine\n.inputs i0 i1\n.outputs o0 t0_5 t0_6\n#tsc 2 mofn\n#tsc check t0_4\n#tsc state 01\n",
        b"",
        b"",
    ),
    (
        b"synth kiss berger",
        CROSSING,
        b".model machine\n.inputs train clear\n.outputs light barrier t0_10 t0_11\n#tsc 2 berger\n#tsc check t0_8 t0_9\n",
        b"",
        b"",
    ),
    (
        b"synth kiss berger",
        BY_SIS,
        b".model machine\n.inputs i0 i1\n.outputs o0 t0_9 t0_10\n#tsc 2 berger\n#tsc check t0_8\n",
        b"10\n01\n00\n10\n01\n11\n",
        b"0 0 1 0011 10 quiet\n1 0 1 0101 01 quiet\n2 1 0 0101 10 quiet\n3 1 0 0110 10 quiet\n4 1 0 1001 10 quiet\n5 1 0 0110 10 quiet\n",
    ),
    (
        b"synth kiss berger",
        BY_YOSYS_FSM,
        b".model machine\n.inputs i0 i1 i2\n.outputs o0 o1 t0_10 t0_11\n#tsc 2 berger\n#tsc check t0_8 t0_9\n",
        b"100\n010\n000\n000\n100\n",
        b"0 00 10 0011 10 quiet\n1 00 10 0101 01 quiet\n2 10 01 0110 01 quiet\n3 01 01 0110 01 quiet\n4 01 01 0011 10 quiet\n",
    ),
    (
        b"synth kiss berger",
        BENCHMARK,
        b".model machine\n.inputs i0 i1\n.outputs o0 t0_9 t0_10\n#tsc 2 berger\n#tsc check t0_8\n",
        b"00\n10\n00\n01\n00\n",
        b"0 0 1 0011 10 quiet\n1 0 1 0101 01 quiet\n2 1 0 0110 10 quiet\n3 1 0 1001 10 quiet\n4 0 1 0011 10 quiet\n",
    ),
];

/// Whether a text begins with another one.
fn begins(text: &[u8], head: &[u8]) -> bool {
    text.len() >= head.len() && &text[..head.len()] == head
}

/// Whether the netlist is run as the row says.
fn is_run(alloc: Global, netlist: &[u8], row: &Chain) -> Result<bool, AllocError> {
    let (_, _, _, steps, lines) = row;
    let text = joined(alloc, netlist, steps)?;
    ends(alloc, b"sim none", text, 0, lines, b"")
}

/// Whether both runs end as the row says.
pub fn is_right(alloc: Global, row: &Chain) -> Result<bool, AllocError> {
    let (words, source, head, _, _) = row;
    let text = Bytes::from_slice(alloc, source)?;
    let made = after_run(alloc, words, text, NO_FAULTS)?;
    if made.status.code() != 0 || !begins(made.sink.written(), head) {
        return Ok(false);
    }
    is_run(alloc, made.sink.written(), row)
}

/// The place of the first row that isn't right.
pub fn first_wrong(alloc: Global, rows: &[Chain]) -> Result<Option<usize>, AllocError> {
    for (place, row) in rows.iter().enumerate() {
        if !is_right(alloc, row)? {
            return Ok(Some(place));
        }
    }
    Ok(None)
}

#[test]
fn parity_netlists_are_run(rt: HostRuntime) -> Result<(), Fail> {
    assert_eq!(rt; first_wrong(rt.alloc(), &PARITY)?, None);
    Ok(())
}

#[test]
fn duplex_netlists_are_run(rt: HostRuntime) -> Result<(), Fail> {
    assert_eq!(rt; first_wrong(rt.alloc(), &DUPLEX)?, None);
    Ok(())
}

#[test]
fn unordered_netlists_are_run(rt: HostRuntime) -> Result<(), Fail> {
    assert_eq!(rt; first_wrong(rt.alloc(), &UNORDERED)?, None);
    Ok(())
}

#[test]
fn machines_are_written_and_run(rt: HostRuntime) -> Result<(), Fail> {
    assert_eq!(rt; first_wrong(rt.alloc(), &MACHINES)?, None);
    Ok(())
}

/// Syntheses, and how many covers they write: each gate of the word once and no buffer for an output or a check, and the checker's
/// gates. Of the and gate these are a negation for each input, an And and an Or in the word, and after it two buffers for the
/// rails, to which the counter of a Berger code adds two negations.
static COVERS: [(&[u8], &[u8], usize); 4] = [
    (b"synth blif parity", AND2, 5),
    (b"synth blif berger", AND2, 8),
    (b"synth blif mofn", AND2, 6),
    (b"synth kiss mofn", TWO_STATES, 23),
];

/// How many covers a netlist has.
fn covers(netlist: &[u8]) -> usize {
    let lines = netlist.split(|byte| *byte == b'\n');
    lines.filter(|line| begins(line, b".names ")).count()
}

/// The place of the first synthesis that writes another number of covers.
fn first_of_other_size(alloc: Global) -> Result<Option<usize>, AllocError> {
    for (place, (words, source, count)) in COVERS.iter().enumerate() {
        let text = Bytes::from_slice(alloc, source)?;
        let made = after_run(alloc, words, text, NO_FAULTS)?;
        if covers(made.sink.written()) != *count {
            return Ok(Some(place));
        }
    }
    Ok(None)
}

#[test]
fn no_gate_is_written_twice(rt: HostRuntime) -> Result<(), Fail> {
    assert_eq!(rt; first_of_other_size(rt.alloc())?, None);
    Ok(())
}

/// Faults in the netlist of the machine of two states: the words, the step lines, and the lines of the simulation.
static FAULTS: [(&[u8], &[u8], &[u8]); 4] = [
    (
        b"sim pin t0_0 0 1 1-1",
        b"0\n0\n0\n0\n",
        b"0 0 1 01 10 quiet\n1 0 1 01 10 quiet\n2 0 1 11 11 alarm\n3 0 1 11 11 alarm\n",
    ),
    (
        b"sim pin t0_0 0 1 1",
        b"0\n0\n0\n",
        b"0 0 1 01 10 quiet\n1 0 1 01 10 quiet\n2 0 1 11 11 alarm\n",
    ),
    (b"sim stem t0_1 0 0", b"1\n", b"0 0 0 00 00 alarm\n"),
    (b"sim stem t0_1 0 9", b"1\n", b"0 1 0 10 10 quiet\n"),
];

/// The place of the first fault that isn't shown so in a netlist.
fn first_not_shown(alloc: Global, netlist: &[u8]) -> Result<Option<usize>, AllocError> {
    for (place, (words, steps, lines)) in FAULTS.iter().enumerate() {
        let text = joined(alloc, netlist, steps)?;
        if !ends(alloc, words, text, 0, lines, b"")? {
            return Ok(Some(place));
        }
    }
    Ok(None)
}

#[test]
fn faults_of_a_machine_are_shown(rt: HostRuntime) -> Result<(), Fail> {
    let source = Bytes::from_slice(rt.alloc(), TWO_STATES)?;
    let made = after_run(rt.alloc(), b"synth kiss mofn", source, NO_FAULTS)?;
    assert_eq!(rt; first_not_shown(rt.alloc(), made.sink.written())?, None);
    Ok(())
}

/// Appends row `number` of a controller of 48 states: two binary digits of the number of the round, and five inputs that it doesn't
/// ask for; output j is 1 where number and j together are divisible by 3.
fn push_row(text: &mut Bytes, number: usize) -> Result<(), AllocError> {
    text.append(match number / 48 {
        0 => b"00----- s",
        1 => b"01----- s",
        _ => b"10----- s",
    })?;
    push_number(text, (number % 48) as u64)?;
    text.append(b" s")?;
    push_number(text, ((7 * (number % 48) + 1) % 48) as u64)?;
    text.append(match number % 3 {
        0 => b" 1001001001001001001\n",
        1 => b" 0010010010010010010\n",
        _ => b" 0100100100100100100\n",
    })
}

/// A controller of ordinary size: 7 inputs, 19 outputs, 48 states, 115 rows.
pub fn controller(alloc: Global) -> Result<Bytes, AllocError> {
    let mut text = Bytes::from_slice(alloc, b".i 7\n.o 19\n")?;
    for number in 0..115 {
        push_row(&mut text, number)?;
    }
    text.append(b".e\n")?;
    Ok(text)
}

#[test]
fn a_controller_is_written_and_run(rt: HostRuntime) -> Result<(), Fail> {
    let source = controller(rt.alloc())?;
    let made = after_run(rt.alloc(), b"synth kiss berger", source, NO_FAULTS)?;
    let text = joined(rt.alloc(), made.sink.written(), b"0000000\n")?;
    let lines = b"0 1001001001001001001 01100 00010111 10 quiet\n";
    assert!(rt; ends(rt.alloc(), b"sim none", text, 0, lines, b"")?);
    Ok(())
}
