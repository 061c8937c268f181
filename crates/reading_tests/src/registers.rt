//! Networks with registers: what is read, and why a text is refused.
use blif_read::{BlifError, BlifText, Clock, Edge, Kind, read_blif};
use std::alloc::{AllocError, Global};
use std::test::Fail;
use tsc_io::Bytes;
use tsc_text::{LONGEST, Lines, Section};

/// Two registers on the rising edge of one clock, of which the second holds either bit first.
const TWO: &[u8] =
    b".model ex\n.inputs clk a b\n.outputs y z\n.latch n1 p re clk 1\n.latch p q re clk 2\n.names a q n1\n11 1\n.names p b y\n1- 1\n-1 1\n.names q z\n0 1\n";

/// The name of their clock.
const CLOCK: &[u8] = b"clk";

/// Texts, and what is said of each.
static REFUSED: [(&[u8], &str); 15] = [
    (
        b".inputs a\n.outputs q\n.latch a q ah c 0\n",
        "line 3: latch clock",
    ),
    (
        b".inputs a\n.outputs q\n.latch a q xx c 0\n",
        "line 3: word count",
    ),
    (
        b".inputs a\n.outputs q\n.latch a q re c\n",
        "line 3: latch init",
    ),
    (
        b".inputs a\n.outputs q\n.latch a q 3\n",
        "line 3: latch init",
    ),
    (b".inputs a\n.outputs q\n.latch a q\n", "line 3: latch init"),
    (
        b".inputs a\n.outputs q r\n.latch a q 0\n.latch a r re c 3\n",
        "line 4: latch clock",
    ),
    (
        b".inputs a\n.outputs q r\n.latch a q re c 0\n.latch a r 0\n",
        "line 4: latch clock",
    ),
    (
        b".inputs a\n.outputs q r\n.latch a q re c 0\n.latch a r fe c 0\n",
        "line 4: latch clock",
    ),
    (
        b".inputs a\n.outputs q r\n.latch a q re c 0\n.latch a r re d 0\n",
        "line 4: latch clock",
    ),
    (
        b".inputs a\n.outputs q r\n.latch a q re c 0\n.latch a r re d\n.gate x\n",
        "line 4: latch clock",
    ),
    (
        b".inputs a\n.outputs q r\n.latch a q re c 3\n.latch a r re d 0\n",
        "line 3: latch init",
    ),
    (
        b".inputs a c\n.outputs q\n.latch c q re c 0\n",
        "line 3: latch clock",
    ),
    (
        b".inputs a c\n.outputs q c\n.latch a q re c 0\n",
        "line 3: latch clock",
    ),
    (
        b".inputs a\n.outputs q\n.latch a q re c 0\n.names a c\n1 1\n",
        "line 3: latch clock",
    ),
    (
        b".inputs a\n.outputs q\n.latch b q re c 0\n.names a c\n1 1\n",
        "a net is undriven",
    ),
];

/// What all lines of a text denote.
fn read(alloc: Global, text: &Bytes) -> Result<BlifText, BlifError> {
    if text.len() > LONGEST {
        return Err(BlifError::NoPlan);
    }
    match Lines::of(alloc, text) {
        Ok(lines) => read_lines(alloc, &lines),
        Err(_) => Err(BlifError::NoPlan),
    }
}

/// What all lines denote.
fn read_lines(alloc: Global, lines: &Lines) -> Result<BlifText, BlifError> {
    let section = Section {
        first: 0,
        past: lines.len(),
        next: lines.len(),
    };
    read_blif(alloc, lines, section, Kind::Registers)
}

/// Whether the clock is `clk`, on its rising edge.
fn is_rising(clock: &Option<Clock>) -> bool {
    match clock {
        Some(clock) => clock.edge == Edge::Rising && clock.control.as_slice() == CLOCK,
        None => false,
    }
}

/// How a text is refused.
fn refusal(alloc: Global, text: &[u8]) -> Result<String, AllocError> {
    let bytes = Bytes::from_slice(alloc, text)?;
    match read(alloc, &bytes) {
        Ok(_) => format!(in alloc; "read"),
        Err(error) => format!(in alloc; "{error}"),
    }
}

/// The place of the first text that isn't refused as it has to be.
fn first_not_refused(alloc: Global) -> Result<Option<usize>, AllocError> {
    for (place, (text, expected)) in REFUSED.iter().enumerate() {
        if refusal(alloc, text)?.as_str() != *expected {
            return Ok(Some(place));
        }
    }
    Ok(None)
}

#[test]
fn registers_are_read(rt: HostRuntime) -> Result<(), Fail> {
    let bytes = Bytes::from_slice(rt.alloc(), TWO)?;
    let text = read(rt.alloc(), &bytes)?;
    assert_eq!(rt; text.net.latches(), 2);
    assert!(rt; is_rising(&text.clock));
    Ok(())
}

#[test]
fn registers_are_refused(rt: HostRuntime) -> Result<(), Fail> {
    let first = first_not_refused(rt.alloc())?;
    assert_eq!(rt; first, None);
    Ok(())
}
