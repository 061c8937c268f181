//! Machines with known answers, and one refusal of each kind.
use kiss_read::{KissError, KissText, read_kiss};
use std::alloc::{AllocError, Global};
use std::test::Fail;
use tsc_io::Bytes;
use tsc_net::{Answer, NameTexts};
use tsc_text::{End, LONGEST, Lines, Which};

/// A machine of two states.
const TWO_STATES: &[u8] = b".i 1\n.o 1\n0 A A 0\n1 A B 1\n0 B B 0\n1 B A 1\n.e\n";

/// A machine that has to be completed.
const COMPLETED: &[u8] = b".i 2\n.o 2\n.s 2\n.p 3\n0- A B 1-\n1- A * 01\n11 B A -1\n.e\n";

/// Texts, and how they have to be refused.
static REFUSED: [(&[u8], &str); 13] = [
    (
        b".i 2\n.o 1\n0- A A 1\n-0 A A 0\n.e\n",
        "line 4: conflicts with line 3",
    ),
    (
        b".i 1\n.o 1\n0 * A 1\n1 A A 0\n- A B -\n",
        "line 5: conflicts with line 3",
    ),
    (b".i 1\n.o 1\n.e\n", "no rows"),
    (b".i 1\n.o 1\n- * * 0\n.e\n", "no rows"),
    (b".r Z\n.i 1\n.o 1\n0 A A 0\n.e\n", "line 1: no reset state"),
    (b".i 0\n.o 1\n0 A A 0\n.e\n", "line 1: header"),
    (b".i 1\n.o 1\n.s 1\n.s 1\n", "line 4: header"),
    (b".i 1\n0 A A 0\n.o 1\n", "line 2: header"),
    (b".ob x\n.i 1\n.o 1\n.ilb x\n0 A A 0\n", "line 4: header"),
    (b".i 1\n.o 1\n.ilb\n0 A A 0\n.x\n", "line 5: unsupported"),
    (b".i 1\n.o 1\n0 - A 0\n.x\n", "line 3: row shape"),
    (b".i 1\n.o 1\n0 A A 01\n", "line 3: row shape"),
    (b".i 65\n.o 1\n", "line 1: limit"),
];

/// What the first section of a text denotes.
#[tactic(auto, using(kiss_read::proofs::Sections::is_section))]
fn read(alloc: Global, text: &Bytes) -> Result<KissText, KissError> {
    if text.len() > LONGEST {
        return Err(KissError::NoRows);
    }
    match Lines::of(alloc, text) {
        Ok(lines) => read_kiss(alloc, &lines, lines.section(0, End::Kiss)),
        Err(_) => Err(KissError::NoRows),
    }
}

/// The answer of a machine at a state and input.
fn answer(text: &KissText, state: u32, input: u64) -> Option<Answer> {
    if (state as usize) < text.machine.states() {
        Some(text.machine.answer(state, input))
    } else {
        None
    }
}

/// An answer.
fn given(outputs: u64, next: u32) -> Option<Answer> {
    Some(Answer { outputs, next })
}

/// Whether the first of some names is this.
fn is_first(names: &NameTexts, name: &[u8]) -> bool {
    match names.as_slice() {
        [first, ..] => first.as_slice() == name,
        [] => false,
    }
}

/// How a text is refused.
fn refusal(alloc: Global, text: &[u8]) -> Result<String, AllocError> {
    let bytes = Bytes::from_slice(alloc, text)?;
    match read(alloc, &bytes) {
        Ok(_) => format!(in alloc; "read"),
        Err(error) => format!(in alloc; "{error}"),
    }
}

/// The place of the first text that isn't refused as it has to be.
fn first_not_refused(alloc: Global) -> Result<Option<usize>, AllocError> {
    for (place, (text, expected)) in REFUSED.iter().enumerate() {
        if refusal(alloc, text)?.as_str() != *expected {
            return Ok(Some(place));
        }
    }
    Ok(None)
}

#[test]
fn two_states(rt: HostRuntime) -> Result<(), Fail> {
    let bytes = Bytes::from_slice(rt.alloc(), TWO_STATES)?;
    let text = read(rt.alloc(), &bytes)?;
    assert_eq!(rt; text.machine.reset(), 0);
    assert_eq!(rt; answer(&text, 0, 1), given(1, 1));
    assert_eq!(rt; answer(&text, 1, 0), given(0, 1));
    assert_eq!(rt; answer(&text, 2, 0), None);
    assert!(rt; is_first(&text.inputs, b"i0"));
    assert!(rt; is_first(&text.outputs, b"o0"));
    Ok(())
}

#[test]
fn completed(rt: HostRuntime) -> Result<(), Fail> {
    let bytes = Bytes::from_slice(rt.alloc(), COMPLETED)?;
    let text = read(rt.alloc(), &bytes)?;
    assert_eq!(rt; answer(&text, 0, 0), given(2, 1));
    assert_eq!(rt; answer(&text, 0, 2), given(1, 0));
    assert_eq!(rt; answer(&text, 1, 0), given(0, 0));
    assert_eq!(rt; answer(&text, 1, 3), given(1, 0));
    assert!(rt; text.machine.states() == 2 && text.machine.allows(1, 0, 3, 1));
    assert!(rt; text.machine.states() == 2 && !text.machine.allows(0, 0, 3, 0));
    Ok(())
}

#[test]
fn refusals(rt: HostRuntime) -> Result<(), Fail> {
    assert_eq!(rt; first_not_refused(rt.alloc())?, None);
    Ok(())
}

/// So many rows, each of a state of its own.
fn many_rows(alloc: Global, count: usize) -> Result<Bytes, AllocError> {
    let mut text = Bytes::new(alloc);
    text.append(b".i 1\n.o 1\n")?;
    for state in 0..count {
        let row = format!(in alloc; "- s{state} * 0\n")?;
        text.append(row.as_bytes())?;
    }
    Ok(text)
}

/// How many states the machine of so many rows has.
fn states_of(alloc: Global, rows: usize) -> Result<usize, KissError> {
    let text = many_rows(alloc, rows).map_err(KissError::Memory)?;
    Ok(read(alloc, &text)?.machine.states())
}

#[test]
fn states_keep_their_limit(rt: HostRuntime) -> Result<(), Fail> {
    assert_eq!(rt; states_of(rt.alloc(), 4096)?, 4096);
    let refused = matches!(
        states_of(rt.alloc(), 4097),
        Err(KissError::Limit {
            line: 4099,
            which: Which::States
        })
    );
    assert!(rt; refused);
    Ok(())
}
