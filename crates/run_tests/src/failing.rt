//! Devices that fail, at each call, and a source without an end.
ghost use Rattle.std.specs.Prelude.{None};

use crate::runs::{Faults, NO_FAULTS, after_reading, after_run, is_ended, joined};
use crate::texts::{
    AND2, FOLLOWING, FREE_AT_ONE, HELD, PROVED_WIRE, SAFE_AND2, SAFE_WIRE, TOGGLE, TWO_STATES, WIRE,
};
use std::alloc::{AllocError, Global};
use std::test::Fail;
use tsc_io::{Bytes, CallList, Failed, MemSource, Source};

const WORDS: &[u8] = b"synth blif parity";

/// The words, the devices' faults, the status, how much of the answer is written, and the note.
type Failing = (&'static [u8], Faults, u8, usize, &'static [u8]);

static FAILING: [Failing; 5] = [
    (
        WORDS,
        Faults {
            source: Some(59),
            ..NO_FAULTS
        },
        0,
        181,
        b"",
    ),
    (
        WORDS,
        Faults {
            room: 181,
            ..NO_FAULTS
        },
        0,
        181,
        b"",
    ),
    (
        WORDS,
        Faults {
            sink: Some(0),
            ..NO_FAULTS
        },
        6,
        0,
        b"tsc: writing failed\n",
    ),
    (
        b"synth blif",
        Faults {
            notes_room: 0,
            ..NO_FAULTS
        },
        2,
        0,
        b"",
    ),
    (
        b"synth blif",
        Faults {
            notes: Some(1),
            ..NO_FAULTS
        },
        2,
        0,
        b"tsc: us",
    ),
];

/// Whether a run on the and gate ends so, with the first bytes of its answer.
fn comes_to(
    alloc: Global,
    words: &[u8],
    faults: Faults,
    status: u8,
    count: usize,
    note: &[u8],
) -> Result<bool, AllocError> {
    let text = Bytes::from_slice(alloc, AND2)?;
    let ended = after_run(alloc, words, text, faults)?;
    Ok(count <= SAFE_AND2.len() && is_ended(&ended, status, &SAFE_AND2[..count], note))
}

#[test]
fn devices_fail(rt: HostRuntime) -> Result<(), Fail> {
    for (words, faults, status, count, note) in &FAILING {
        assert!(rt; comes_to(rt.alloc(), words, *faults, *status, *count, note)?);
    }
    Ok(())
}

#[test]
fn the_source_fails(rt: HostRuntime) -> Result<(), Fail> {
    for call in 0..7 {
        let faults = Faults {
            source: Some(call),
            ..NO_FAULTS
        };
        assert!(rt; comes_to(rt.alloc(), WORDS, faults, 5, 0, b"tsc: reading failed\n")?);
    }
    Ok(())
}

#[test]
fn the_sink_is_full(rt: HostRuntime) -> Result<(), Fail> {
    for room in 0..181 {
        let faults = Faults { room, ..NO_FAULTS };
        assert!(rt; comes_to(rt.alloc(), WORDS, faults, 6, room, b"tsc: writing failed\n")?);
    }
    Ok(())
}

/// The words of each command, its text, and what is read after it.
static COMMANDS: [(&[u8], &[u8], &[u8]); 20] = [
    (b"synth blif berger", AND2, b""),
    (b"synth blif watched", HELD, b""),
    (b"synth kiss mofn", TWO_STATES, b""),
    (b"synth pla berger", FREE_AT_ONE, b""),
    (b"audit blif", AND2, SAFE_AND2),
    (b"audit kiss", TWO_STATES, TOGGLE),
    (b"audit pla", FREE_AT_ONE, FOLLOWING),
    (b"audit wide 64", AND2, SAFE_AND2),
    (b"audit exact kiss", TWO_STATES, TOGGLE),
    (b"audit mapped", SAFE_AND2, SAFE_AND2),
    (b"ask exact", WIRE, SAFE_WIRE),
    (b"audit proof", WIRE, PROVED_WIRE),
    (b"faults", SAFE_AND2, b""),
    (b"vectors", TOGGLE, b""),
    (b"grade", TOGGLE, b"0\n1\n0\n"),
    (b"sim none", SAFE_AND2, b"00\n01\n10\n11\n"),
    (b"sim stem t0_1 0 2", TOGGLE, b"0\n1\n0\n1\n"),
    (b"make 5", b"", b""),
    (b"join", SAFE_AND2, SAFE_WIRE),
    (b"help", b"", b""),
];

/// Whether a run whose sink has so much room ends with a failed write and the first bytes of the answer.
fn is_first_part(
    alloc: Global,
    words: &[u8],
    text: Bytes,
    answer: &[u8],
    room: usize,
) -> Result<bool, AllocError> {
    let ended = after_run(alloc, words, text, Faults { room, ..NO_FAULTS })?;
    let first = answer.get(..room).unwrap_or(answer);
    Ok(is_ended(&ended, 6, first, b"tsc: writing failed\n"))
}

/// Whether each write, where it fails, leaves the first bytes of the answer.
fn writes_fail(
    alloc: Global,
    words: &[u8],
    text: &[u8],
    answer: &[u8],
) -> Result<bool, AllocError> {
    for room in 0..answer.len() {
        let text = Bytes::from_slice(alloc, text)?;
        if !is_first_part(alloc, words, text, answer, room)? {
            return Ok(false);
        }
    }
    Ok(true)
}

/// Whether each read, where it fails, leaves nothing.
fn reads_fail(alloc: Global, words: &[u8], text: &[u8]) -> Result<bool, AllocError> {
    for call in 0..text.len() as u64 / 10 {
        let faults = Faults {
            source: Some(call),
            ..NO_FAULTS
        };
        let ended = after_run(alloc, words, Bytes::from_slice(alloc, text)?, faults)?;
        if !is_ended(&ended, 5, b"", b"tsc: reading failed\n") {
            return Ok(false);
        }
    }
    Ok(true)
}

/// Whether a command ends well on devices that don't fail, and as is said on those that do.
fn fails_in_turn(alloc: Global, words: &[u8], text: &[u8]) -> Result<bool, AllocError> {
    let done = after_run(alloc, words, Bytes::from_slice(alloc, text)?, NO_FAULTS)?;
    let answer = done.sink.written();
    Ok(
        done.status.code() == 0
            && !answer.is_empty()
            && writes_fail(alloc, words, text, answer)?
            && reads_fail(alloc, words, text)?,
    )
}

#[test]
fn each_command_fails_in_turn(rt: HostRuntime) -> Result<(), Fail> {
    for (words, text, behind) in &COMMANDS {
        let text = joined(rt.alloc(), text, behind)?;
        assert!(rt; fails_in_turn(rt.alloc(), words, text.as_slice())?);
    }
    Ok(())
}

/// Whether a source that is cut off is read or refused; where it is refused nothing is written.
fn is_cut_well(alloc: Global, cut: usize) -> Result<bool, AllocError> {
    let text = Bytes::from_slice(alloc, AND2.get(..cut).unwrap_or(AND2))?;
    let ended = after_run(alloc, WORDS, text, NO_FAULTS)?;
    let status = ended.status.code();
    let is_empty = ended.sink.written().is_empty();
    Ok(status == 0 && !is_empty || status == 3 && is_empty)
}

#[test]
fn texts_are_cut(rt: HostRuntime) -> Result<(), Fail> {
    assert_eq!(rt; AND2.len(), 58);
    for cut in 1..59 {
        assert!(rt; is_cut_well(rt.alloc(), cut)?);
    }
    Ok(())
}

/// A source of so many blanks, or of blanks for ever.
#[derive(Drop)]
struct Blanks {
    left: Option<usize>,
}

impl Source for Blanks {
    ghost left = { λ source. None };

    ghost faults = { λ source. 0 };

    ghost calls = { λ source. 0 };

    fn read(&mut self, into: &mut [u8]) -> Result<usize, Failed> {
        let Some(left) = self.left else {
            into.fill(b' ');
            return Ok(into.len());
        };
        let count = left.min(into.len());
        into[..count].fill(b' ');
        self.left = Some(left - count);
        Ok(count)
    }
}

/// Whether blanks, if so many, are refused as too many bytes.
fn is_too_long(alloc: Global, left: Option<usize>) -> Result<bool, AllocError> {
    let mut source = Blanks { left };
    let ended = after_reading(alloc, WORDS, &mut source, NO_FAULTS)?;
    Ok(is_ended(&ended, 4, b"", b"tsc: limit: 67108864 bytes\n"))
}

/// Whether so many blanks in memory are refused as too many bytes.
fn is_too_long_in_memory(alloc: Global, count: usize) -> Result<bool, AllocError> {
    let mut text = Bytes::new(alloc);
    for _ in 0..count {
        text.push(b' ')?;
    }
    let mut source = MemSource::new(text, 65_536, CallList::new(alloc));
    let ended = after_reading(alloc, WORDS, &mut source, NO_FAULTS)?;
    Ok(is_ended(&ended, 4, b"", b"tsc: limit: 67108864 bytes\n"))
}

#[test]
fn too_many_bytes_in_memory(rt: HostRuntime) -> Result<(), Fail> {
    assert!(rt; is_too_long_in_memory(rt.alloc(), 67_108_865)?);
    Ok(())
}

#[test]
fn too_many_bytes(rt: HostRuntime) -> Result<(), Fail> {
    for left in [Some(67_108_865), None] {
        assert!(rt; is_too_long(rt.alloc(), left)?);
    }
    Ok(())
}
