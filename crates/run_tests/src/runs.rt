//! Runs over devices in memory, and tables of them.

use std::alloc::{AllocError, Global};
use tsc_io::{Bytes, CallList, MemSink, MemSource, Source, Words};
use tsc_tool::{Status, run};

/// What is done: the words, the text that is read, what is read after it, and what is written.
pub type Done = (&'static [u8], &'static [u8], &'static [u8], &'static [u8]);

/// What is refused: the words, the text that is read, what is read after it, the status and the note.
pub type Refused = (
    &'static [u8],
    &'static [u8],
    &'static [u8],
    u8,
    &'static [u8],
);

/// How a run ended.
#[derive(Drop)]
pub struct Ended {
    pub status: Status,
    pub sink: MemSink,
    pub notes: MemSink,
}

/// Which calls of the devices fail, and how much room the sinks have.
#[derive(Clone, Copy)]
pub struct Faults {
    pub source: Option<u64>,
    pub sink: Option<u64>,
    pub notes: Option<u64>,
    pub room: usize,
    pub notes_room: usize,
}

pub const NO_FAULTS: Faults = Faults {
    source: None,
    sink: None,
    notes: None,
    room: 16_777_216,
    notes_room: 4096,
};

/// The words of a text, parted by blanks.
fn words_of(alloc: Global, text: &[u8]) -> Result<Words, AllocError> {
    let mut words = Words::new(alloc);
    for word in text.split(|byte| *byte == b' ') {
        words.push(Bytes::from_slice(alloc, word)?)?;
    }
    Ok(words)
}

/// The list of one call, or of none.
fn calls_of(alloc: Global, call: Option<u64>) -> Result<CallList, AllocError> {
    let mut calls = CallList::new(alloc);
    if let Some(call) = call {
        calls.push(call)?;
    }
    Ok(calls)
}

/// A sink of so much room that takes seven bytes a call, and fails the call that is named.
fn sink(alloc: Global, room: usize, fails: Option<u64>) -> Result<MemSink, AllocError> {
    let calls = calls_of(alloc, fails)?;
    MemSink::new(alloc, room, 7, calls)
}

/// Sinks with this much room and these faults, before a run.
fn sinks(alloc: Global, faults: Faults) -> Result<Ended, AllocError> {
    let answer = sink(alloc, faults.room, faults.sink)?;
    let notes = sink(alloc, faults.notes_room, faults.notes)?;
    Ok(Ended {
        status: Status::Done,
        sink: answer,
        notes,
    })
}

/// Runs the words on a source.
fn perform<S: Source>(alloc: Global, words: &Words, source: &mut S, ended: &mut Ended) {
    ended.status = run(alloc, words, source, &mut ended.sink, &mut ended.notes);
}

/// Runs these words on a source, with these faults of the sinks.
pub fn after_reading<S: Source>(
    alloc: Global,
    words: &[u8],
    source: &mut S,
    faults: Faults,
) -> Result<Ended, AllocError> {
    let words = words_of(alloc, words)?;
    let mut ended = sinks(alloc, faults)?;
    perform(alloc, &words, source, &mut ended);
    Ok(ended)
}

/// Runs these words on this text, ten bytes a read and seven a write, with these faults.
pub fn after_run(
    alloc: Global,
    words: &[u8],
    text: Bytes,
    faults: Faults,
) -> Result<Ended, AllocError> {
    let mut source = MemSource::new(text, 10, calls_of(alloc, faults.source)?);
    after_reading(alloc, words, &mut source, faults)
}

/// One text and then another.
pub fn joined(alloc: Global, first: &[u8], then: &[u8]) -> Result<Bytes, AllocError> {
    let mut text = Bytes::from_slice(alloc, first)?;
    text.append(then)?;
    Ok(text)
}

/// Whether a run ended so.
pub fn is_ended(ended: &Ended, status: u8, answer: &[u8], note: &[u8]) -> bool {
    ended.status.code() == status && ended.sink.written() == answer && ended.notes.written() == note
}

/// Whether these words on this text, with devices that don't fail, end so.
pub fn ends(
    alloc: Global,
    words: &[u8],
    text: Bytes,
    status: u8,
    answer: &[u8],
    note: &[u8],
) -> Result<bool, AllocError> {
    let ended = after_run(alloc, words, text, NO_FAULTS)?;
    Ok(is_ended(&ended, status, answer, note))
}

fn is_done(alloc: Global, row: &Done) -> Result<bool, AllocError> {
    let (words, text, behind, answer) = row;
    let text = joined(alloc, text, behind)?;
    ends(alloc, words, text, 0, answer, b"")
}

fn is_refused(alloc: Global, row: &Refused) -> Result<bool, AllocError> {
    let (words, text, behind, status, note) = row;
    let text = joined(alloc, text, behind)?;
    ends(alloc, words, text, *status, b"", note)
}

/// The place of the first row that isn't done so.
pub fn first_not_done(alloc: Global, rows: &[Done]) -> Result<Option<usize>, AllocError> {
    for (place, row) in rows.iter().enumerate() {
        if !is_done(alloc, row)? {
            return Ok(Some(place));
        }
    }
    Ok(None)
}

/// The place of the first row that isn't refused so.
pub fn first_not_refused(alloc: Global, rows: &[Refused]) -> Result<Option<usize>, AllocError> {
    for (place, row) in rows.iter().enumerate() {
        if !is_refused(alloc, row)? {
            return Ok(Some(place));
        }
    }
    Ok(None)
}
