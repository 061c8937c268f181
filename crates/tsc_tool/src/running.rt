//! The top call.
ghost use Rattle.std.specs.Prelude.{◌+◌, ◌≤◌};
ghost use Rattle.tsc_tool.specs.Cause.{Cause, IsComplete, Tells};
ghost use Rattle.netlist_answers.specs.Devices.{IsTold, sink_call, source_call};

use crate::fulfilling::fulfil;
use commands::request_of;
use refusals::{Ending, Refusal, Status, fixed_note, note_text};
use std::alloc::Global;
use tsc_io::{Sink, Source, Words, write_all};

/// Does what the words after the program's name ask for: reads `source`, writes the answer to `sink`, and where there is none tells
/// why in one line of `notes`. Whatever the source gives, it is called at most 67,108,866 times.
pub fn run<S: Source, K: Sink, N: Sink>(
    alloc: Global,
    words: &Words,
    source: &mut S,
    sink: &mut K,
    notes: &mut N,
) -> Status
    ensures cause { Cause words.now (record {
      source = source_call (S.left source.old) (S.left source.new) (S.faults source.old) (S.faults source.new) (S.calls source.old) (S.calls source.new);
      sink = sink_call (K.written sink.old) (K.written sink.new) (K.faults sink.old) (K.faults sink.new);
      notes = sink_call (N.written notes.old) (N.written notes.new) (N.faults notes.old) (N.faults notes.new);
    }) result }
    ensures complete { IsComplete words.now (record {
      source = source_call (S.left source.old) (S.left source.new) (S.faults source.old) (S.faults source.new) (S.calls source.old) (S.calls source.new);
      sink = sink_call (K.written sink.old) (K.written sink.new) (K.faults sink.old) (K.faults sink.new);
      notes = sink_call (N.written notes.old) (N.written notes.new) (N.faults notes.old) (N.faults notes.new);
    }) result }
    ensures calls { S.calls source.new ≤ S.calls source.old + 67108866 }
{
    let request = match request_of(alloc, words) {
        Ok(Some(request)) => request,
        Ok(None) => return refuse(alloc, &Refusal::Usage, notes),
        Err(error) => return refuse(alloc, &Refusal::Memory(error), notes),
    };
    match fulfil(alloc, request, source, sink) {
        Ok(Ending::Finished) => Status::Done,
        Ok(Ending::Rejected) => Status::AuditNo,
        Err(refusal) => refuse(alloc, &refusal, notes),
    }
}

/// Tells why there is no answer, and answers the status.
fn refuse<N: Sink>(alloc: Global, refusal: &Refusal, notes: &mut N) -> Status
    ensures tells { Tells refusal.now (sink_call (N.written notes.old) (N.written notes.new) (N.faults notes.old) (N.faults notes.new)) result }
{
    if let Some(note) = fixed_note(refusal) {
        tell(note, notes);
        return refusal.status();
    }
    match note_text(alloc, refusal) {
        Ok(note) => {
            tell(note.as_slice(), notes);
            refusal.status()
        }
        Err(_) => {
            tell(b"tsc: out of memory\n", notes);
            Status::Memory
        }
    }
}

/// Writes a note. What fails there changes no status.
fn tell<N: Sink>(note: &[u8], notes: &mut N)
    ensures told { IsTold (sink_call (N.written notes.old) (N.written notes.new) (N.faults notes.old) (N.faults notes.new)) note.now }
{
    let _ = write_all(notes, note);
}
