//! A command over its devices.
ghost use Rattle.std.specs.Prelude.{◌≡◌, ◌+◌, ◌≤◌, false, [], length, IfErr, IfOk};
ghost use Rattle.tsc_tool.specs.Cause.{HasNoAnswer, IsPerformed, Stops};
ghost use Rattle.netlist_answers.specs.Devices.{IsRead, sink_call, source_call};
ghost use Rattle.netlist_answers.specs.Printout.{is_sim};
ghost use Rattle.tsc_tool.specs.Written.{WritesAnswer};

use answers::answer;
use buffered_sink::{Page, finish};
use commands::{Command, SimFault};
use netlist_answers::{print_simulation, write_printout};
use refusals::{Ending, Refusal};
use std::alloc::Global;
use tsc_io::{Bytes, InError, Sink, Source, WriteFault, read_all};
use tsc_text::LONGEST;

/// Reads the text of a command to its end, writes its answer as it is made, and tells how the command ends. All memory is had before
/// the first byte is written.
pub fn perform<S: Source, K: Sink>(
    alloc: Global,
    command: Command,
    source: &mut S,
    sink: &mut K,
) -> Result<Ending, Refusal>
    ensures done { IfOk result (λ ending. IsPerformed ending command
        (source_call (S.left source.old) (S.left source.new) (S.faults source.old) (S.faults source.new) (S.calls source.old) (S.calls source.new))
        (sink_call (K.written sink.old) (K.written sink.new) (K.faults sink.old) (K.faults sink.new))) }
    ensures stopped { IfErr result (Stops command
        (source_call (S.left source.old) (S.left source.new) (S.faults source.old) (S.faults source.new) (S.calls source.old) (S.calls source.new))
        (sink_call (K.written sink.old) (K.written sink.new) (K.faults sink.old) (K.faults sink.new))) }
    ensures calls { S.calls source.new ≤ S.calls source.old + 67108866 }
{
    let text = read_text(alloc, source)?;
    let mut page = match Page::new(alloc) {
        Ok(page) => page,
        Err(error) => return Err(Refusal::Memory(error)),
    };
    write_answer(alloc, command, &text, sink, &mut page)
}

/// Reads a text to its end.
fn read_text<S: Source>(alloc: Global, source: &mut S) -> Result<Bytes, Refusal>
    ensures read { IfOk result (IsRead (source_call (S.left source.old) (S.left source.new) (S.faults source.old) (S.faults source.new) (S.calls source.old) (S.calls source.new))) }
    ensures unread { IfErr result (λ refusal. (command : Command) → HasNoAnswer command
        (source_call (S.left source.old) (S.left source.new) (S.faults source.old) (S.faults source.new) (S.calls source.old) (S.calls source.new)) refusal) }
    ensures calls { S.calls source.new ≤ S.calls source.old + 67108866 }
{
    match read_all(alloc, source, LONGEST) {
        Ok(text) => Ok(text),
        Err(InError::ReadFault) => Err(Refusal::ReadFault),
        Err(InError::TooLong) => Err(Refusal::TooLong),
        Err(InError::Memory(error)) => Err(Refusal::Memory(error)),
    }
}

/// Writes the answer of a command to a text, and tells how the command ends.
fn write_answer<K: Sink>(
    alloc: Global,
    command: Command,
    text: &Bytes,
    sink: &mut K,
    page: &mut Page,
) -> Result<Ending, Refusal>
    requires short { length text.now ≤ 67108864 }
    requires empty { page.old ≡ [] }
    ensures ends { WritesAnswer command text.now result (sink_call (K.written sink.old) (K.written sink.new) (K.faults sink.old) (K.faults sink.new)) }
{
    match command {
        Command::Sim(fault) => write_simulation(alloc, fault, text, sink, page),
        command => write_made(alloc, command, text, sink, page),
    }
}

/// Writes the run of a simulation.
fn write_simulation<K: Sink>(
    alloc: Global,
    fault: SimFault,
    text: &Bytes,
    sink: &mut K,
    page: &mut Page,
) -> Result<Ending, Refusal>
    requires short { length text.now ≤ 67108864 }
    requires empty { page.old ≡ [] }
    ensures ends { WritesAnswer (Command.Sim fault) text.now result (sink_call (K.written sink.old) (K.written sink.new) (K.faults sink.old) (K.faults sink.new)) }
{
    print_simulation(alloc, sink, page, fault, text)?;
    match finish(sink, page) {
        Ok(()) => Ok(Ending::Finished),
        Err(WriteFault) => Err(Refusal::WriteFault),
    }
}

/// Writes an answer that is worked out before the first byte is written.
fn write_made<K: Sink>(
    alloc: Global,
    command: Command,
    text: &Bytes,
    sink: &mut K,
    page: &mut Page,
) -> Result<Ending, Refusal>
    requires short { length text.now ≤ 67108864 }
    requires whole { is_sim command ≡ false }
    requires empty { page.old ≡ [] }
    ensures ends { WritesAnswer command text.now result (sink_call (K.written sink.old) (K.written sink.new) (K.faults sink.old) (K.faults sink.new)) }
{
    let printout = answer(alloc, command, text)?;
    match write_printout(sink, page, &printout) {
        Ok(()) => Ok(printout.ending()),
        Err(WriteFault) => Err(Refusal::WriteFault),
    }
}
