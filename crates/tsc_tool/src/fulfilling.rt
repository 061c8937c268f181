//! What the words ask for, over its devices.
ghost use Rattle.std.specs.Prelude.{◌≡◌, ◌+◌, ◌≤◌, IfErr, IfOk};
ghost use Rattle.tsc_tool.specs.Cause.{IsFulfilled, StopsHelp, StopsMake, StopsRequest};
ghost use Rattle.netlist_answers.specs.Devices.{Gains, sink_call, source_call};
ghost use Rattle.made_report.specs.Made.{made_report};
ghost use Rattle.tsc_tool.specs.Help.{help_text};

use crate::performing::perform;
use commands::Request;
use made_report::make_report;
use refusals::{Ending, Refusal};
use std::alloc::Global;
use tsc_io::{Sink, Source, WriteFault, write_all};

/// Does what was asked for, writes the answer, and tells how it ends.
pub fn fulfil<S: Source, K: Sink>(
    alloc: Global,
    request: Request,
    source: &mut S,
    sink: &mut K,
) -> Result<Ending, Refusal>
    ensures done { IfOk result (λ ending. IsFulfilled ending request
        (source_call (S.left source.old) (S.left source.new) (S.faults source.old) (S.faults source.new) (S.calls source.old) (S.calls source.new))
        (sink_call (K.written sink.old) (K.written sink.new) (K.faults sink.old) (K.faults sink.new))) }
    ensures stopped { IfErr result (StopsRequest request
        (source_call (S.left source.old) (S.left source.new) (S.faults source.old) (S.faults source.new) (S.calls source.old) (S.calls source.new))
        (sink_call (K.written sink.old) (K.written sink.new) (K.faults sink.old) (K.faults sink.new))) }
    ensures calls { S.calls source.new ≤ S.calls source.old + 67108866 }
{
    match request {
        Request::Read(command) => perform(alloc, command, source, sink),
        Request::Make(number) => make(alloc, number, sink),
        Request::Help => help(sink),
    }
}

/// Writes the report on the machine that is made from a number.
fn make<K: Sink>(alloc: Global, number: u64, sink: &mut K) -> Result<Ending, Refusal>
    ensures finished { IfOk result (λ ending. ending ≡ Ending.Finished) }
    ensures gained { IfOk result (λ ending. Gains (sink_call (K.written sink.old) (K.written sink.new) (K.faults sink.old) (K.faults sink.new)) (made_report number)) }
    ensures stopped { IfErr result (StopsMake number (sink_call (K.written sink.old) (K.written sink.new) (K.faults sink.old) (K.faults sink.new))) }
{
    let report = make_report(alloc, number)?;
    match write_all(sink, report.as_slice()) {
        Ok(()) => Ok(Ending::Finished),
        Err(WriteFault) => Err(Refusal::WriteFault),
    }
}

/// Writes the words that have a meaning.
fn help<K: Sink>(sink: &mut K) -> Result<Ending, Refusal>
    ensures finished { IfOk result (λ ending. ending ≡ Ending.Finished) }
    ensures gained { IfOk result (λ ending. Gains (sink_call (K.written sink.old) (K.written sink.new) (K.faults sink.old) (K.faults sink.new)) help_text) }
    ensures stopped { IfErr result (StopsHelp (sink_call (K.written sink.old) (K.written sink.new) (K.faults sink.old) (K.faults sink.new))) }
{
    match write_all(sink, HELP) {
        Ok(()) => Ok(Ending::Finished),
        Err(WriteFault) => Err(Refusal::WriteFault),
    }
}

/// The words that have a meaning, a line each.
const HELP: &[u8] =
    b"tsc synth blif parity|berger|mofn\ntsc synth kiss berger|mofn\ntsc synth pla parity|berger|mofn\ntsc synth blif|pla duplex\ntsc synth blif watched\ntsc audit blif|kiss|pla\ntsc audit wide ROWS\ntsc audit exact blif|kiss|pla\ntsc audit mapped\ntsc ask exact\ntsc audit proof\ntsc faults\ntsc vectors\ntsc grade\ntsc sim none\ntsc sim stem NET V WHEN\ntsc sim pin NET INDEX V WHEN\ntsc make NUMBER\ntsc join\ntsc help\n";
