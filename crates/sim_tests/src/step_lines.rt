//! The lines of simulations: each kind of run once.
ghost use Rattle.std.specs.Prelude.{◌≤◌, length};
ghost use Rattle.fault_secure.specs.CodePlan.{IsPlanOf};

mod machine;

use buffered_sink::{Page, finish};
use shared_tests::{AND, net_and_plan_of};
use sim_text::{RunError, StepLines, simulate};
use std::alloc::{AllocError, Global};
use std::test::Fail;
use tsc_io::{Bytes, CallList, MemSink, WriteFault};
use tsc_net::{Fault, NetId, PlannedNetlist, Span, When};
use tsc_text::{Lines, push_number};

/// Every step.
const ALWAYS: Span = Span {
    first: 0,
    last: u64::MAX,
};

/// What is printed of a small netlist over the step lines of a text, by a sink that fails at one of its calls, or at none; and whether
/// all of it was.
fn printed(
    alloc: Global,
    read: &PlannedNetlist,
    fault: Fault,
    steps: Span,
    text: &[u8],
    fails: &[u64],
) -> Option<(MemSink, bool)>
    requires plan { IsPlanOf read.now.net.circuit read.now.plan }
    requires steps { steps.first ≤ steps.last }
    requires short { length text.now ≤ 67108864 }
{
    let mut sink = sink_of(alloc, fails)?;
    match print_text(alloc, &mut sink, read, fault, steps, text) {
        Ok(()) => Some((sink, true)),
        Err(RunError::WriteFault) => Some((sink, false)),
        Err(_) => None,
    }
}

/// A sink with room for a million bytes, a thousand a call.
fn sink_of(alloc: Global, fails: &[u64]) -> Option<MemSink> {
    let calls = CallList::from_slice(alloc, fails).ok()?;
    MemSink::new(alloc, 1_000_000, 1000, calls).ok()
}

/// Prints the run over the step lines of a text.
fn print_text(
    alloc: Global,
    sink: &mut MemSink,
    read: &PlannedNetlist,
    fault: Fault,
    steps: Span,
    text: &[u8],
) -> Result<(), RunError>
    requires plan { IsPlanOf read.now.net.circuit read.now.plan }
    requires steps { steps.first ≤ steps.last }
    requires short { length text.now ≤ 67108864 }
{
    let bytes = Bytes::from_slice(alloc, text).map_err(RunError::Memory)?;
    match Lines::of(alloc, &bytes) {
        Ok(lines) => print_run(alloc, sink, read, fault, steps, &lines),
        Err(_) => Err(RunError::NotListed),
    }
}

/// Prints the run over step lines.
#[tactic(auto, using(fault_sim::proofs::PlanNets::plan_nets))]
fn print_run(
    alloc: Global,
    sink: &mut MemSink,
    read: &PlannedNetlist,
    fault: Fault,
    held: Span,
    lines: &Lines,
) -> Result<(), RunError>
    requires plan { IsPlanOf read.now.net.circuit read.now.plan }
    requires steps { held.first ≤ held.last }
{
    let net = &read.net;
    if net.latches() > 64 || net.nets() > 1082368 {
        return Err(RunError::NotListed);
    }
    let Ok(steps) = StepLines::of(lines, 0, net.inputs()) else {
        return Err(RunError::NotListed);
    };
    let mut page = Page::new(alloc).map_err(RunError::Memory)?;
    let when = when_of(alloc, held)?;
    simulate(
        alloc,
        sink,
        &mut page,
        net,
        &read.plan,
        Some(fault),
        when,
        &steps,
    )?;
    finish(sink, &mut page).map_err(failed)
}

/// The steps of a span.
fn when_of(alloc: Global, steps: Span) -> Result<When, RunError>
    requires steps { steps.first ≤ steps.last }
{
    let mut when = When::new(alloc);
    when.push(steps).map_err(RunError::Memory)?;
    Ok(when)
}

fn failed(fault: WriteFault) -> RunError {
    let WriteFault = fault;
    RunError::WriteFault
}

/// So many step lines of the two inputs, each third of them a 0 in both.
fn many_steps(alloc: Global, count: usize) -> Result<Bytes, AllocError>
    requires few { count ≤ 20000 }
{
    let mut text = Bytes::new(alloc);
    for line in 0..count {
        text.append(if line % 3 == 0 { b"00\n" } else { b"11\n" })?;
    }
    Ok(text)
}

/// What is printed over them where the first rail is held at 0 in the steps from 1,000 to 1,027.
fn many_text(alloc: Global, count: usize) -> Result<Bytes, AllocError> {
    let mut text = Bytes::new(alloc);
    for line in 0..count {
        push_number(&mut text, line as u64)?;
        text.append(shown_at(line))?;
    }
    Ok(text)
}

fn shown_at(line: usize) -> &'static [u8] {
    if line % 3 == 0 {
        b" 0 1 . 01 quiet\n"
    } else if line >= 1000 && line <= 1027 {
        b" 1 0 . 00 alarm\n"
    } else {
        b" 1 0 . 10 quiet\n"
    }
}

/// The first rail of the conjunction.
const RAIL: Fault = Fault::Stem {
    net: NetId { number: 5 },
    value: false,
};

/// The steps at which it is held.
const HELD: Span = Span {
    first: 1000,
    last: 1027,
};

/// What is printed over 6,000 step lines of the conjunction, by a sink that fails at these calls, and whether all of it was.
fn printed_many(alloc: Global, fails: &[u64]) -> Option<(MemSink, bool)> {
    let steps = many_steps(alloc, 6000).ok()?;
    if steps.len() > 100_000 {
        return None;
    }
    printed_steps(alloc, steps.as_slice(), fails)
}

/// The same over any step lines.
fn printed_steps(alloc: Global, steps: &[u8], fails: &[u64]) -> Option<(MemSink, bool)>
    requires short { length steps.now ≤ 67108864 }
{
    let read = net_and_plan_of(alloc, AND)?;
    printed(alloc, &read, RAIL, HELD, steps, fails)
}

/// Whether what is printed over so many step lines is written, or its first bytes alone, so many of them.
fn is_written(
    alloc: Global,
    sink: &MemSink,
    lines: usize,
    bytes: Option<usize>,
) -> Result<bool, AllocError> {
    let text = many_text(alloc, lines)?;
    let shown = match bytes {
        Some(bytes) => text.as_slice().get(..bytes),
        None => Some(text.as_slice()),
    };
    Ok(shown == Some(sink.written()))
}

/// More lines than settle at once, and more than a page holds.
fn many_are_printed(alloc: Global) -> Option<bool> {
    let (sink, whole) = printed_many(alloc, &[])?;
    Some(whole && is_written(alloc, &sink, 6000, None).ok()?)
}

/// Where the sink fails in the fourth thousand of bytes it has the three before.
fn first_part_is_printed(alloc: Global) -> Option<bool> {
    let (sink, whole) = printed_many(alloc, &[3])?;
    Some(!whole && is_written(alloc, &sink, 1000, Some(3000)).ok()?)
}

/// Whether exactly this is printed of a netlist over the step lines of a text.
fn is_printed(
    alloc: Global,
    netlist: &[u8],
    fault: Fault,
    steps: Span,
    text: &[u8],
    shown: &[u8],
) -> Option<bool>
    requires steps { steps.first ≤ steps.last }
    requires netlist { length netlist.now ≤ 67108864 }
    requires short { length text.now ≤ 67108864 }
{
    let read = net_and_plan_of(alloc, netlist)?;
    let (sink, whole) = printed(alloc, &read, fault, steps, text, &[])?;
    Some(whole && sink.written() == shown)
}

#[test]
fn lines_beyond_a_batch(rt: HostRuntime) -> Result<(), Fail> {
    assert_eq!(rt; many_are_printed(rt.alloc()), Some(true));
    Ok(())
}

#[test]
fn failing_sink_has_a_first_part(rt: HostRuntime) -> Result<(), Fail> {
    assert_eq!(rt; first_part_is_printed(rt.alloc()), Some(true));
    Ok(())
}

#[test]
fn stuck_rail_shows_as_an_alarm(rt: HostRuntime) -> Result<(), Fail> {
    let shown = b"0 1 0 . 00 alarm\n1 0 1 . 01 quiet\n";
    assert_eq!(rt;
        is_printed(rt.alloc(), AND, RAIL, ALWAYS, b"11\n00\n", shown),
        Some(true)
    );
    Ok(())
}
