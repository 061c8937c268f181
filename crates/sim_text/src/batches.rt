//! A run of a netlist without latches: no step waits for another, and at most 1,024 of them settle at once.
ghost use Rattle.std.specs.Prelude.{◌≡◌, ◌+◌, ◌-◌, ◌<◌, ◌≤◌, ◌^◌, Bool, List, ◌++◌, min, All, drop, length, take, IfOk};
ghost use Rattle.buffered_sink.specs.Output.{output};
ghost use Rattle.fault_sim.specs.Sim.{IsStill};
ghost use Rattle.sim_text.specs.Widths.{AreFew, AreWidthsOf};
ghost use Rattle.sim_text.specs.Batches.{FitsEach, IsBatchAt, IsBatchFor};
ghost use Rattle.sim_text.specs.Printed.{PrintsRuns, RunsEnd, TakesOrFails};
ghost use Rattle.sim_text.specs.Tables.{AreTablesOf, sim_at};

use crate::run_error::RunError;
use crate::step_line::print_outcome;
use crate::steps::StepLines;
use crate::stepwise::blank_bits;
use crate::tables::{Tables, blank_tables, entry, put_tables};
use crate::widths::Widths;
use buffered_sink::Page;
use fault_sim::Sim;
use std::alloc::{AllocError, Global};
use tsc_io::{Items, Sink, WriteFault};
use tsc_net::Bits;

/// The most bytes that the input bits of a batch take.
const MOST_BATCH_BYTES: usize = 16_777_216;

/// Steps that settle at once.
#[derive(Drop)]
pub(crate) struct Batch {
    /// Their input bits.
    pub inputs: Items<Bits>,
    /// What they show and leave.
    pub tables: Tables,
}

/// Prints the lines of the steps. All memory is had before the first.
///
/// # Errors
///
/// Want of memory; or the sink failed.
pub(crate) fn print_batches<K: Sink>(
    alloc: Global,
    sink: &mut K,
    page: &mut Page,
    sim: &mut Sim,
    widths: Widths,
    inputs: usize,
    steps: &StepLines,
) -> Result<(), RunError>
    requires widths { AreWidthsOf sim.old.bench.circuit sim.old.plan widths }
    requires few { AreFew widths }
    requires latches { length sim.old.bench.circuit.latches ≡ 0 }
    requires bits { inputs ≡ sim.old.bench.circuit.inputs }
    requires inputs { All (λ input. length input ≡ sim.old.bench.circuit.inputs) steps.now }
    requires first { sim.old.step ≡ 0 }
    ensures run { RunsEnd result sim.old steps.now (output (K.written sink.old) (K.faults sink.old) page.old) (output (K.written sink.new) (K.faults sink.new) page.new) }
{
    let mut batch = match blank_batch(alloc, sim, inputs, batch_size(inputs, steps.len())) {
        Ok(batch) => batch,
        Err(error) => return Err(RunError::Memory(error)),
    };
    match print_in_batches(sink, page, sim, widths, steps, &mut batch) {
        Ok(()) => Ok(()),
        Err(WriteFault) => Err(RunError::WriteFault),
    }
}

/// How many steps settle at once: at most 1,024, and fewer where their input bits would take much memory.
fn batch_size(inputs: usize, steps: usize) -> usize
    ensures some { 0 < result }
    ensures most { result ≤ 1024 }
{
    (MOST_BATCH_BYTES / inputs.max(1))
        .min(steps)
        .min(1024)
        .max(1)
}

/// A batch with room for so many steps, to be written over.
fn blank_batch(alloc: Global, sim: &Sim, inputs: usize, count: usize) -> Result<Batch, AllocError>
    requires bits { inputs ≡ sim.now.bench.circuit.inputs }
    requires some { 0 < count }
    ensures batch { IfOk result (IsBatchFor sim.now) }
    ensures some { IfOk result (λ batch. 0 < length batch.inputs) }
{
    let mut lists = Items::with_room(alloc, count)?;
    for _ in 0..count {
        lists.push(blank_bits(alloc, inputs)?)?;
    }
    let tables = blank_tables(alloc, sim, count)?;
    Ok(Batch {
        inputs: lists,
        tables,
    })
}

/// Prints the lines of the steps, batch by batch.
fn print_in_batches<K: Sink>(
    sink: &mut K,
    page: &mut Page,
    sim: &mut Sim,
    widths: Widths,
    steps: &StepLines,
    batch: &mut Batch,
) -> Result<(), WriteFault>
    requires widths { AreWidthsOf sim.old.bench.circuit sim.old.plan widths }
    requires few { AreFew widths }
    requires latches { length sim.old.bench.circuit.latches ≡ 0 }
    requires inputs { All (λ input. length input ≡ sim.old.bench.circuit.inputs) steps.now }
    requires first { sim.old.step ≡ 0 }
    requires batch { IsBatchFor sim.old batch.old }
    requires some { 0 < length batch.old.inputs }
    ensures run { PrintsRuns result sim.old steps.now (output (K.written sink.old) (K.faults sink.old) page.old) (output (K.written sink.new) (K.faults sink.new) page.new) }
{
    // What the simulation keeps is known from here on.
    let _state = sim.state();
    let mut first = 0;
    while first < steps.len() {
        fill(batch, sim, steps, first);
        print_batch(sink, page, sim, widths, batch, first)?;
        first += batch.inputs.len();
    }
    Ok(())
}

/// Fills a batch with the steps from `first` on, as many as it has room for.
fn fill(batch: &mut Batch, sim: &mut Sim, steps: &StepLines, first: usize)
    requires latches { length sim.old.bench.circuit.latches ≡ 0 }
    requires inputs { All (λ input. length input ≡ sim.old.bench.circuit.inputs) steps.now }
    requires first { first < length steps.now }
    requires batch { IsBatchFor sim.old batch.old }
    requires some { 0 < length batch.old.inputs }
    ensures batch { IsBatchFor sim.new batch.new }
    ensures filled { IsBatchAt sim.new steps.now first batch.new }
    ensures some { 0 < length batch.new.inputs }
    ensures still { IsStill sim.old sim.new }
{
    read_inputs(&mut batch.inputs, steps, first);
    put_tables(sim, 1, batch.inputs.as_slice(), &mut batch.tables);
}

/// Reads the input bits of the steps from `first` on, for as many steps as there are lists, or steps.
fn read_inputs(inputs: &mut Items<Bits>, steps: &StepLines, first: usize)
    requires first { first < length steps.now }
    requires sized { All (FitsEach steps.now) inputs.old }
    ensures count { length inputs.new ≡ min (length inputs.old) (length steps.now - first) }
    ensures read { inputs.new ≡ take (length inputs.new) (drop first steps.now) }
{
    inputs.truncate(steps.len() - first);
    for place in 0..inputs.len() {
        steps.read(first + place, inputs.get_mut(place));
    }
}

/// Prints the lines of the steps of a batch, whose first has the number `first`.
fn print_batch<K: Sink>(
    sink: &mut K,
    page: &mut Page,
    sim: &Sim,
    widths: Widths,
    batch: &Batch,
    first: usize,
) -> Result<(), WriteFault>
    requires widths { AreWidthsOf sim.now.bench.circuit sim.now.plan widths }
    requires few { AreFew widths }
    requires latches { length sim.now.bench.circuit.latches ≡ 0 }
    requires tables { AreTablesOf sim.now 1 batch.now.inputs batch.now.tables }
    requires room { first + length batch.now.inputs < 2 ^ 64 }
    ensures lines { (rest : List (List Bool)) → TakesOrFails result (sim_at sim.now first 0) (sim_at sim.now (first + length batch.now.inputs) 0) (batch.now.inputs ++ rest) rest (output (K.written sink.old) (K.faults sink.old) page.old) (output (K.written sink.new) (K.faults sink.new) page.new) }
{
    for place in 0..batch.inputs.len() {
        let step = (first + place) as u64;
        let outcome = entry(sim, &batch.tables, step, place);
        print_outcome(sink, page, widths, step, outcome)?;
    }
    Ok(())
}
