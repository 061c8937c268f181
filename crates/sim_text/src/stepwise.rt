//! A run in which each step settles on its own.
ghost use Rattle.std.specs.Prelude.{◌≡◌, ◌+◌, ◌-◌, ◌<◌, ◌^◌, Bool, List, ◌∷◌, All, length, IfOk};
ghost use Rattle.buffered_sink.specs.Output.{output};
ghost use Rattle.fault_sim.specs.Sim.{IsSameSim};
ghost use Rattle.sim_text.specs.StepLine.{word_width};
ghost use Rattle.sim_text.specs.Widths.{AreFew, AreWidthsOf};
ghost use Rattle.sim_text.specs.Printed.{PrintsRuns, RunsEnd, TakesOrFails};

use crate::latch_word::{blank_word, put_word};
use crate::run_error::RunError;
use crate::step_line::print_step;
use crate::steps::StepLines;
use crate::widths::Widths;
use buffered_sink::Page;
use fault_sim::Sim;
use std::alloc::{AllocError, Global};
use tsc_io::{Bytes, Sink, WriteFault};
use tsc_net::Bits;

/// Runs the steps, and prints their lines. All memory is had before the first.
///
/// # Errors
///
/// Want of memory; or the sink failed.
pub(crate) fn print_stepwise<K: Sink>(
    alloc: Global,
    sink: &mut K,
    page: &mut Page,
    sim: &mut Sim,
    widths: Widths,
    inputs: usize,
    steps: &StepLines,
) -> Result<(), RunError>
    requires widths { AreWidthsOf sim.old.bench.circuit sim.old.plan widths }
    requires few { AreFew widths }
    requires bits { inputs ≡ sim.old.bench.circuit.inputs }
    requires inputs { All (λ input. length input ≡ sim.old.bench.circuit.inputs) steps.now }
    requires first { sim.old.step ≡ 0 }
    ensures run { RunsEnd result sim.old steps.now (output (K.written sink.old) (K.faults sink.old) page.old) (output (K.written sink.new) (K.faults sink.new) page.new) }
{
    let mut bits = match blank_bits(alloc, inputs) {
        Ok(bits) => bits,
        Err(error) => return Err(RunError::Memory(error)),
    };
    let mut word = match blank_word(alloc, widths.next) {
        Ok(word) => word,
        Err(error) => return Err(RunError::Memory(error)),
    };
    match print_steps(sink, page, sim, widths, steps, &mut bits, &mut word) {
        Ok(()) => Ok(()),
        Err(WriteFault) => Err(RunError::WriteFault),
    }
}

/// A list of so many bits, to be written over.
///
/// # Errors
///
/// Want of memory.
pub(crate) fn blank_bits(alloc: Global, count: usize) -> Result<Bits, AllocError>
    ensures count { IfOk result (λ bits. length bits ≡ count) }
{
    let mut bits = Bits::with_room(alloc, count)?;
    for _ in 0..count {
        bits.push(false)?;
    }
    Ok(bits)
}

/// Runs the steps, and prints their lines. The input bits of each are read into `bits`, and those at the latch inputs are written into
/// `word`.
fn print_steps<K: Sink>(
    sink: &mut K,
    page: &mut Page,
    sim: &mut Sim,
    widths: Widths,
    steps: &StepLines,
    bits: &mut Bits,
    word: &mut Bytes,
) -> Result<(), WriteFault>
    requires widths { AreWidthsOf sim.old.bench.circuit sim.old.plan widths }
    requires few { AreFew widths }
    requires bits { length bits.old ≡ sim.old.bench.circuit.inputs }
    requires word { length word.old ≡ word_width (length sim.old.bench.circuit.latches) + 1 }
    requires inputs { All (λ input. length input ≡ sim.old.bench.circuit.inputs) steps.now }
    requires first { sim.old.step ≡ 0 }
    ensures run { PrintsRuns result sim.old steps.now (output (K.written sink.old) (K.faults sink.old) page.old) (output (K.written sink.new) (K.faults sink.new) page.new) }
{
    for step in 0..steps.len() {
        steps.read(step, bits);
        print_call(sink, page, sim, widths, step as u64, bits, word)?;
    }
    Ok(())
}

/// Runs one step, whose number is `step`, and prints its line. The bits at the latch inputs are written into `word`.
fn print_call<K: Sink>(
    sink: &mut K,
    page: &mut Page,
    sim: &mut Sim,
    widths: Widths,
    step: u64,
    input: &Bits,
    word: &mut Bytes,
) -> Result<(), WriteFault>
    requires widths { AreWidthsOf sim.old.bench.circuit sim.old.plan widths }
    requires few { AreFew widths }
    requires input { length input.now ≡ sim.old.bench.circuit.inputs }
    requires word { length word.old ≡ word_width (length sim.old.bench.circuit.latches) + 1 }
    requires number { step ≡ sim.old.step }
    requires steps { sim.old.step < 2 ^ 64 - 1 }
    ensures line { (rest : List (List Bool)) → TakesOrFails result sim.old sim.new (input.now ∷ rest) rest (output (K.written sink.old) (K.faults sink.old) page.old) (output (K.written sink.new) (K.faults sink.new) page.new) }
    ensures same { IsSameSim sim.old sim.new }
    ensures step { sim.new.step ≡ sim.old.step + 1 }
    ensures word { length word.new ≡ length word.old }
{
    let view = sim.step(input);
    put_word(word, sim.next());
    print_step(sink, page, widths, step, view, word.as_slice())
}
