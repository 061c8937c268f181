//! A run of a netlist with few inputs and latches: what a step shows and leaves is worked out once from each state over each
//! input, and the steps are looked up.
ghost use Rattle.std.specs.Prelude.{◌≡◌, ◌+◌, ◌*◌, ◌≤◌, ◌^◌, All, length, IsTrue, IfOk};
ghost use Rattle.tsc_bits.specs.Bits.{binary};
ghost use Rattle.buffered_sink.specs.Output.{output};
ghost use Rattle.fault_sim.specs.Sim.{IsStill};
ghost use Rattle.sim_text.specs.Widths.{AreFew, AreWidthsOf};
ghost use Rattle.sim_text.specs.Printed.{PrintsRuns, RunsEnd};
ghost use Rattle.sim_text.specs.Tables.{AreWholeTables};

use crate::all_inputs::all_inputs;
use crate::run_error::RunError;
use crate::step_line::print_outcome;
use crate::steps::StepLines;
use crate::stepwise::blank_bits;
use crate::tables::{Tables, blank_tables, entry, put_tables};
use crate::widths::Widths;
use buffered_sink::Page;
use fault_sim::Sim;
use lane_sim::width_of;
use std::alloc::{AllocError, Global};
use tsc_bits::number_of;
use tsc_io::{Sink, WriteFault};
use tsc_net::{Bits, Netlist};

/// Whether there are few inputs and latches, and to work out what a step shows and leaves from all states over all inputs takes
/// less time than to settle each line's step: there are no more of them than lines, or the netlist is large. Of 1,024 that settle
/// at once each takes the time in which a step settles a 256th of the nodes, and some hundred nodes more to be put and read.
pub(crate) fn pays(net: &Netlist, lines: usize) -> bool
    ensures few { IsTrue result → net.now.circuit.inputs + length net.now.circuit.latches ≤ 16 }
{
    let bits = net.inputs() + net.latches();
    bits <= 16 && (width_of(bits) <= lines || is_large(net.nodes(), width_of(bits), lines))
}

/// Whether a netlist has so many nodes that so many points take less time than so many steps.
fn is_large(nodes: usize, points: usize, lines: usize) -> bool {
    points.saturating_mul(nodes / 256 + 100) <= lines.saturating_mul(nodes)
}

/// Prints the lines of the steps. All memory is had before the first.
///
/// # Errors
///
/// Want of memory; or the sink failed.
pub(crate) fn print_walk<K: Sink>(
    alloc: Global,
    net: &Netlist,
    sink: &mut K,
    page: &mut Page,
    sim: &mut Sim,
    widths: Widths,
    steps: &StepLines,
) -> Result<(), RunError>
    requires widths { AreWidthsOf sim.old.bench.circuit sim.old.plan widths }
    requires few { AreFew widths }
    requires net { net.now.circuit ≡ sim.old.bench.circuit }
    requires few_bits { net.now.circuit.inputs + length net.now.circuit.latches ≤ 16 }
    requires inputs { All (λ input. length input ≡ sim.old.bench.circuit.inputs) steps.now }
    requires first { sim.old.step ≡ 0 }
    ensures run { RunsEnd result sim.old steps.now (output (K.written sink.old) (K.faults sink.old) page.old) (output (K.written sink.new) (K.faults sink.new) page.new) }
{
    let mut bits = match blank_bits(alloc, net.inputs()) {
        Ok(bits) => bits,
        Err(error) => return Err(RunError::Memory(error)),
    };
    let tables = match whole_tables(alloc, net, sim) {
        Ok(tables) => tables,
        Err(error) => return Err(RunError::Memory(error)),
    };
    match print_entries(sink, page, sim, widths, &tables, steps, &mut bits) {
        Ok(()) => Ok(()),
        Err(WriteFault) => Err(RunError::WriteFault),
    }
}

/// The tables of all states and inputs.
fn whole_tables(alloc: Global, net: &Netlist, sim: &mut Sim) -> Result<Tables, AllocError>
    requires net { net.now.circuit ≡ sim.old.bench.circuit }
    requires few { net.now.circuit.inputs + length net.now.circuit.latches ≤ 16 }
    ensures whole { IfOk result (AreWholeTables sim.old) }
    ensures still { IsStill sim.old sim.new }
{
    let all = all_inputs(alloc, net.inputs())?;
    let states = width_of(net.latches());
    let mut tables = blank_tables(alloc, sim, states * all.len())?;
    put_tables(sim, states, all.as_slice(), &mut tables);
    Ok(tables)
}

/// Prints the lines of the steps, from the tables of all states and inputs. The input bits of each step are read into `bits`.
fn print_entries<K: Sink>(
    sink: &mut K,
    page: &mut Page,
    sim: &Sim,
    widths: Widths,
    tables: &Tables,
    steps: &StepLines,
    bits: &mut Bits,
) -> Result<(), WriteFault>
    requires widths { AreWidthsOf sim.now.bench.circuit sim.now.plan widths }
    requires few { AreFew widths }
    requires tables { AreWholeTables sim.now tables.now }
    requires few_bits { sim.now.bench.circuit.inputs + length sim.now.bench.circuit.latches ≤ 16 }
    requires inputs { All (λ input. length input ≡ sim.now.bench.circuit.inputs) steps.now }
    requires bits { length bits.old ≡ sim.now.bench.circuit.inputs }
    requires first { sim.now.step ≡ 0 }
    ensures run { PrintsRuns result sim.now steps.now (output (K.written sink.old) (K.faults sink.old) page.old) (output (K.written sink.new) (K.faults sink.new) page.new) }
{
    let mut state = number_of(sim.state());
    for step in 0..steps.len() {
        steps.read(step, bits);
        let place = place_of(state, bits.as_slice());
        let outcome = entry(sim, tables, step as u64, place);
        print_outcome(sink, page, widths, step as u64, outcome)?;
        state = outcome.state;
    }
    Ok(())
}

/// The place of a state with these bits of the inputs.
fn place_of(state: u64, input: &[bool]) -> usize
    requires few { length input.now ≤ 16 }
    requires state { state ≤ 65536 }
    ensures place { result ≡ state * 2 ^ length input.now + binary input.now }
{
    state as usize * width_of(input.len()) + number_of(input) as usize
}
