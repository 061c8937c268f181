//! Simulation of a text.
ghost use Rattle.std.specs.Prelude.{◌≡◌, ◌≤◌, Some, None, true, All, drop, length, IfOk, IfErr, OnOk};
ghost use Rattle.buffered_sink.specs.Output.{output};
ghost use Rattle.fault_secure.specs.Circuit.{nets};
ghost use Rattle.tsc_net.specs.Fault.{stuck_at, stuck_at_or_none};
ghost use Rattle.tsc_net.specs.Limits.{most_nets};
ghost use Rattle.fault_sim.specs.PlanNets.{HasPlanNets};
ghost use Rattle.fault_sim.specs.Sim.{is_none_or_listed};
ghost use Rattle.sim_text.specs.StepLines.{all_steps, first_misshapen};
ghost use Rattle.text_sections.specs.Refused.{IsRefusedBy};
ghost use Rattle.netlist_answers.specs.Refused.{place_refusal, shape_refusal};
ghost use Rattle.netlist_answers.specs.SimEnds.{RunEnds, SimulationEnds, TextEnds};
ghost use Rattle.netlist_answers.specs.Simulated.{is_place_listed, place_of, steps_of};

use buffered_sink::Page;
use commands::SimFault;
use refusals::{Refusal, TextRefusal};
use sim_text::{RunError, StepLines, simulate};
use std::alloc::Global;
use text_sections::{first_any_netlist, text_lines};
use tsc_io::{Bytes, Sink};
use tsc_net::{Fault, Netlist, PlannedNetlist, When, is_listed};
use tsc_text::{End, Lines};

/// A fault of a netlist, or none, and the steps at which it is present.
#[derive(Drop)]
struct PlacedFault {
    fault: Option<Fault>,
    when: When,
}

/// Prints the run of the netlist that `text` begins with, a line a step, over the step lines behind it. All memory is had before
/// the first line is printed.
///
/// # Errors
///
/// The first refusal of the text, or want of memory, where nothing was printed; the sink failed, where first bytes of the run may have been.
pub fn print_simulation<K: Sink>(
    alloc: Global,
    sink: &mut K,
    page: &mut Page,
    fault: SimFault,
    text: &Bytes,
) -> Result<(), Refusal>
    requires short { length text.now ≤ 67108864 }
    ensures ends { TextEnds fault text.now result (output (K.written sink.old) (K.faults sink.old) page.old) (output (K.written sink.new) (K.faults sink.new) page.new) }
{
    let lines = text_lines(alloc, text)?;
    print_lines(alloc, sink, page, fault, &lines)
}

/// Prints the run of the netlist that the lines begin with, over the step lines behind it.
fn print_lines<K: Sink>(
    alloc: Global,
    sink: &mut K,
    page: &mut Page,
    fault: SimFault,
    lines: &Lines,
) -> Result<(), Refusal>
    ensures ends { SimulationEnds fault lines.now result (output (K.written sink.old) (K.faults sink.old) page.old) (output (K.written sink.new) (K.faults sink.new) page.new) }
{
    let read = first_any_netlist(alloc, lines)?;
    let from = lines.section(0, End::Blif).next;
    print_run(alloc, sink, page, fault, &read, lines, from)
}

/// Prints the run of a netlist over the step lines from the place `from` on.
fn print_run<K: Sink>(
    alloc: Global,
    sink: &mut K,
    page: &mut Page,
    fault: SimFault,
    read: &PlannedNetlist,
    lines: &Lines,
    from: usize,
) -> Result<(), Refusal>
    requires within { from ≤ length lines.now }
    requires plan { HasPlanNets read.now.net.circuit read.now.plan }
    requires nets { nets read.now.net.circuit ≤ most_nets }
    ensures ends { RunEnds fault read.now.net read.now.plan (drop from lines.now) result (output (K.written sink.old) (K.faults sink.old) page.old) (output (K.written sink.new) (K.faults sink.new) page.new) }
{
    let PlacedFault { fault, when } = placed(alloc, fault, &read.net)?;
    let steps = step_lines(lines, from, read.net.inputs())?;
    match simulate(
        alloc, sink, page, &read.net, &read.plan, fault, when, &steps,
    ) {
        Ok(()) => Ok(()),
        Err(RunError::Memory(error)) => Err(Refusal::Memory(error)),
        Err(RunError::WriteFault) => Err(Refusal::WriteFault),
        Err(RunError::NotListed) => unreachable!(),
    }
}

/// The step lines from the place `from` on.
///
/// # Errors
///
/// A line that is no step's.
pub(crate) fn step_lines<'a>(
    lines: &'a Lines<'a>,
    from: usize,
    inputs: usize,
) -> Result<StepLines<'a>, Refusal>
    requires within { from ≤ length lines.now }
    ensures steps { IfOk result (λ steps. steps ≡ all_steps inputs (drop from lines.now)) }
    ensures sized { IfOk result (All (λ bits. length bits ≡ inputs)) }
    ensures allowed { OnOk result (shape_refusal (first_misshapen inputs (drop from lines.now)) ≡ None) }
    ensures refused { IfErr result (IsRefusedBy (shape_refusal (first_misshapen inputs (drop from lines.now)))) }
{
    match StepLines::of(lines, from, inputs) {
        Ok(steps) => Ok(steps),
        Err(line) => Err(Refusal::Text(TextRefusal::StepShape { line })),
    }
}

/// The fault with its place in the netlist.
fn placed(alloc: Global, fault: SimFault, net: &Netlist) -> Result<PlacedFault, Refusal>
    ensures place { IfOk result (λ placed. place_of net.now fault ≡ Some (stuck_at_or_none placed.fault)) }
    ensures when { IfOk result (λ placed. placed.when ≡ steps_of fault) }
    ensures listed { OnOk result (is_place_listed net.now fault ≡ true) }
    ensures refused { IfErr result (IsRefusedBy (place_refusal (is_place_listed net.now fault))) }
{
    match fault {
        SimFault::NoFault => Ok(PlacedFault {
            fault: None,
            when: When::new(alloc),
        }),
        SimFault::Stem {
            net: name,
            value,
            when,
        } => {
            let Some(at) = net.net(name.as_slice()) else {
                return Err(Refusal::Text(TextRefusal::NotListed));
            };
            listed(net, Fault::Stem { net: at, value }, when)
        }
        SimFault::Pin {
            net: name,
            index,
            value,
            when,
        } => {
            let Some(driver) = net.net(name.as_slice()) else {
                return Err(Refusal::Text(TextRefusal::NotListed));
            };
            let index = index as usize;
            listed(
                net,
                Fault::Pin {
                    driver,
                    index,
                    value,
                },
                when,
            )
        }
    }
}

/// The fault, where it is listed.
fn listed(net: &Netlist, fault: Fault, when: When) -> Result<PlacedFault, Refusal>
    ensures fault { IfOk result (λ placed. placed.fault ≡ Some fault) }
    ensures when { IfOk result (λ placed. placed.when ≡ when) }
    ensures listed { OnOk result (is_none_or_listed net.now.circuit (stuck_at fault) ≡ true) }
    ensures refused { IfErr result (IsRefusedBy (place_refusal (is_none_or_listed net.now.circuit (stuck_at fault)))) }
{
    if is_listed(net, &fault) {
        Ok(PlacedFault {
            fault: Some(fault),
            when,
        })
    } else {
        Err(Refusal::Text(TextRefusal::NotListed))
    }
}
