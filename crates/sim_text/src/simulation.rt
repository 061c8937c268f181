//! A simulation over the step lines of a text.
ghost use Rattle.std.specs.Prelude.{◌≡◌, ◌≤◌, ◌↔◌, false, All, length, IsErrOf};
ghost use Rattle.fault_secure.specs.Circuit.{nets};
ghost use Rattle.buffered_sink.specs.Output.{output};
ghost use Rattle.tsc_net.specs.Fault.{stuck_at_or_none};
ghost use Rattle.tsc_net.specs.Limits.{most_nets};
ghost use Rattle.fault_sim.specs.PlanNets.{HasPlanNets};
ghost use Rattle.fault_sim.specs.Sim.{is_none_or_listed};
ghost use Rattle.sim_text.specs.Widths.{AreFew, AreWidthsOf};
ghost use Rattle.sim_text.specs.Printed.{RunEnds, RunsEnd};

use crate::batches::print_batches;
use crate::run_error::RunError;
use crate::state_walk::{pays, print_walk};
use crate::steps::StepLines;
use crate::stepwise::print_stepwise;
use crate::widths::{Widths, widths_of};
use buffered_sink::Page;
use fault_sim::{Sim, SimError};
use std::alloc::Global;
use tsc_io::Sink;
use tsc_net::{Fault, Netlist, Plan, When};

/// Runs the netlist over the steps, and prints one line per step: its number from 0 on, the outputs, the checks, the nets at the
/// latch inputs, the rails, and `quiet` where these differ, else `alarm`. The fault, if there is one, is present at the steps of
/// `when`.
///
/// Time is linear in the number of steps. All memory is had before the first line is printed, and how much it is doesn't grow
/// with that number. Without latches at most 1,024 steps settle at once, and that takes memory for their input bits, at most
/// 16 MiB, and for what they show. With latches, where there are at most 16 inputs and latches and that takes less time, what a
/// step shows and leaves is worked out once from each state over each input. That takes memory for so many steps, at most
/// 65,536; with a fault for twice as many. Else each step settles on its own.
///
/// # Errors
///
/// `NotListed` exactly where there is a fault that isn't listed; want of memory. Then nothing was printed. Or the sink failed,
/// and has some first bytes.
pub fn simulate<K: Sink>(
    alloc: Global,
    sink: &mut K,
    page: &mut Page,
    net: &Netlist,
    plan: &Plan,
    fault: Option<Fault>,
    when: When,
    steps: &StepLines,
) -> Result<(), RunError>
    requires plan { HasPlanNets net.now.circuit plan.now }
    requires nets { nets net.now.circuit ≤ most_nets }
    requires inputs { All (λ input. length input ≡ net.now.circuit.inputs) steps.now }
    ensures run { RunEnds net.now.circuit plan.now (stuck_at_or_none fault) when steps.now result (output (K.written sink.old) (K.faults sink.old) page.old) (output (K.written sink.new) (K.faults sink.new) page.new) }
    ensures listed { IsErrOf result RunError.NotListed ↔ (is_none_or_listed net.now.circuit (stuck_at_or_none fault) ≡ false) }
{
    // What the netlist keeps is known from here on.
    let _checked = net.nets();
    let widths = widths_of(net, plan);
    let mut sim = match Sim::open(alloc, net, plan, fault, when) {
        Ok(sim) => sim,
        Err(SimError::NotListed) => return Err(RunError::NotListed),
        Err(SimError::Memory(error)) => return Err(RunError::Memory(error)),
    };
    let ended = print_lines(alloc, sink, page, net, &mut sim, widths, steps);
    sim.close();
    ended
}

/// Prints the lines of the steps, in the way that takes the least time.
fn print_lines<K: Sink>(
    alloc: Global,
    sink: &mut K,
    page: &mut Page,
    net: &Netlist,
    sim: &mut Sim,
    widths: Widths,
    steps: &StepLines,
) -> Result<(), RunError>
    requires widths { AreWidthsOf sim.old.bench.circuit sim.old.plan widths }
    requires few { AreFew widths }
    requires net { net.now.circuit ≡ sim.old.bench.circuit }
    requires inputs { All (λ input. length input ≡ sim.old.bench.circuit.inputs) steps.now }
    requires first { sim.old.step ≡ 0 }
    ensures run { RunsEnd result sim.old steps.now (output (K.written sink.old) (K.faults sink.old) page.old) (output (K.written sink.new) (K.faults sink.new) page.new) }
{
    let inputs = net.inputs();
    if net.latches() == 0 {
        print_batches(alloc, sink, page, sim, widths, inputs, steps)
    } else if pays(net, steps.len()) {
        print_walk(alloc, net, sink, page, sim, widths, steps)
    } else {
        print_stepwise(alloc, sink, page, sim, widths, inputs, steps)
    }
}
