//! The gates of a netlist without latches.
ghost use Rattle.std.specs.Prelude.{◌≡◌, ℕ, ◌+◌, ◌*◌, ◌^◌, ◌<◌, ◌≤◌, Bool, List, [], map, take, length, All, IfOk, OnOk, Some, slice_set};
ghost use Rattle.std.specs.List.{AllZip};
ghost use Rattle.fault_secure.specs.Circuit.{bit, node, node_net, nets};
ghost use Rattle.fault_secure.specs.StuckAt.StuckAt.{NoFault};
ghost use Rattle.fault_secure.specs.Settle.{Settles};
ghost use Rattle.tsc_net.specs.PlanView.{net_numbers};
ghost use Rattle.gate_net.specs.Gates.{IsHashed, AreLines, line_values};
ghost use Rattle.gate_net.specs.Growth.{Grows};
ghost use Rattle.gate_net.specs.Negations.{is_state, HasNo};
ghost use Rattle.fault_secure.specs.Closed.{IsClosed};
ghost use Rattle.gate_net.specs.NetLines.{HasLine, IsLined, AreLinedTo, AreLinesOf, IsLineOf, MeanInputs, input_gates};
ghost use Rattle.fault_secure.specs.Size.{network_size};
ghost use Rattle.gate_net.specs.Size.{cover_gates, network_gates};

use crate::covers::cover_line;
use crate::gate::Gate;
use crate::gates::Gates;
use crate::line::{Line, LineList};
use crate::net_gates::NetGates;
use std::alloc::{AllocError, Global};
use tsc_net::{NetId, Netlist};

/// The gates of a netlist, with a line for each output in order, which has the output's bit, and means the input where the output
/// is one. The first gates are those of the inputs, in order; with them come at most two for each node, row and literal of the covers,
/// and two more.
///
/// # Errors
///
/// Want of memory.
#[tactic(auto, using(crate::proofs::NetLines::no_lines_follow))]
pub fn from_net(alloc: Global, net: &Netlist) -> Result<NetGates, AllocError>
    requires combinational { length net.now.circuit.latches ≡ 0 }
    requires room { network_gates net.now.circuit < 2 ^ 32 }
    ensures inputs { IfOk result (λ made. made.gates.inputs ≡ net.now.circuit.inputs) }
    ensures states { IfOk result (λ made. made.gates.states ≡ 0) }
    ensures stateless { IfOk result (λ made. HasNo is_state made.gates.gates) }
    ensures sound { IfOk result (λ made. IsHashed made.gates) }
    ensures lines { IfOk result (λ made. AreLines made.gates made.outputs) }
    ensures few { IfOk result (λ made. length made.gates.gates ≤ network_gates net.now.circuit) }
    ensures first { IfOk result (λ made. take net.now.circuit.inputs made.gates.gates ≡ input_gates net.now.circuit.inputs) }
    ensures values { IfOk result (λ made. (x s : ℕ → Bool) (v : List Bool) → Settles net.now.circuit NoFault x s v → line_values made.gates x s made.outputs ≡ map (bit v) net.now.circuit.outputs) }
    ensures means { IfOk result (λ made. MeanInputs net.now.circuit made.gates net.now.circuit.outputs made.outputs) }
{
    let mut gates = Gates::new(alloc, net.inputs(), 0);
    let mut lines = vec![in alloc; None; net.nets()]?;
    let outputs = add_outputs(alloc, net, &mut gates, &mut lines)?;
    Ok(NetGates { gates, outputs })
}

/// Adds a line for each input, and then for each node, and answers those of the outputs.
fn add_outputs(
    alloc: Global,
    net: &Netlist,
    gates: &mut Gates,
    lines: &mut [Option<Line>],
) -> Result<LineList, AllocError>
    requires inputs { gates.old.inputs ≡ net.now.circuit.inputs }
    requires empty { gates.old.gates ≡ [] }
    requires follow { AreLinesOf net.now.circuit gates.old lines.old }
    requires combinational { length net.now.circuit.latches ≡ 0 }
    requires closed { IsClosed net.now.circuit }
    requires sized { length lines.old ≡ nets net.now.circuit }
    requires room { length gates.old.gates + network_gates net.now.circuit < 2 ^ 32 }
    ensures grows { IfOk result (λ _. Grows gates.old gates.new) }
    ensures lines { IfOk result (AreLines gates.new) }
    ensures few { OnOk result (length gates.new.gates ≤ length gates.old.gates + network_gates net.now.circuit) }
    ensures first { OnOk result (take net.now.circuit.inputs gates.new.gates ≡ input_gates net.now.circuit.inputs) }
    ensures values { IfOk result (λ outputs. (x s : ℕ → Bool) (v : List Bool) → Settles net.now.circuit NoFault x s v → line_values gates.new x s outputs ≡ map (bit v) net.now.circuit.outputs) }
    ensures means { IfOk result (MeanInputs net.now.circuit gates.new net.now.circuit.outputs) }
{
    add_inputs(net, gates, lines)?;
    add_nodes(alloc, net, gates, lines)?;
    let outputs = lines_of(alloc, lines, net.outputs())?;
    Ok(outputs)
}

/// Adds a line for each input.
#[tactic(auto, using(crate::proofs::Kept::grows_not))]
fn add_inputs(
    net: &Netlist,
    gates: &mut Gates,
    lines: &mut [Option<Line>],
) -> Result<(), AllocError>
    requires inputs { gates.old.inputs ≡ net.now.circuit.inputs }
    requires empty { gates.old.gates ≡ [] }
    requires follow { AreLinesOf net.now.circuit gates.old lines.old }
    requires sized { length lines.old ≡ nets net.now.circuit }
    requires room { length gates.old.gates + net.now.circuit.inputs < 2 ^ 32 }
    ensures follow { OnOk result (AreLinesOf net.now.circuit gates.new lines.new) }
    ensures grows { OnOk result (Grows gates.old gates.new) }
    ensures few { OnOk result (length gates.new.gates ≤ length gates.old.gates + net.now.circuit.inputs) }
    ensures inputs_first { OnOk result (gates.new.gates ≡ input_gates net.now.circuit.inputs) }
    ensures sized { length lines.new ≡ length lines.old }
    ensures lined { OnOk result (AreLinedTo net.now.circuit [] 0 lines.new) }
{
    for i in 0..net.inputs() {
        let line = gates.add(Gate::Input { i })?;
        put(lines, i, line);
    }
    Ok(())
}

/// Adds a line for each node, in evaluation order.
#[tactic(auto, using(crate::proofs::Kept::grows_not))]
fn add_nodes(
    alloc: Global,
    net: &Netlist,
    gates: &mut Gates,
    lines: &mut [Option<Line>],
) -> Result<(), AllocError>
    requires follow { AreLinesOf net.now.circuit gates.old lines.old }
    requires combinational { length net.now.circuit.latches ≡ 0 }
    requires closed { IsClosed net.now.circuit }
    requires sized { length lines.old ≡ nets net.now.circuit }
    requires lined { AreLinedTo net.now.circuit [] 0 lines.old }
    requires room { length gates.old.gates + 2 * network_size net.now.circuit < 2 ^ 32 }
    ensures follow { OnOk result (AreLinesOf net.now.circuit gates.new lines.new) }
    ensures grows { OnOk result (Grows gates.old gates.new) }
    ensures few { OnOk result (length gates.new.gates ≤ length gates.old.gates + 2 * network_size net.now.circuit) }
    ensures lined { OnOk result (All (IsLined lines.new) net.now.circuit.outputs) }
{
    for place in net.order() {
        let line = node_line(alloc, net, gates, lines, *place)?;
        put(lines, net.node_net(*place).number as usize, line);
    }
    Ok(())
}

/// The line of the node at `place`, over the lines of the nets that it reads.
fn node_line(
    alloc: Global,
    net: &Netlist,
    gates: &mut Gates,
    lines: &[Option<Line>],
    place: usize,
) -> Result<Line, AllocError>
    requires within { place < length net.now.circuit.nodes }
    requires follow { AreLinesOf net.now.circuit gates.old lines.now }
    requires closed { IsClosed net.now.circuit }
    requires lined { All (IsLined lines.now) (node net.now.circuit place).reads }
    requires room { length gates.old.gates + cover_gates (node net.now.circuit place).cover < 2 ^ 32 }
    ensures few { OnOk result (length gates.new.gates ≤ length gates.old.gates + cover_gates (node net.now.circuit place).cover) }
    ensures follows { IfOk result (IsLineOf net.now.circuit gates.new (node_net net.now.circuit place)) }
    ensures grows { IfOk result (λ _. Grows gates.old gates.new) }
{
    let pins = lines_of(alloc, lines, net.node_reads(place))?;
    let line = cover_line(gates, net.node_cover(place), pins.as_slice())?;
    Ok(line)
}

/// The lines of nets that have some.
fn lines_of(alloc: Global, lines: &[Option<Line>], nets: &[NetId]) -> Result<LineList, AllocError>
    requires lined { All (IsLined lines.now) (net_numbers nets.now) }
    ensures lines { IfOk result (λ list. AllZip (HasLine lines.now) (net_numbers nets.now) list) }
{
    let mut list = LineList::new(alloc);
    for net in nets {
        list.push(line_of(lines, *net))?;
    }
    Ok(list)
}

/// The line of a net that has one.
fn line_of(lines: &[Option<Line>], net: NetId) -> Line
    requires lined { IsLined lines.now net.number }
    ensures line { HasLine lines.now net.number result }
{
    match lines[net.number as usize] {
        Some(line) => line,
        None => unreachable!(),
    }
}

/// Puts a line at a place.
fn put(lines: &mut [Option<Line>], place: usize, line: Line)
    requires place { place < length lines.old }
    ensures put { lines.new ≡ slice_set lines.old place (Some line) }
{
    lines[place] = Some(line);
}
