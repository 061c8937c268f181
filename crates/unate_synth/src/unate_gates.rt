//! Gates that negate only inputs, for the outputs of a network and the checks of a code.
ghost use Rattle.std.specs.Prelude.{◌≡◌, ◌+◌, ◌-◌, ◌^◌, ◌<◌, ◌≤◌, take, length, IfOk, OnOk};
ghost use Rattle.gate_net.specs.Gates.{AreLines};
ghost use Rattle.gate_net.specs.Growth.{Grows};
ghost use Rattle.gate_net.specs.NetLines.{MeanInputs};
ghost use Rattle.gate_net.specs.Size.{network_gates};
ghost use Rattle.unate_synth.specs.Size.{check_gates, word_gates};
ghost use Rattle.unate_synth.specs.UnateLines.{ComputesChecks, AreWordLines, AreUnateLines};
ghost use Rattle.fault_secure.specs.CodePlan.{HasWidth, IsUnorderedCode};

use berger_code::add_berger;
use gate_net::{Gates, LineList, NetGates, from_net};
use mofn_code::add_thermo;
use push_negations::push;
use std::alloc::{AllocError, Global};
use tsc_net::{Code, Netlist};

/// The gates of a network and of its checks under a code, with negations only at inputs: a line for each output, in order,
/// and after them one for each check. The line of an output that is an input means that input. The network has a size that follows
/// where its bound on covers is kept.
///
/// # Errors
///
/// Want of memory.
pub fn unate_gates(alloc: Global, source: &Netlist, code: Code) -> Result<NetGates, AllocError>
    requires combinational { length source.now.circuit.latches ≡ 0 }
    requires few { length source.now.circuit.outputs ≤ 64 }
    requires unordered { IsUnorderedCode code }
    requires small { network_gates source.now.circuit ≤ 1048576 }
    ensures few { IfOk result (λ made. length made.gates.gates ≤ word_gates source.now.circuit) }
    ensures width { IfOk result (λ made. HasWidth code (length source.now.circuit.outputs) (length made.outputs - length source.now.circuit.outputs)) }
    ensures unate { IfOk result (λ made. AreUnateLines source.now.circuit code made.gates made.outputs) }
    ensures inputs { IfOk result (λ made. made.gates.inputs ≡ source.now.circuit.inputs) }
    ensures states { IfOk result (λ made. made.gates.states ≡ 0) }
    ensures lines { IfOk result (λ made. AreLines made.gates made.outputs) }
    ensures longer { IfOk result (λ made. length source.now.circuit.outputs ≤ length made.outputs) }
    ensures means { IfOk result (λ made. MeanInputs source.now.circuit made.gates source.now.circuit.outputs (take (length source.now.circuit.outputs) made.outputs)) }
{
    // What the source keeps is known from here on.
    let _source = source.nets();
    let NetGates { gates, outputs } = from_net(alloc, source)?;
    let mut gates = gates;
    let word = word_lines(alloc, &mut gates, &outputs, code)?;
    // So is what the gates keep.
    let _gates = gates.len();
    let made = push(alloc, &gates, &word)?;
    Ok(made)
}

/// Adds the checks of outputs, and answers the lines of the outputs and after them those of the checks.
fn word_lines(
    alloc: Global,
    gates: &mut Gates,
    outputs: &LineList,
    code: Code,
) -> Result<LineList, AllocError>
    requires lines { AreLines gates.old outputs.now }
    requires some { 0 < length outputs.now }
    requires few { length outputs.now ≤ 64 }
    requires unordered { IsUnorderedCode code }
    requires room { length gates.old.gates + check_gates (length outputs.now) < 2 ^ 32 }
    ensures few { OnOk result (length gates.new.gates ≤ length gates.old.gates + check_gates (length outputs.now)) }
    ensures width { IfOk result (λ word. HasWidth code (length outputs.now) (length word - length outputs.now)) }
    ensures word { IfOk result (AreWordLines code gates.old gates.new outputs.now) }
    ensures lines { IfOk result (AreLines gates.new) }
    ensures grows { IfOk result (λ _. Grows gates.old gates.new) }
{
    let checks = check_lines(alloc, gates, outputs, code)?;
    let mut word = LineList::from_slice(alloc, outputs.as_slice())?;
    word.append(checks.as_slice())?;
    Ok(word)
}

/// Adds the checks of outputs under a Berger or else an m-out-of-n code, and answers their lines.
fn check_lines(
    alloc: Global,
    gates: &mut Gates,
    outputs: &LineList,
    code: Code,
) -> Result<LineList, AllocError>
    requires lines { AreLines gates.old outputs.now }
    requires some { 0 < length outputs.now }
    requires few { length outputs.now ≤ 64 }
    requires unordered { IsUnorderedCode code }
    requires room { length gates.old.gates + check_gates (length outputs.now) < 2 ^ 32 }
    ensures few { length gates.new.gates ≤ length gates.old.gates + check_gates (length outputs.now) }
    ensures width { IfOk result (λ checks. HasWidth code (length outputs.now) (length checks)) }
    ensures computes { IfOk result (ComputesChecks code gates.old gates.new outputs.now) }
{
    match code {
        Code::Berger => add_berger(alloc, gates, outputs),
        Code::Parity | Code::MOutOfN => add_thermo(alloc, gates, outputs),
    }
}
