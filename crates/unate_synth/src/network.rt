//! A network's netlist under an unordered code: its nets' names, the gates of its word, and a checker.
ghost use Rattle.std.specs.Prelude.{◌≡◌, ◌+◌, ◌<◌, ◌≤◌, ◌^◌, take, length, IfOk, OnOk};
ghost use Rattle.fault_secure.specs.Circuit.{nets};
ghost use Rattle.tsc_net.specs.NetlistOf.{IsBuilt, names_of, netlist_of};
ghost use Rattle.tsc_net.specs.Parts.{no_parts};
ghost use Rattle.gate_net.specs.Gates.{AreLines};
ghost use Rattle.gate_net.specs.NetLines.{MeanInputs};
ghost use Rattle.net_writing.specs.CheckerParts.{IsCheckerOver};
ghost use Rattle.tsc_bits.specs.Lists.{AreApart};
ghost use Rattle.net_building.specs.Sound.{IsSound};
ghost use Rattle.unate_synth.specs.Composed.{IsComposedOf, fresh_parts};
ghost use Rattle.unate_synth.specs.UnateNetlist.{fresh_name, first_fresh_names};

use crate::composing::compose;
use crate::roots::SourceNames;
use code_checkers::CheckGates;
use gate_net::NetGates;
use net_building::{add_fresh_names, built};
use net_writing::{RailNames, begin, output_names};
use std::alloc::{AllocError, Global};
use tsc_net::{Netlist, Parts};

/// The netlist of a network: the gates of its outputs and checks, of which there are `count`, and after them those of a checker.
/// The checks and then the rails have the first fresh names.
pub fn network_netlist(
    alloc: Global,
    source: &Netlist,
    count: usize,
    made: &NetGates,
    gates: &CheckGates,
) -> Result<Netlist, AllocError>
    requires checked { IsBuilt source.now }
    requires combinational { length source.now.circuit.latches ≡ 0 }
    requires once { AreApart source.now.circuit.outputs }
    requires inputs { made.now.gates.inputs ≡ source.now.circuit.inputs }
    requires states { made.now.gates.states ≡ 0 }
    requires lines { AreLines made.now.gates made.now.outputs }
    requires means { MeanInputs source.now.circuit made.now.gates source.now.circuit.outputs (take (length source.now.circuit.outputs) made.now.outputs) }
    requires word { length made.now.outputs ≡ length source.now.circuit.outputs + count }
    requires few { count ≤ 64 }
    requires gates { IsCheckerOver (length made.now.outputs) gates.now }
    requires room { nets source.now.circuit + length made.now.gates.gates + length gates.now.gates + 66 < 2 ^ 32 }
    ensures net { IfOk result (IsComposedOf (fresh_parts source.now (count + 2)) made.now.gates made.now.outputs gates.now (names_of source.now.names source.now.circuit.outputs) (first_fresh_names source.now count) (fresh_name source.now count) (fresh_name source.now (count + 1))) }
{
    let mut parts = Parts::keyed(alloc, source.key());
    compose_network(alloc, &mut parts, source, count, made, gates)?;
    built(alloc, parts)
}

/// Adds the nets' names and the inputs to empty parts, and composes the network's netlist there.
fn compose_network(
    alloc: Global,
    parts: &mut Parts,
    source: &Netlist,
    count: usize,
    made: &NetGates,
    gates: &CheckGates,
) -> Result<(), AllocError>
    requires empty { parts.old ≡ no_parts }
    requires checked { IsBuilt source.now }
    requires combinational { length source.now.circuit.latches ≡ 0 }
    requires once { AreApart source.now.circuit.outputs }
    requires inputs { made.now.gates.inputs ≡ source.now.circuit.inputs }
    requires states { made.now.gates.states ≡ 0 }
    requires lines { AreLines made.now.gates made.now.outputs }
    requires means { MeanInputs source.now.circuit made.now.gates source.now.circuit.outputs (take (length source.now.circuit.outputs) made.now.outputs) }
    requires word { length made.now.outputs ≡ length source.now.circuit.outputs + count }
    requires few { count ≤ 64 }
    requires gates { IsCheckerOver (length made.now.outputs) gates.now }
    requires room { nets source.now.circuit + length made.now.gates.gates + length gates.now.gates + 66 < 2 ^ 32 }
    ensures sound { OnOk result (IsSound parts.new.named) }
    ensures net { OnOk result (IsComposedOf (fresh_parts source.now (count + 2)) made.now.gates made.now.outputs gates.now (names_of source.now.names source.now.circuit.outputs) (first_fresh_names source.now count) (fresh_name source.now count) (fresh_name source.now (count + 1)) (netlist_of parts.new.named)) }
{
    let names = begin(alloc, source, parts)?;
    let outputs = output_names(alloc, source, names.as_slice())?;
    let fresh = add_fresh_names(alloc, parts, count + 2)?;
    let fresh = fresh.as_slice();
    let rails = RailNames {
        first: fresh[count],
        second: fresh[count + 1],
    };
    let sources = SourceNames {
        inputs: source.inputs(),
        first: 0,
        latches: 0,
    };
    let checks = &fresh[..count];
    compose(
        alloc,
        parts,
        sources,
        made,
        gates,
        outputs.as_slice(),
        checks,
        rails,
    )
}
