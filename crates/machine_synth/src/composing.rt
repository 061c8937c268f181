//! A machine's netlist, as it is composed of its parts.
ghost use Rattle.std.specs.Prelude.{◌≡◌, ◌+◌, ◌*◌, ◌<◌, ◌≤◌, ◌^◌, ◌++◌, map, length, IfOk, OnOk};
ghost use Rattle.std.specs.List.{range_with_len};
ghost use Rattle.tsc_net.specs.Names.{IsNumbering};
ghost use Rattle.tsc_net.specs.NetlistOf.{netlist_of};
ghost use Rattle.tsc_net.specs.Parts.{no_parts};
ghost use Rattle.gate_net.specs.Gates.{AreLines};
ghost use Rattle.net_building.specs.Names.{numbered};
ghost use Rattle.net_writing.specs.CheckerParts.{IsCheckerOver};
ghost use Rattle.net_building.specs.Sound.{IsSound};
ghost use Rattle.unate_synth.specs.Composed.{IsComposedOf};
ghost use Rattle.machine_synth.specs.MachineParts.{machine_parts, fresh_at, hidden_texts};

use crate::beginning::{Latches, begin};
use code_checkers::CheckGates;
use gate_net::NetGates;
use net_building::built;
use net_writing::RailNames;
use std::alloc::{AllocError, Global};
use tsc_io::{Items, TextKey};
use tsc_net::{Name, NameList, NameTexts, Netlist, Parts};
use unate_synth::{SourceNames, compose};

/// The netlist of a machine whose inputs and outputs have these names: the gates of its word, which is outputs, so many checks and
/// what the latches read, and after them those of a checker.
pub fn machine_net(
    alloc: Global,
    inputs: &NameTexts,
    outputs: &NameTexts,
    key: TextKey,
    latches: Latches,
    count: usize,
    made: &NetGates,
    gates: &CheckGates,
) -> Result<Netlist, AllocError>
    requires distinct { IsNumbering (inputs.now ++ outputs.now) }
    requires shown { 0 < length outputs.now }
    requires inputs { length inputs.now ≡ made.now.gates.inputs }
    requires latches { latches.count ≡ made.now.gates.states }
    requires lines { AreLines made.now.gates made.now.outputs }
    requires word { length made.now.outputs ≡ length outputs.now + count + latches.count }
    requires few { latches.count ≤ 64 }
    requires gates { IsCheckerOver (length made.now.outputs) gates.now }
    requires room { length inputs.now + 2 * length made.now.outputs + length made.now.gates.gates + length gates.now.gates + 66 < 2 ^ 32 }
    ensures distinct { IfOk result (λ _. IsNumbering (machine_parts inputs.now outputs.now latches.count latches.word (2 * latches.count + count + 2)).names) }
    ensures net { IfOk result (IsComposedOf (machine_parts inputs.now outputs.now latches.count latches.word (2 * latches.count + count + 2)) made.now.gates made.now.outputs gates.now outputs.now (hidden_texts inputs.now outputs.now latches.count count) (fresh_at inputs.now outputs.now (2 * latches.count + count)) (fresh_at inputs.now outputs.now (2 * latches.count + count + 1))) }
{
    let mut parts = Parts::keyed(alloc, key);
    compose_machine(
        alloc, &mut parts, inputs, outputs, latches, count, made, gates,
    )?;
    built(alloc, parts)
}

/// Adds the model, the names, the inputs and the latches of a machine to empty parts, and composes its netlist there.
fn compose_machine(
    alloc: Global,
    parts: &mut Parts,
    inputs: &NameTexts,
    outputs: &NameTexts,
    latches: Latches,
    count: usize,
    made: &NetGates,
    gates: &CheckGates,
) -> Result<(), AllocError>
    requires empty { parts.old ≡ no_parts }
    requires distinct { IsNumbering (inputs.now ++ outputs.now) }
    requires shown { 0 < length outputs.now }
    requires inputs { length inputs.now ≡ made.now.gates.inputs }
    requires latches { latches.count ≡ made.now.gates.states }
    requires lines { AreLines made.now.gates made.now.outputs }
    requires word { length made.now.outputs ≡ length outputs.now + count + latches.count }
    requires few { latches.count ≤ 64 }
    requires gates { IsCheckerOver (length made.now.outputs) gates.now }
    requires room { length inputs.now + 2 * length made.now.outputs + length made.now.gates.gates + length gates.now.gates + 66 < 2 ^ 32 }
    ensures distinct { OnOk result (IsNumbering (machine_parts inputs.now outputs.now latches.count latches.word (2 * latches.count + count + 2)).names) }
    ensures sound { OnOk result (IsSound parts.new.named) }
    ensures net { OnOk result (IsComposedOf (machine_parts inputs.now outputs.now latches.count latches.word (2 * latches.count + count + 2)) made.now.gates made.now.outputs gates.now outputs.now (hidden_texts inputs.now outputs.now latches.count count) (fresh_at inputs.now outputs.now (2 * latches.count + count)) (fresh_at inputs.now outputs.now (2 * latches.count + count + 1)) (netlist_of parts.new.named)) }
{
    let input_count = inputs.len();
    let output_count = outputs.len();
    let first = input_count + output_count;
    let reads = first + latches.count;
    let checks = reads + latches.count;
    let fresh = 2 * latches.count + count + 2;
    begin(alloc, parts, inputs, outputs, latches, fresh)?;
    let shown = names_from(alloc, input_count, output_count)?;
    let hidden = hidden_names(alloc, checks, count, reads, latches.count)?;
    let rails = rails_from(checks + count);
    let sources = SourceNames {
        inputs: input_count,
        first,
        latches: latches.count,
    };
    compose(
        alloc,
        parts,
        sources,
        made,
        gates,
        shown.as_slice(),
        hidden.as_slice(),
        rails,
    )
}

/// The names of the checks, so many from number `checks` on, and then those that the latches read, so many from `reads` on.
fn hidden_names(
    alloc: Global,
    checks: usize,
    count: usize,
    reads: usize,
    latches: usize,
) -> Result<NameList, AllocError>
    requires checks { checks + count < 2 ^ 32 }
    requires reads { reads + latches < 2 ^ 32 }
    ensures names { IfOk result (λ names. names ≡ map numbered (range_with_len checks count) ++ map numbered (range_with_len reads latches)) }
{
    let mut hidden = names_from(alloc, checks, count)?;
    let next = names_from(alloc, reads, latches)?;
    hidden.append(next.as_slice())?;
    Ok(hidden)
}

/// The names with numbers from `first` on, so many of them.
fn names_from(alloc: Global, first: usize, count: usize) -> Result<NameList, AllocError>
    requires few { first + count < 2 ^ 32 }
    ensures names { IfOk result (λ names. names ≡ map numbered (range_with_len first count)) }
{
    let mut names = Items::new(alloc);
    for place in 0..count {
        names.push(Name {
            number: (first + place) as u32,
        })?;
    }
    Ok(names)
}

/// The names with this number and the next one.
fn rails_from(first: usize) -> RailNames
    requires few { first + 1 < 2 ^ 32 }
    ensures first { result.first.number ≡ first }
    ensures second { result.second.number ≡ first + 1 }
{
    RailNames {
        first: Name {
            number: first as u32,
        },
        second: Name {
            number: (first + 1) as u32,
        },
    }
}
