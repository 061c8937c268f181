//! The names that lines of gates have before anything is written: those of inputs, latches and roots.
ghost use Rattle.std.specs.Prelude.{◌≡◌, false, List, length, All, Contains, IfOk, IfSome, IsSome};
ghost use Rattle.tsc_net.specs.Parts.{PartsOf};
ghost use Rattle.tsc_net.specs.PartsView.{text_of, IsName};
ghost use Rattle.gate_net.specs.declared.root.Root.{Root};
ghost use Rattle.gate_net.specs.Gates.{IsLine};
ghost use Rattle.gate_net.specs.NodesOfLines.{has_node};
ghost use Rattle.gate_net.specs.declared.line.Line.{Line};
ghost use Rattle.gate_net.specs.Written.{IsFed, IsNamed};
ghost use Rattle.gate_net.specs.Writing.{IsSourceText, AreSources, AreOwners, SourcesOwned};

use crate::gate::Gate;
use crate::gates::Gates;
use crate::line::Line;
use crate::root::Root;
use std::alloc::{AllocError, Global};
use tsc_net::{Name, Parts};

/// For each line its name: that of its input or latch, or that of the first root with it, if there is one.
pub fn owners(
    alloc: Global,
    gates: &Gates,
    roots: &[Root],
    parts: &Parts,
) -> Result<Vec<Option<Name>>, AllocError>
    requires inputs { length parts.now.named.inputs ≡ gates.now.inputs }
    requires latches { length parts.now.named.latches ≡ gates.now.states }
    requires lines { All (λ root. IsLine gates.now root.line) roots.now }
    ensures sized { IfOk result (λ owners. length owners.items ≡ length gates.now.gates) }
    ensures are { IfOk result (λ owners. AreOwners parts.now gates.now roots.now owners.items) }
    ensures sources { IfOk result (λ owners. SourcesOwned gates.now owners.items) }
{
    let mut owners = source_names(alloc, gates, parts)?;
    for root in roots {
        claim(&mut owners, gates, *root);
    }
    Ok(owners)
}

/// For each line the name of its input or latch, if it is one.
fn source_names(
    alloc: Global,
    gates: &Gates,
    parts: &Parts,
) -> Result<Vec<Option<Name>>, AllocError>
    requires inputs { length parts.now.named.inputs ≡ gates.now.inputs }
    requires latches { length parts.now.named.latches ≡ gates.now.states }
    ensures sized { IfOk result (λ names. length names.items ≡ length gates.now.gates) }
    ensures are { IfOk result (λ names. AreSources parts.now gates.now names.items) }
    ensures sources { IfOk result (λ names. SourcesOwned gates.now names.items) }
{
    let mut names: Vec<Option<Name>> = Vec::new(alloc);
    for place in 0..gates.len() {
        let gate = gates.gate(Line {
            number: place as u32,
        });
        names.push(source_name(gate, parts))?;
    }
    Ok(names)
}

/// The name of a gate's input or latch, if it is one.
fn source_name(gate: Gate, parts: &Parts) -> Option<Name>
    requires fed { IsFed parts.now gate }
    ensures without { IfSome result (λ _. has_node gate ≡ false) }
    ensures some { has_node gate ≡ false → IsSome result }
    ensures within { IfSome result (IsName parts.now.names) }
    ensures text { IfSome result (λ name. IsSourceText parts.now gate (text_of parts.now.names name)) }
{
    match gate {
        Gate::Input { i } => Some(parts.input_name(i)),
        Gate::State { i } => Some(parts.latch_out(i)),
        _ => None,
    }
}

/// Gives a root's line to the root, where the line gets a node and no earlier root has it.
fn claim(owners: &mut Vec<Option<Name>>, gates: &Gates, root: Root)
    requires sized { length owners.old.items ≡ length gates.now.gates }
    requires line { IsLine gates.now root.line }
    ensures sized { length owners.new.items ≡ length owners.old.items }
    ensures keeps { (line : Line) → IsNamed owners.old.items line → IsNamed owners.new.items line }
    ensures are { (p : PartsOf) (roots : List Root) → Contains roots root → AreOwners p gates.now roots owners.old.items → AreOwners p gates.now roots owners.new.items }
{
    let place = root.line.number as usize;
    if gets_node(gates.gate(root.line)) && owners[place].is_none() {
        owners[place] = Some(root.name);
    }
}

/// Whether a gate is neither an input nor a state bit.
fn gets_node(gate: Gate) -> bool
    ensures same { result ≡ has_node gate }
{
    match gate {
        Gate::Input { i: _ } => false,
        Gate::State { i: _ } => false,
        _ => true,
    }
}
