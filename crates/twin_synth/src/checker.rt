//! The gates of a checker, pushed as nodes to a netlist by numbers.
ghost use Rattle.std.specs.Prelude.{◌≡◌, ℕ, ◌+◌, ◌<◌, ◌^◌, [], ◌∷◌, map, length, slice_index, IfOk, OnOk};
ghost use Rattle.fault_secure.specs.Circuit.{nets, gate as node_over};
ghost use Rattle.code_checkers.specs.declared.gate.CheckGate.TheVariants as gate_of;
ghost use Rattle.code_checkers.specs.Gates.{ReadsBelow, AreOrdered};
ghost use Rattle.code_checkers.specs.Nodes.{cover_of, reads_of};
ghost use Rattle.code_checkers.specs.CheckerNodes.{gate_net, gate_nets, gate_node, gate_nodes};
ghost use Rattle.twin_synth.specs.Numbered.{more_nodes};
ghost use Rattle.twin_synth.specs.TwinGates.{StandWithin};

use crate::numbered::{Numbered, NumberedNode};
use code_checkers::{CheckGate, CheckGates};
use net_writing::cover_for;
use std::alloc::{AllocError, Global};
use tsc_io::Items;
use tsc_net::PlaceList;

/// Pushes the gates of a checker over the nets of a word, and answers the nets of its two rails.
///
/// # Errors
///
/// Want of memory.
pub fn push_gates(
    alloc: Global,
    gates: &CheckGates,
    word: &[usize],
    numbered: &mut Numbered,
) -> Result<(usize, usize), AllocError>
    requires ordered { AreOrdered gates.now.gates }
    requires words { StandWithin (length word.now) gates.now }
    requires first { gates.now.rail1 < length gates.now.gates }
    requires second { gates.now.rail2 < length gates.now.gates }
    requires room { nets numbered.old.circuit + length gates.now.gates < 2 ^ 64 }
    ensures pushed { OnOk result (numbered.new ≡ more_nodes numbered.old (gate_nodes (gate_nets word.now (nets numbered.old.circuit) gates.now.gates) gates.now.gates)) }
    ensures rails { IfOk result (λ rails. (rails.0 ≡ slice_index (gate_nets word.now (nets numbered.old.circuit) gates.now.gates) gates.now.rail1)
        × (rails.1 ≡ slice_index (gate_nets word.now (nets numbered.old.circuit) gates.now.gates) gates.now.rail2)) }
{
    let known = push_all(alloc, gates, word, numbered)?;
    let nets = known.as_slice();
    Ok((nets[gates.rail1()], nets[gates.rail2()]))
}

/// Pushes the gates of a checker, and answers the net of each.
fn push_all(
    alloc: Global,
    gates: &CheckGates,
    word: &[usize],
    numbered: &mut Numbered,
) -> Result<PlaceList, AllocError>
    requires ordered { AreOrdered gates.now.gates }
    requires words { StandWithin (length word.now) gates.now }
    requires room { nets numbered.old.circuit + length gates.now.gates < 2 ^ 64 }
    ensures pushed { OnOk result (numbered.new ≡ more_nodes numbered.old (gate_nodes (gate_nets word.now (nets numbered.old.circuit) gates.now.gates) gates.now.gates)) }
    ensures nets { IfOk result (λ known. known ≡ gate_nets word.now (nets numbered.old.circuit) gates.now.gates) }
    ensures counted { IfOk result (λ known. length known ≡ length gates.now.gates) }
{
    let mut known = Items::new(alloc);
    for place in 0..gates.len() {
        let net = push_gate(alloc, gates.get(place), word, known.as_slice(), numbered)?;
        known.push(net)?;
    }
    Ok(known)
}

/// Pushes a gate over the nets of the earlier ones, if it isn't a place of the word, and answers its net.
fn push_gate(
    alloc: Global,
    gate: CheckGate,
    word: &[usize],
    known: &[usize],
    numbered: &mut Numbered,
) -> Result<usize, AllocError>
    requires reads { ReadsBelow (length known.now) gate }
    requires words { (place : ℕ) → gate ≡ gate_of.Word place → place < length word.now }
    requires room { nets numbered.old.circuit < 2 ^ 64 }
    ensures pushed { OnOk result (numbered.new ≡ more_nodes numbered.old (gate_node known.now gate)) }
    ensures net { IfOk result (λ net. net ≡ gate_net word.now (nets numbered.old.circuit) gate) }
{
    match gate {
        CheckGate::Word { place } => Ok(word[place]),
        _ => push_node(alloc, gate, known, numbered),
    }
}

/// Pushes the node of a gate over the nets of the earlier ones, and answers its net.
fn push_node(
    alloc: Global,
    gate: CheckGate,
    known: &[usize],
    numbered: &mut Numbered,
) -> Result<usize, AllocError>
    requires reads { ReadsBelow (length known.now) gate }
    requires room { nets numbered.old.circuit < 2 ^ 64 }
    ensures pushed { OnOk result (numbered.new ≡ more_nodes numbered.old (node_over (cover_of gate) (map (slice_index known.now) (reads_of gate)) ∷ [])) }
    ensures net { IfOk result (λ net. net ≡ nets numbered.old.circuit) }
{
    let next = numbered.inputs() + numbered.latches() + numbered.nodes();
    let reads = pins_of(alloc, gate, known)?;
    let cover = cover_for(alloc, gate)?;
    numbered.push_node(NumberedNode::new(reads, cover))?;
    Ok(next)
}

/// The nets that a gate reads, one for each pin.
fn pins_of(alloc: Global, gate: CheckGate, known: &[usize]) -> Result<PlaceList, AllocError>
    requires reads { ReadsBelow (length known.now) gate }
    ensures pins { IfOk result (λ pins. pins ≡ map (slice_index known.now) (reads_of gate)) }
{
    match gate {
        CheckGate::Word { place: _ } => Ok(Items::new(alloc)),
        CheckGate::Buf { a } => Items::from_slice(alloc, &[known[a]]),
        CheckGate::Not { a } => Items::from_slice(alloc, &[known[a]]),
        CheckGate::And { a, b } => Items::from_slice(alloc, &[known[a], known[b]]),
        CheckGate::Or { a, b } => Items::from_slice(alloc, &[known[a], known[b]]),
        CheckGate::Xor { a, b } => Items::from_slice(alloc, &[known[a], known[b]]),
    }
}
