//! Gates written into a netlist by names: one node per gate.
ghost use Rattle.std.specs.Prelude.{◌≡◌, ◌↔◌, ℕ, ◌+◌, ◌<◌, ◌≤◌, ◌^◌, true, false, [], ◌∷◌, length, Some, All, IfOk, IfSome, IsSome, IsTrue, OnOk};
ghost use Rattle.std.specs.List.{AllZip};
ghost use Rattle.tsc_net.specs.PartsView.{text_of, IsName};
ghost use Rattle.gate_net.specs.Gates.{GateNetwork, IsHashed, gate_signal};
ghost use Rattle.gate_net.specs.NodesOfLines.{has_node, operands};
ghost use Rattle.gate_net.specs.Written.{NameRealises, Extends, HasName, IsNamed, AreBelow, NamesRealise, ReadsBefore};
ghost use Rattle.gate_net.specs.Writing.{NamesNode, NamesGate, NamesIfNeeded, IsSourceText, OwnersFit, OwnersDiffer, SourcesOwned, MarkedNamed, NamedMarked, AreWritten};
ghost use Rattle.gate_net.specs.Needed.{IsClosedFrom};

use crate::gate::Gate;
use crate::gate_covers::cover_for;
use crate::gates::Gates;
use crate::line::Line;
use std::alloc::{AllocError, Global};
use tsc_io::Items;
use tsc_net::{Name, NameList, Parts};

/// Writes the gates that are marked, and answers the name of each.
pub fn write_gates(
    alloc: Global,
    gates: &Gates,
    marks: &[bool],
    owners: &[Option<Name>],
    parts: &mut Parts,
) -> Result<Vec<Option<Name>>, AllocError>
    requires marks { length marks.now ≡ length gates.now.gates }
    requires owners { length owners.now ≡ length gates.now.gates }
    requires below { AreBelow (length parts.old.names) owners.now }
    requires fit { OwnersFit parts.old gates.now owners.now }
    requires differ { OwnersDiffer parts.old gates.now owners.now }
    requires sources { SourcesOwned gates.now owners.now }
    requires closed { IsClosedFrom gates.now 0 marks.now }
    requires room { length parts.old.names + length gates.now.gates < 2 ^ 32 }
    ensures extends { Extends parts.old parts.new }
    ensures below { IfOk result (λ names. AreBelow (length parts.new.names) names.items) }
    ensures realise { IfOk result (λ names. NamesRealise parts.new (length parts.old.named.nodes) gates.now names.items) }
    ensures before { IfOk result (λ _. ReadsBefore parts.new.named (length parts.old.named.nodes)) }
    ensures sized { IfOk result (λ names. length names.items ≡ length gates.now.gates) }
    ensures sound { IfOk result (λ _. IsHashed gates.now) }
    ensures named { IfOk result (λ names. MarkedNamed marks.now (length gates.now.gates) names.items) }
    ensures marked { IfOk result (λ names. NamedMarked marks.now names.items) }
    ensures written { IfOk result (λ names. AreWritten parts.old parts.new gates.now owners.now names.items) }
    ensures few { IfOk result (λ _. length parts.new.names ≤ length parts.old.names + length gates.now.gates) }
    ensures nodes { OnOk result (length parts.new.named.nodes ≤ length parts.old.named.nodes + length gates.now.gates) }
{
    let mut names: Vec<Option<Name>> = Vec::new(alloc);
    for place in 0..gates.len() {
        let gate = gates.gate(Line {
            number: place as u32,
        });
        let name = write_line(alloc, gate, marks[place], &names, owners[place], parts)?;
        names.push(name)?;
    }
    Ok(names)
}

/// Writes a gate that is needed, and answers its name; none where it isn't needed.
#[tactic(auto, using(crate::proofs::Written::extends_not))]
fn write_line(
    alloc: Global,
    gate: Gate,
    is_needed: bool,
    names: &[Option<Name>],
    owner: Option<Name>,
    parts: &mut Parts,
) -> Result<Option<Name>, AllocError>
    requires fits { IfSome owner (λ name. IsSourceText parts.old gate (text_of parts.old.names name)) }
    requires named { IsTrue is_needed → All (IsNamed names.now) (operands gate) }
    requires owned { has_node gate ≡ false → IsSome owner }
    requires names { AreBelow (length parts.old.names) names.now }
    requires owner { IfSome owner (IsName parts.old.names) }
    requires room { length parts.old.names + 1 < 2 ^ 32 }
    ensures extends { Extends parts.old parts.new }
    ensures room { length parts.new.names ≤ length parts.old.names + 1 }
    ensures nodes { length parts.new.named.nodes ≤ length parts.old.named.nodes + 1 }
    ensures name { IfOk result (λ made. IfSome made (IsName parts.new.names)) }
    ensures realises { IfOk result (λ made. IfSome made (λ name. (G : GateNetwork) (lo : ℕ) → lo ≤ length parts.old.named.nodes → NamesRealise parts.old lo G names.now → NameRealises parts.new.named lo (gate_signal G gate) (text_of parts.new.names name))) }
    ensures before { IfOk result (λ _. (G : GateNetwork) (lo : ℕ) → NamesRealise parts.old lo G names.now → ReadsBefore parts.old.named lo → ReadsBefore parts.new.named lo) }
    ensures line { IfOk result (NamesIfNeeded parts.old parts.new gate names.now owner) }
    ensures named { IfOk result (λ made. IsTrue is_needed ↔ IsSome made) }
{
    if !is_needed {
        return Ok(None);
    }
    let name = write_gate(alloc, gate, names, owner, parts)?;
    Ok(Some(name))
}

/// The name of a gate: its owner's where it is an input or a state bit, or that of its node, which is written.
#[tactic(auto, using(crate::proofs::Written::extends_not, crate::proofs::Owned::source_realises, crate::proofs::Owned::owner_below))]
fn write_gate(
    alloc: Global,
    gate: Gate,
    names: &[Option<Name>],
    owner: Option<Name>,
    parts: &mut Parts,
) -> Result<Name, AllocError>
    requires fits { IfSome owner (λ name. IsSourceText parts.old gate (text_of parts.old.names name)) }
    requires named { All (IsNamed names.now) (operands gate) }
    requires owned { has_node gate ≡ false → IsSome owner }
    requires names { AreBelow (length parts.old.names) names.now }
    requires owner { IfSome owner (IsName parts.old.names) }
    requires room { length parts.old.names + 1 < 2 ^ 32 }
    ensures extends { Extends parts.old parts.new }
    ensures room { length parts.new.names ≤ length parts.old.names + 1 }
    ensures nodes { length parts.new.named.nodes ≤ length parts.old.named.nodes + 1 }
    ensures name { IfOk result (IsName parts.new.names) }
    ensures realises { IfOk result (λ name. (G : GateNetwork) (lo : ℕ) → lo ≤ length parts.old.named.nodes → NamesRealise parts.old lo G names.now → NameRealises parts.new.named lo (gate_signal G gate) (text_of parts.new.names name)) }
    ensures before { IfOk result (λ _. (G : GateNetwork) (lo : ℕ) → NamesRealise parts.old lo G names.now → ReadsBefore parts.old.named lo → ReadsBefore parts.new.named lo) }
    ensures gate { IfOk result (NamesGate parts.old parts.new gate names.now owner) }
{
    match gate {
        Gate::Input { i: _ } => Ok(owned(owner)),
        Gate::State { i: _ } => Ok(owned(owner)),
        other => write_node(alloc, other, names, owner, parts),
    }
}

/// The name of the owner that a line has.
fn owned(owner: Option<Name>) -> Name
    requires some { IsSome owner }
    ensures owner { owner ≡ Some result }
{
    match owner {
        Some(name) => name,
        None => unreachable!(),
    }
}

/// Writes the node of a gate, and answers the name that it drives.
#[tactic(auto, using(crate::proofs::Written::extends_not))]
fn write_node(
    alloc: Global,
    gate: Gate,
    names: &[Option<Name>],
    owner: Option<Name>,
    parts: &mut Parts,
) -> Result<Name, AllocError>
    requires named { All (IsNamed names.now) (operands gate) }
    requires names { AreBelow (length parts.old.names) names.now }
    requires owner { IfSome owner (IsName parts.old.names) }
    requires room { length parts.old.names + 1 < 2 ^ 32 }
    ensures extends { Extends parts.old parts.new }
    ensures room { length parts.new.names ≤ length parts.old.names + 1 }
    ensures nodes { length parts.new.named.nodes ≤ length parts.old.named.nodes + 1 }
    ensures name { IfOk result (IsName parts.new.names) }
    ensures realises { IfOk result (λ name. (G : GateNetwork) (lo : ℕ) → has_node gate ≡ true → lo ≤ length parts.old.named.nodes → NamesRealise parts.old lo G names.now → NameRealises parts.new.named lo (gate_signal G gate) (text_of parts.new.names name)) }
    ensures before { IfOk result (λ _. (G : GateNetwork) (lo : ℕ) → NamesRealise parts.old lo G names.now → ReadsBefore parts.old.named lo → ReadsBefore parts.new.named lo) }
    ensures node { IfOk result (λ name. has_node gate ≡ true → NamesGate parts.old parts.new gate names.now owner name) }
{
    let reads = operand_names(alloc, gate, names)?;
    let cover = cover_for(alloc, gate)?;
    let out = out_name(owner, parts)?;
    parts.node(reads, out, cover)?;
    Ok(out)
}

/// The name that a node is to drive: its owner's, or else a fresh one.
#[tactic(auto, using(crate::proofs::Written::extends_not))]
fn out_name(owner: Option<Name>, parts: &mut Parts) -> Result<Name, AllocError>
    requires owner { IfSome owner (IsName parts.old.names) }
    requires room { length parts.old.names + 1 < 2 ^ 32 }
    ensures extends { Extends parts.old parts.new }
    ensures named { parts.new.named ≡ parts.old.named }
    ensures room { length parts.new.names ≤ length parts.old.names + 1 }
    ensures name { IfOk result (IsName parts.new.names) }
    ensures node { IfOk result (NamesNode parts.old parts.new owner) }
{
    match owner {
        Some(name) => Ok(name),
        None => {
            let name = parts.fresh()?;
            Ok(name)
        }
    }
}

/// The names of the lines that a gate reads.
fn operand_names(alloc: Global, gate: Gate, names: &[Option<Name>]) -> Result<NameList, AllocError>
    requires named { All (IsNamed names.now) (operands gate) }
    ensures names { IfOk result (λ reads. AllZip (HasName names.now) (operands gate) reads) }
{
    match gate {
        Gate::Not { a } => one_name(alloc, names, a),
        Gate::And { a, b } => two_names(alloc, names, a, b),
        Gate::Or { a, b } => two_names(alloc, names, a, b),
        Gate::Xor { a, b } => two_names(alloc, names, a, b),
        _ => Ok(Items::new(alloc)),
    }
}

/// The name of a line, as a list.
fn one_name(alloc: Global, names: &[Option<Name>], a: Line) -> Result<NameList, AllocError>
    requires a { IsNamed names.now a }
    ensures names { IfOk result (λ reads. AllZip (HasName names.now) (a ∷ []) reads) }
{
    Items::from_slice(alloc, &[name_of(names, a)])
}

/// The names of two lines.
fn two_names(
    alloc: Global,
    names: &[Option<Name>],
    a: Line,
    b: Line,
) -> Result<NameList, AllocError>
    requires a { IsNamed names.now a }
    requires b { IsNamed names.now b }
    ensures names { IfOk result (λ reads. AllZip (HasName names.now) (a ∷ (b ∷ [])) reads) }
{
    Items::from_slice(alloc, &[name_of(names, a), name_of(names, b)])
}

/// The name of a line that has one.
pub fn name_of(names: &[Option<Name>], line: Line) -> Name
    requires named { IsNamed names.now line }
    ensures name { HasName names.now line result }
{
    match names[line.number as usize] {
        Some(name) => name,
        None => unreachable!(),
    }
}
