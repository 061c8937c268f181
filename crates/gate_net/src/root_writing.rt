//! Gates written into a netlist by names: each root's name has the value of its line.
ghost use Rattle.std.specs.Prelude.{◌≡◌, ℕ, ◌+◌, ◌<◌, ◌≤◌, ◌^◌, map, length, All, Contains, IfOk, OnOk};
ghost use Rattle.tsc_net.specs.Names.{IsNumbering};
ghost use Rattle.tsc_net.specs.PartsView.{text_of, IsName};
ghost use Rattle.gate_net.specs.Gates.{GateNetwork, IsLine, meaning};
ghost use Rattle.gate_net.specs.Negations.{NegatesOnlyInputs};
ghost use Rattle.gate_net.specs.Written.{NameIsRoot, RootsRealise, Extends, IsNamed, AreBelow, NamesRealise, ReadsBefore};
ghost use Rattle.gate_net.specs.Added.{added_nodes, added_outs, root_texts, sources, IsUndriven, DrivesRootOrFresh, AreFreshOuts, HasRightNamedSigns, InnerDiffer, HasGateCover, DrivesListed, DrivesNeeded};
ghost use Rattle.gate_net.specs.Writing.{AreBufs, AddsBufOrNot};

use crate::gate_writing::{name_of, write_gates};
use crate::gates::Gates;
use crate::line::LineList;
use crate::needed::needed;
use crate::owners::owners;
use crate::root::{Root, RootList};
use std::alloc::{AllocError, Global};
use tsc_cover::buf_cover;
use tsc_io::Items;
use tsc_net::{Name, Parts};

/// Adds a node for each gate that some root needs, in order, and is no input and no state bit. The node drives the name of
/// the first root with its line, or else a fresh one. Every other root has a `Buf` over its line, after these nodes.
/// Each node has the cover of a gate or of a `Buf`, and some root needs what it drives.
/// There are at most as many nodes as gates and roots together, and the names that come are the next fresh ones, in order.
/// No two roots have the same name, and nothing in the parts gives a root's name. Where no two inputs and latches have the
/// same name, no node with a fresh name has the same cover and the same pins in the same order as another.
///
/// # Errors
///
/// Want of memory. The parts hold what they held, perhaps followed by some of the nodes and names.
#[tactic(auto, using(crate::proofs::Written::extends_not))]
pub fn to_net(
    alloc: Global,
    gates: &Gates,
    roots: &RootList,
    parts: &mut Parts,
) -> Result<(), AllocError>
    requires inputs { length parts.old.named.inputs ≡ gates.now.inputs }
    requires latches { length parts.old.named.latches ≡ gates.now.states }
    requires lines { All (λ root. IsLine gates.now root.line) roots.now }
    requires names { All (λ root. IsName parts.old.names root.name) roots.now }
    requires distinct { IsNumbering (root_texts parts.old.names roots.now) }
    requires undriven { All (IsUndriven parts.old.named) (root_texts parts.old.names roots.now) }
    requires room { length parts.old.names + length gates.now.gates < 2 ^ 32 }
    ensures adds { Extends parts.old parts.new }
    ensures roots { OnOk result (RootsRealise parts.new (length parts.old.named.nodes) gates.now roots.now) }
    ensures before { OnOk result (ReadsBefore parts.new.named (length parts.old.named.nodes)) }
    ensures narrow { OnOk result (All (λ n. length n.reads ≤ 2) (added_nodes parts.old parts.new)) }
    ensures outs { OnOk result (All (DrivesRootOrFresh parts.old roots.now) (added_nodes parts.old parts.new)) }
    ensures once { OnOk result (IsNumbering (added_outs parts.old parts.new)) }
    ensures driven { OnOk result (All (Contains (added_outs parts.old parts.new)) (root_texts parts.old.names roots.now)) }
    ensures fresh { OnOk result (AreFreshOuts parts.old parts.new) }
    ensures signs { OnOk result (NegatesOnlyInputs gates.now → All (HasRightNamedSigns parts.new.named) (added_nodes parts.old parts.new)) }
    ensures differ { OnOk result (IsNumbering (sources parts.old.named) → InnerDiffer (root_texts parts.old.names roots.now) (added_nodes parts.old parts.new)) }
    ensures covers { OnOk result (All HasGateCover (added_nodes parts.old parts.new)) }
    ensures listed { OnOk result (All (DrivesListed parts.new.names) (added_nodes parts.old parts.new)) }
    ensures needed { OnOk result (All (DrivesNeeded parts.new.named (length parts.old.named.nodes) (root_texts parts.old.names roots.now)) (added_nodes parts.old parts.new)) }
    ensures few { OnOk result (length parts.new.names ≤ length parts.old.names + length gates.now.gates) }
    ensures nodes { OnOk result (length parts.new.named.nodes ≤ length parts.old.named.nodes + length gates.now.gates + length roots.now) }
{
    let roots = roots.as_slice();
    let lines = root_lines(alloc, roots)?;
    let marks = needed(alloc, gates, lines.as_slice())?;
    let owners = owners(alloc, gates, roots, parts)?;
    let names = write_gates(alloc, gates, &marks, &owners, parts)?;
    write_bufs(alloc, roots, &names, parts)
}

/// The lines of roots.
fn root_lines(alloc: Global, roots: &[Root]) -> Result<LineList, AllocError>
    ensures lines { IfOk result (λ lines. lines ≡ map (λ root. root.line) roots.now) }
{
    let mut lines = LineList::new(alloc);
    for root in roots {
        lines.push(root.line)?;
    }
    Ok(lines)
}

/// Writes a `Buf` for each root whose name its line doesn't have.
fn write_bufs(
    alloc: Global,
    roots: &[Root],
    names: &[Option<Name>],
    parts: &mut Parts,
) -> Result<(), AllocError>
    requires names { AreBelow (length parts.old.names) names.now }
    requires roots { All (λ root. IsName parts.old.names root.name) roots.now }
    requires distinct { IsNumbering (root_texts parts.old.names roots.now) }
    requires named { All (λ root. IsNamed names.now root.line) roots.now }
    ensures extends { Extends parts.old parts.new }
    ensures roots { OnOk result ((G : GateNetwork) (lo : ℕ) → lo ≤ length parts.old.named.nodes → NamesRealise parts.old lo G names.now → RootsRealise parts.new lo G roots.now) }
    ensures before { OnOk result ((G : GateNetwork) (lo : ℕ) → NamesRealise parts.old lo G names.now → ReadsBefore parts.old.named lo → ReadsBefore parts.new.named lo) }
    ensures bufs { OnOk result (AreBufs parts.old parts.new names.now roots.now) }
    ensures nodes { OnOk result (length parts.new.named.nodes ≤ length parts.old.named.nodes + length roots.now) }
{
    for root in roots {
        write_buf(alloc, *root, names, parts)?;
    }
    Ok(())
}

/// Writes a `Buf` for a root, where its line has another name.
#[tactic(auto, using(crate::proofs::Written::extends_not))]
fn write_buf(
    alloc: Global,
    root: Root,
    names: &[Option<Name>],
    parts: &mut Parts,
) -> Result<(), AllocError>
    requires names { AreBelow (length parts.old.names) names.now }
    requires root { IsName parts.old.names root.name }
    requires named { IsNamed names.now root.line }
    ensures extends { Extends parts.old parts.new }
    ensures same_names { parts.new.names ≡ parts.old.names }
    ensures nodes { length parts.new.named.nodes ≤ length parts.old.named.nodes + 1 }
    ensures root { OnOk result ((G : GateNetwork) (lo : ℕ) → lo ≤ length parts.old.named.nodes → NamesRealise parts.old lo G names.now → NameIsRoot parts.new.named lo (meaning G root.line) (text_of parts.new.names root.name)) }
    ensures before { OnOk result ((G : GateNetwork) (lo : ℕ) → NamesRealise parts.old lo G names.now → ReadsBefore parts.old.named lo → ReadsBefore parts.new.named lo) }
    ensures buf { OnOk result (AddsBufOrNot parts.old parts.new names.now root) }
{
    let name = name_of(names, root.line);
    if name.number == root.name.number {
        return Ok(());
    }
    let cover = buf_cover(alloc)?;
    let reads = Items::from_slice(alloc, &[name])?;
    parts.node(reads, root.name, cover)?;
    Ok(())
}
