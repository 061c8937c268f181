//! The rows of nodes, along the evaluation order.
ghost use Rattle.std.specs.Prelude.{◌≡◌, ℕ, ◌<◌, Bool, IsTrue, List, map, length, slice_index, All, IfOk, OnOk, IsErrOf};
ghost use Rattle.std.specs.List.{flat_map, filter};
ghost use Rattle.fault_secure.specs.Circuit.{nets, node, node_net, bit};
ghost use Rattle.tsc_net.specs.PlanView.{net_numbers};
ghost use Rattle.diagrams.specs.Cofactors.{Function};
ghost use Rattle.diagrams.specs.Building.{AreMade, StandsFor, AreShort};
ghost use Rattle.cover_diagrams.specs.Covering.{Grows};
ghost use Rattle.circuit_diagrams.specs.Stated.{AreValuations, net_function, node_functions};
ghost use Rattle.circuit_diagrams.specs.Steps.{AreKept, AreBuilt, AreAdded, AreShortOf};
ghost use Rattle.circuit_diagrams.specs.NetRows.{InputsStand, ReadsStand, NetsStand, ReadsMarked};

use cover_diagrams::cover_row;
use diagrams::{BuildError, Diagrams};
use std::alloc::{AllocError, Global};
use tsc_net::{NetId, Netlist};

/// The rows of some nets.
pub(crate) fn rows_of(alloc: Global, rows: &[u32], list: &[NetId]) -> Result<Vec<u32>, AllocError>
    requires within { All (λ net. net.number < length rows.now) list.now }
    ensures rows { IfOk result (λ found. found.items ≡ map (slice_index rows.now) (net_numbers list.now)) }
{
    let mut found = Vec::with_capacity(alloc, list.len())?;
    for net in list {
        found.push(rows[net.number as usize])?;
    }
    Ok(found)
}

/// The row of the function of a node's net, whose pins' nets have theirs.
fn node_row(
    alloc: Global,
    diagrams: &mut Diagrams,
    net: &Netlist,
    place: usize,
    rows: &[u32],
) -> Result<u32, BuildError>
    requires place { place < length net.now.circuit.nodes }
    requires sized { length rows.now ≡ nets net.now.circuit }
    requires inside { All (λ row. row < length diagrams.old.rows) rows.now }
    ensures grown { Grows diagrams.old diagrams.new }
    ensures inside { IfOk result (λ row. row < length diagrams.new.rows) }
    ensures made { (v : List Bool → List Bool) (kept : List Function) → ReadsStand diagrams.old net.now.circuit v place rows.now → AreKept diagrams.old.inputs kept (node_functions net.now.circuit v place) → AreMade diagrams.old diagrams.new kept }
    ensures built { (v : List Bool → List Bool) → ReadsStand diagrams.old net.now.circuit v place rows.now → OnOk result (AreBuilt diagrams.new (node_functions net.now.circuit v place)) }
    ensures stands { (v : List Bool → List Bool) → AreValuations net.now.circuit v → diagrams.old.inputs ≡ net.now.circuit.inputs → ReadsStand diagrams.old net.now.circuit v place rows.now → IfOk result (StandsFor diagrams.new (net_function v (node_net net.now.circuit place))) }
    ensures short { IsErrOf result BuildError.Spent → (v : List Bool → List Bool) (kept : List Function) → ReadsStand diagrams.old net.now.circuit v place rows.now → AreKept diagrams.old.inputs kept (node_functions net.now.circuit v place) → AreShort diagrams.new kept }
{
    // What the diagrams and the netlist keep is known from here on.
    let _rows = diagrams.len();
    let _nets = net.nets();
    let cover = net.node_cover(place);
    let reads = net.node_reads(place);
    match rows_of(alloc, rows, reads) {
        Ok(pins) => match cover_row(diagrams, cover, &pins) {
            Ok(row) => Ok(row),
            Err(e) => Err(e),
        },
        Err(e) => Err(BuildError::Memory(e)),
    }
}

/// Puts the row of a node's net at its place, where the node is marked.
fn add_node(
    alloc: Global,
    diagrams: &mut Diagrams,
    net: &Netlist,
    marks: &[bool],
    place: usize,
    rows: &mut [u32],
) -> Result<(), BuildError>
    requires place { place < length net.now.circuit.nodes }
    requires marks { length marks.now ≡ length net.now.circuit.nodes }
    requires sized { length rows.old ≡ nets net.now.circuit }
    requires inside { All (λ row. row < length diagrams.old.rows) rows.old }
    ensures sized { length rows.new ≡ length rows.old }
    ensures inside { All (λ row. row < length diagrams.new.rows) rows.new }
    ensures grown { Grows diagrams.old diagrams.new }
    ensures others { (other : ℕ) → (other ≡ node_net net.now.circuit place → ⊥) → slice_index rows.new other ≡ slice_index rows.old other }
    ensures made { (v : List Bool → List Bool) (kept : List Function) → (IsTrue (bit marks.now place) → ReadsStand diagrams.old net.now.circuit v place rows.old) → (IsTrue (bit marks.now place) → AreKept diagrams.old.inputs kept (node_functions net.now.circuit v place)) → AreMade diagrams.old diagrams.new kept }
    ensures built { IsTrue (bit marks.now place) → (v : List Bool → List Bool) → ReadsStand diagrams.old net.now.circuit v place rows.old → OnOk result (AreBuilt diagrams.new (node_functions net.now.circuit v place)) }
    ensures stands { IsTrue (bit marks.now place) → (v : List Bool → List Bool) → AreValuations net.now.circuit v → diagrams.old.inputs ≡ net.now.circuit.inputs → ReadsStand diagrams.old net.now.circuit v place rows.old → OnOk result (StandsFor diagrams.new (net_function v (node_net net.now.circuit place)) (slice_index rows.new (node_net net.now.circuit place))) }
    ensures short { IsErrOf result BuildError.Spent → (v : List Bool → List Bool) (kept : List Function) → (IsTrue (bit marks.now place) → ReadsStand diagrams.old net.now.circuit v place rows.old) → (IsTrue (bit marks.now place) → AreKept diagrams.old.inputs kept (node_functions net.now.circuit v place)) → AreShort diagrams.new kept }
{
    // What the diagrams and the netlist keep is known from here on.
    let _rows = diagrams.len();
    let _nets = net.nets();
    if !marks[place] {
        return Ok(());
    }
    let driven = net.node_net(place);
    match node_row(alloc, diagrams, net, place, rows) {
        Ok(row) => {
            rows[driven.number as usize] = row;
            Ok(())
        }
        Err(e) => Err(e),
    }
}

/// Puts the rows of the nets of marked nodes at their places, in an order in which these come after what they read.
pub(crate) fn node_rows(
    alloc: Global,
    diagrams: &mut Diagrams,
    net: &Netlist,
    order: &[usize],
    marks: &[bool],
    rows: &mut [u32],
) -> Result<(), BuildError>
    requires inputs { diagrams.old.inputs ≡ net.now.circuit.inputs }
    requires within { All (λ place. place < length net.now.circuit.nodes) order.now }
    requires marks { length marks.now ≡ length net.now.circuit.nodes }
    requires reads { ReadsMarked net.now.circuit marks.now order.now }
    requires sized { length rows.old ≡ nets net.now.circuit }
    requires inside { All (λ row. row < length diagrams.old.rows) rows.old }
    requires stand { InputsStand diagrams.old net.now.circuit rows.old }
    ensures sized { length rows.new ≡ length rows.old }
    ensures inside { All (λ row. row < length diagrams.new.rows) rows.new }
    ensures grown { Grows diagrams.old diagrams.new }
    ensures added { (v : List Bool → List Bool) → AreValuations net.now.circuit v → AreAdded diagrams.old diagrams.new (flat_map (node_functions net.now.circuit v) (filter (bit marks.now) order.now)) }
    ensures built { (v : List Bool → List Bool) → AreValuations net.now.circuit v → OnOk result (AreBuilt diagrams.new (flat_map (node_functions net.now.circuit v) (filter (bit marks.now) order.now))) }
    ensures stand { (v : List Bool → List Bool) → AreValuations net.now.circuit v → OnOk result (NetsStand diagrams.new net.now.circuit v marks.now order.now (length order.now) rows.new) }
    ensures short { IsErrOf result BuildError.Spent → (v : List Bool → List Bool) → AreValuations net.now.circuit v → AreShortOf diagrams.old diagrams.new (flat_map (node_functions net.now.circuit v) (filter (bit marks.now) order.now)) }
{
    let _rows = diagrams.len();
    for i in 0..order.len() {
        match add_node(alloc, diagrams, net, marks, order[i], rows) {
            Ok(()) => {}
            Err(e) => return Err(e),
        }
    }
    Ok(())
}
