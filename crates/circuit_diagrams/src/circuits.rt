//! The rows of some nets of a netlist.
ghost use Rattle.std.specs.Prelude.{◌≡◌, ℕ, ◌<◌, ◌++◌, Bool, List, length, map, All, IfOk, OnOk, IsErrOf};
ghost use Rattle.std.specs.List.{range_with_len, flat_map, filter};
ghost use Rattle.fault_secure.specs.Circuit.{nets, bit};
ghost use Rattle.tsc_net.specs.PlanView.{net_numbers};
ghost use Rattle.tsc_net.specs.Order.{fan_ins, evaluation_order};
ghost use Rattle.net_cones.specs.Cones.{MarksCone};
ghost use Rattle.net_cones.specs.ConeMarks.{cone_marks};
ghost use Rattle.diagrams.specs.Building.{input_bit};
ghost use Rattle.cover_diagrams.specs.Covering.{Grows, StandForPins};
ghost use Rattle.circuit_diagrams.specs.Stated.{AreValuations, net_function, node_functions, circuit_functions};
ghost use Rattle.circuit_diagrams.specs.Steps.{AreBuilt, AreAdded, AreShortOf};
ghost use Rattle.circuit_diagrams.specs.NetRows.{NetsStand, ReadsMarked};

use crate::inputs::input_rows;
use crate::nodes::{node_rows, rows_of};
use diagrams::{BuildError, Diagrams};
use net_cones::cone_marks;
use std::alloc::Global;
use tsc_net::{NetId, Netlist};

/// Puts the rows of the inputs and of the nets of marked nodes at their places.
fn fill_rows(
    alloc: Global,
    diagrams: &mut Diagrams,
    net: &Netlist,
    marks: &[bool],
    rows: &mut [u32],
) -> Result<(), BuildError>
    requires inputs { diagrams.old.inputs ≡ net.now.circuit.inputs }
    requires marks { length marks.now ≡ length net.now.circuit.nodes }
    requires reads { ReadsMarked net.now.circuit marks.now (evaluation_order (fan_ins net.now.circuit)) }
    requires sized { length rows.old ≡ nets net.now.circuit }
    requires inside { All (λ row. row < length diagrams.old.rows) rows.old }
    ensures sized { length rows.new ≡ length rows.old }
    ensures inside { All (λ row. row < length diagrams.new.rows) rows.new }
    ensures grown { Grows diagrams.old diagrams.new }
    ensures added { (v : List Bool → List Bool) → AreValuations net.now.circuit v → AreAdded diagrams.old diagrams.new (map input_bit (range_with_len 0 net.now.circuit.inputs) ++ flat_map (node_functions net.now.circuit v) (filter (bit marks.now) (evaluation_order (fan_ins net.now.circuit)))) }
    ensures built { (v : List Bool → List Bool) → AreValuations net.now.circuit v → OnOk result (AreBuilt diagrams.new (map input_bit (range_with_len 0 net.now.circuit.inputs) ++ flat_map (node_functions net.now.circuit v) (filter (bit marks.now) (evaluation_order (fan_ins net.now.circuit))))) }
    ensures stand { (v : List Bool → List Bool) → AreValuations net.now.circuit v → OnOk result (NetsStand diagrams.new net.now.circuit v marks.now (evaluation_order (fan_ins net.now.circuit)) (length (evaluation_order (fan_ins net.now.circuit))) rows.new) }
    ensures short { IsErrOf result BuildError.Spent → (v : List Bool → List Bool) → AreValuations net.now.circuit v → AreShortOf diagrams.old diagrams.new (map input_bit (range_with_len 0 net.now.circuit.inputs) ++ flat_map (node_functions net.now.circuit v) (filter (bit marks.now) (evaluation_order (fan_ins net.now.circuit)))) }
{
    // What the diagrams and the netlist keep is known from here on.
    let _rows = diagrams.len();
    let _nets = net.nets();
    let order = net.order();
    match input_rows(diagrams, net.inputs(), rows) {
        Ok(()) => match node_rows(alloc, diagrams, net, order, marks, rows) {
            Ok(()) => Ok(()),
            Err(e) => Err(e),
        },
        Err(e) => Err(e),
    }
}

/// The rows of all nets, of which those of the inputs and of the nets of marked nodes count.
fn filled_rows(
    alloc: Global,
    diagrams: &mut Diagrams,
    net: &Netlist,
    marks: &[bool],
) -> Result<Vec<u32>, BuildError>
    requires inputs { diagrams.old.inputs ≡ net.now.circuit.inputs }
    requires marks { length marks.now ≡ length net.now.circuit.nodes }
    requires reads { ReadsMarked net.now.circuit marks.now (evaluation_order (fan_ins net.now.circuit)) }
    ensures grown { Grows diagrams.old diagrams.new }
    ensures sized { IfOk result (λ rows. length rows.items ≡ nets net.now.circuit) }
    ensures inside { IfOk result (λ rows. All (λ row. row < length diagrams.new.rows) rows.items) }
    ensures added { (v : List Bool → List Bool) → AreValuations net.now.circuit v → AreAdded diagrams.old diagrams.new (map input_bit (range_with_len 0 net.now.circuit.inputs) ++ flat_map (node_functions net.now.circuit v) (filter (bit marks.now) (evaluation_order (fan_ins net.now.circuit)))) }
    ensures built { (v : List Bool → List Bool) → AreValuations net.now.circuit v → OnOk result (AreBuilt diagrams.new (map input_bit (range_with_len 0 net.now.circuit.inputs) ++ flat_map (node_functions net.now.circuit v) (filter (bit marks.now) (evaluation_order (fan_ins net.now.circuit))))) }
    ensures stand { (v : List Bool → List Bool) → AreValuations net.now.circuit v → IfOk result (λ rows. NetsStand diagrams.new net.now.circuit v marks.now (evaluation_order (fan_ins net.now.circuit)) (length (evaluation_order (fan_ins net.now.circuit))) rows.items) }
    ensures short { IsErrOf result BuildError.Spent → (v : List Bool → List Bool) → AreValuations net.now.circuit v → AreShortOf diagrams.old diagrams.new (map input_bit (range_with_len 0 net.now.circuit.inputs) ++ flat_map (node_functions net.now.circuit v) (filter (bit marks.now) (evaluation_order (fan_ins net.now.circuit)))) }
{
    // What the diagrams and the netlist keep is known from here on.
    let _rows = diagrams.len();
    let _nets = net.nets();
    match vec![in alloc; 0; net.nets()] {
        Ok(mut rows) => match fill_rows(alloc, diagrams, net, marks, &mut rows) {
            Ok(()) => Ok(rows),
            Err(e) => Err(e),
        },
        Err(e) => Err(BuildError::Memory(e)),
    }
}

/// The rows of some nets, of whose cone there are the marks.
fn marked_rows(
    alloc: Global,
    diagrams: &mut Diagrams,
    net: &Netlist,
    roots: &[NetId],
    marks: &[bool],
) -> Result<Vec<u32>, BuildError>
    requires inputs { diagrams.old.inputs ≡ net.now.circuit.inputs }
    requires latches { length net.now.circuit.latches ≡ 0 }
    requires roots { All (λ root. root.number < nets net.now.circuit) roots.now }
    requires cone { MarksCone net.now.circuit (net_numbers roots.now) marks.now }
    requires computed { marks.now ≡ cone_marks net.now.circuit (net_numbers roots.now) }
    ensures grown { Grows diagrams.old diagrams.new }
    ensures inside { IfOk result (λ rows. All (λ row. row < length diagrams.new.rows) rows.items) }
    ensures sized { IfOk result (λ rows. length rows.items ≡ length roots.now) }
    ensures added { (v : List Bool → List Bool) → AreValuations net.now.circuit v → AreAdded diagrams.old diagrams.new (circuit_functions net.now.circuit v (net_numbers roots.now)) }
    ensures built { (v : List Bool → List Bool) → AreValuations net.now.circuit v → OnOk result (AreBuilt diagrams.new (circuit_functions net.now.circuit v (net_numbers roots.now))) }
    ensures stand { (v : List Bool → List Bool) → AreValuations net.now.circuit v → IfOk result (λ rows. StandForPins diagrams.new (map (net_function v) (net_numbers roots.now)) rows.items) }
    ensures short { IsErrOf result BuildError.Spent → (v : List Bool → List Bool) → AreValuations net.now.circuit v → AreShortOf diagrams.old diagrams.new (circuit_functions net.now.circuit v (net_numbers roots.now)) }
{
    // What the netlist keeps is known from here on.
    let _nets = net.nets();
    let order = net.order();
    let _places = order.len();
    match filled_rows(alloc, diagrams, net, marks) {
        Ok(rows) => match rows_of(alloc, &rows, roots) {
            Ok(found) => Ok(found),
            Err(e) => Err(BuildError::Memory(e)),
        },
        Err(e) => Err(e),
    }
}

/// The rows of some nets of a netlist without latches: its inputs and the nodes that these nets depend on are walked in their
/// evaluation order, and all functions that these state are built.
///
/// # Errors
///
/// All rows are used, and none of them stands for some cofactor of a stated function; want of memory.
pub fn circuit_rows(
    alloc: Global,
    diagrams: &mut Diagrams,
    net: &Netlist,
    roots: &[NetId],
) -> Result<Vec<u32>, BuildError>
    requires inputs { diagrams.old.inputs ≡ net.now.circuit.inputs }
    requires latches { length net.now.circuit.latches ≡ 0 }
    requires roots { All (λ root. root.number < nets net.now.circuit) roots.now }
    ensures grown { Grows diagrams.old diagrams.new }
    ensures inside { IfOk result (λ rows. All (λ row. row < length diagrams.new.rows) rows.items) }
    ensures sized { IfOk result (λ rows. length rows.items ≡ length roots.now) }
    ensures added { (v : List Bool → List Bool) → AreValuations net.now.circuit v → AreAdded diagrams.old diagrams.new (circuit_functions net.now.circuit v (net_numbers roots.now)) }
    ensures built { (v : List Bool → List Bool) → AreValuations net.now.circuit v → OnOk result (AreBuilt diagrams.new (circuit_functions net.now.circuit v (net_numbers roots.now))) }
    ensures stand { (v : List Bool → List Bool) → AreValuations net.now.circuit v → IfOk result (λ rows. StandForPins diagrams.new (map (net_function v) (net_numbers roots.now)) rows.items) }
    ensures short { IsErrOf result BuildError.Spent → (v : List Bool → List Bool) → AreValuations net.now.circuit v → AreShortOf diagrams.old diagrams.new (circuit_functions net.now.circuit v (net_numbers roots.now)) }
{
    // What the diagrams and the netlist keep is known from here on.
    let _rows = diagrams.len();
    let _nets = net.nets();
    match cone_marks(alloc, net, roots) {
        Ok(marks) => marked_rows(alloc, diagrams, net, roots, &marks),
        Err(e) => Err(BuildError::Memory(e)),
    }
}
