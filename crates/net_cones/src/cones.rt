//! Cones: the nodes that some nets depend on.
ghost use Rattle.std.specs.Prelude.{◌≡◌, ◌+◌, ◌<◌, false, length, replicate, All, IfOk};
ghost use Rattle.fault_secure.specs.Circuit.{nets, node};
ghost use Rattle.tsc_net.specs.PlanView.{net_numbers};
ghost use Rattle.net_cones.specs.Cones.{MarksCone, marked, IsCone};
ghost use Rattle.net_cones.specs.ConeMarks.{cone_marks, cone_of};
ghost use Rattle.net_cones.specs.Marks.{mark_driver, mark_drivers, marked_pins};

use std::alloc::{AllocError, Global};
use tsc_io::Items;
use tsc_net::{NetId, Netlist, PlaceList};

/// A mark for each node of `net`, in text order: whether some net of `roots` depends on it. Latches aren't crossed.
///
/// # Errors
///
/// Want of memory.
pub fn cone_marks(alloc: Global, net: &Netlist, roots: &[NetId]) -> Result<Vec<bool>, AllocError>
    requires nets { All (λ root. root.number < nets net.now.circuit) roots.now }
    ensures marks { IfOk result (λ marks. MarksCone net.now.circuit (net_numbers roots.now) marks.items) }
    ensures computed { IfOk result (λ marks. marks.items ≡ cone_marks net.now.circuit (net_numbers roots.now)) }
{
    let mut marks = vec![in alloc; false; net.nodes()]?;
    mark_cone(net, roots, &mut marks);
    Ok(marks)
}

/// Marks the nodes that some net of `roots` depends on: backward along the evaluation order.
fn mark_cone(net: &Netlist, roots: &[NetId], marks: &mut [bool])
    requires nets { All (λ root. root.number < nets net.now.circuit) roots.now }
    requires clear { marks.old ≡ replicate (length net.now.circuit.nodes) false }
    ensures marks { MarksCone net.now.circuit (net_numbers roots.now) marks.new }
    ensures computed { marks.new ≡ cone_marks net.now.circuit (net_numbers roots.now) }
{
    let first = net.nets() - net.nodes();
    mark_drivers(marks, first, roots);
    let order = net.order();
    let mut left = order.len();
    while left > 0 {
        left -= 1;
        mark_pins(net, first, order[left], marks);
    }
}

/// Marks the drivers of the pins of a node that is marked.
fn mark_pins(net: &Netlist, first: usize, place: usize, marks: &mut [bool])
    requires first { first ≡ net.now.circuit.inputs + length net.now.circuit.latches }
    requires place { place < length net.now.circuit.nodes }
    requires sized { length marks.old ≡ length net.now.circuit.nodes }
    ensures marked { marks.new ≡ marked_pins first place (node net.now.circuit place).reads marks.old }
{
    // What the netlist keeps is known from here on.
    let _nets = net.nets();
    let reads = net.node_reads(place);
    if marks[place] {
        mark_drivers(marks, first, reads);
    }
}

/// Marks the nodes that drive these nets; the node at place 0 drives the net `first`.
fn mark_drivers(marks: &mut [bool], first: usize, list: &[NetId])
    requires within { All (λ net. net.number < first + length marks.old) list.now }
    ensures marked { marks.new ≡ mark_drivers first (net_numbers list.now) marks.old }
{
    for net in list {
        mark_driver(marks, first, net.number as usize);
    }
}

/// Marks the node that drives the net, if a node does.
fn mark_driver(marks: &mut [bool], first: usize, net: usize)
    requires within { net < first + length marks.old }
    ensures marked { marks.new ≡ mark_driver first net marks.old }
{
    if net >= first {
        marks[net - first] = true;
    }
}

/// The places that are marked, rising.
///
/// # Errors
///
/// Want of memory.
pub fn places_of(alloc: Global, marks: &[bool]) -> Result<Vec<usize>, AllocError>
    ensures places { IfOk result (λ places. places.items ≡ marked marks.now) }
{
    let mut places = Vec::new(alloc);
    for (place, mark) in marks.iter().enumerate() {
        if *mark {
            places.push(place)?;
        }
    }
    Ok(places)
}

/// The places of the nodes that some of the nets depends on, rising.
///
/// # Errors
///
/// Want of memory.
pub fn cone_places(alloc: Global, net: &Netlist, roots: &[NetId]) -> Result<PlaceList, AllocError>
    requires nets { All (λ root. root.number < nets net.now.circuit) roots.now }
    ensures cone { IfOk result (IsCone net.now.circuit (net_numbers roots.now)) }
    ensures computed { IfOk result (λ places. places ≡ cone_of net.now.circuit (net_numbers roots.now)) }
{
    let marks = cone_marks(alloc, net, roots)?;
    let places = places_of(alloc, &marks)?;
    Items::from_slice(alloc, &places)
}
