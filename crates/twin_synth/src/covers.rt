//! Latches and covers of a source, over other nets, pushed to a netlist by numbers.
ghost use Rattle.std.specs.Prelude.{◌≡◌, ◌<◌, [], ◌∷◌, map, length, slice_index, All, IfOk, OnOk};
ghost use Rattle.fault_secure.specs.Circuit.{latch, node, nets};
ghost use Rattle.tsc_net.specs.PlanView.{net_numbers};
ghost use Rattle.twin_synth.specs.Numbered.{more_latches, more_nodes};
ghost use Rattle.twin_synth.specs.Pushed.{latch_over, latches_over, node_over, nodes_over};

use crate::numbered::{Numbered, NumberedLatch, NumberedNode};
use std::alloc::{AllocError, Global};
use tsc_io::Items;
use tsc_net::{NetId, Netlist, PlaceList};

/// Pushes the latches of a source at some places; `numbers` has the net that is to stand for each net.
///
/// # Errors
///
/// Want of memory.
pub fn push_latches(
    source: &Netlist,
    numbers: &[usize],
    places: &[usize],
    numbered: &mut Numbered,
) -> Result<(), AllocError>
    requires sized { length numbers.now ≡ nets source.now.circuit }
    requires within { All (λ place. place < length source.now.circuit.latches) places.now }
    ensures pushed { OnOk result (numbered.new ≡ more_latches numbered.old (latches_over source.now.circuit numbers.now places.now)) }
{
    for place in places {
        push_latch(source, numbers, *place, numbered)?;
    }
    Ok(())
}

/// Pushes the latch of a source at a place.
fn push_latch(
    source: &Netlist,
    numbers: &[usize],
    place: usize,
    numbered: &mut Numbered,
) -> Result<(), AllocError>
    requires sized { length numbers.now ≡ nets source.now.circuit }
    requires within { place < length source.now.circuit.latches }
    ensures pushed { OnOk result (numbered.new ≡ more_latches numbered.old (latch_over numbers.now (latch source.now.circuit place) ∷ [])) }
{
    // What the source keeps is known from here on.
    let _nets = source.nets();
    let latch = source.latch(place);
    let reads = numbers[latch.reads.number as usize];
    numbered.push_latch(NumberedLatch::new(reads, latch.init))
}

/// Pushes the covers of a source at some places; `numbers` has the net that is to stand for each net.
///
/// # Errors
///
/// Want of memory.
pub fn push_covers(
    alloc: Global,
    source: &Netlist,
    numbers: &[usize],
    places: &[usize],
    numbered: &mut Numbered,
) -> Result<(), AllocError>
    requires sized { length numbers.now ≡ nets source.now.circuit }
    requires within { All (λ place. place < length source.now.circuit.nodes) places.now }
    ensures pushed { OnOk result (numbered.new ≡ more_nodes numbered.old (nodes_over source.now.circuit numbers.now places.now)) }
{
    for place in places {
        push_cover(alloc, source, numbers, *place, numbered)?;
    }
    Ok(())
}

/// Pushes the cover of a source at a place.
fn push_cover(
    alloc: Global,
    source: &Netlist,
    numbers: &[usize],
    place: usize,
    numbered: &mut Numbered,
) -> Result<(), AllocError>
    requires sized { length numbers.now ≡ nets source.now.circuit }
    requires within { place < length source.now.circuit.nodes }
    ensures pushed { OnOk result (numbered.new ≡ more_nodes numbered.old (node_over numbers.now (node source.now.circuit place) ∷ [])) }
{
    // What the source keeps is known from here on.
    let _nets = source.nets();
    let reads = numbers_of(alloc, numbers, source.node_reads(place))?;
    let cover = source.node_cover(place).copy_of()?;
    numbered.push_node(NumberedNode::new(reads, cover))
}

/// The nets that are to stand for some nets.
pub fn numbers_of(alloc: Global, numbers: &[usize], nets: &[NetId]) -> Result<PlaceList, AllocError>
    requires within { All (λ net. net.number < length numbers.now) nets.now }
    ensures numbers { IfOk result (λ list. list ≡ map (slice_index numbers.now) (net_numbers nets.now)) }
{
    let mut list = Items::new(alloc);
    for net in nets {
        list.push(numbers[net.number as usize])?;
    }
    Ok(list)
}
