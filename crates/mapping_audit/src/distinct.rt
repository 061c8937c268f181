//! The distinct pins of a cover.
ghost use Rattle.std.specs.Prelude.{◌≡◌, ◌<◌, ◌^◌, ◌++◌, ◌∷◌, [], if◌then◌else◌, length, map, slice_index, All, IfOk, OnOk};
ghost use Rattle.fault_secure.specs.Circuit.{nets};
ghost use Rattle.tsc_net.specs.Order.{has_place};
ghost use Rattle.tsc_net.specs.PlanView.{net_numbers};
ghost use Rattle.mapping_reading.specs.ReadMapping.{new_onto, block_pins};
ghost use Rattle.mapping_reading.specs.Pins.{at_of};
ghost use Rattle.mapping_reading.specs.MovedNets.{HaveMoved};
ghost use Rattle.mapping_audit.specs.Values.{moved_pins};

use std::alloc::{AllocError, Global};
use tsc_net::{NetId, Netlist};

/// The distinct nets to which those at the pins of a node's cover went, in the order of their first place.
///
/// # Errors
///
/// Want of memory.
pub fn distinct_pins(
    alloc: Global,
    plain: &Netlist,
    mapped: &Netlist,
    moved: &[usize],
    node: usize,
) -> Result<Vec<usize>, AllocError>
    requires moved { length moved.now ≡ nets plain.now.circuit }
    requires node { node < length plain.now.circuit.nodes }
    ensures pins { IfOk result (λ pins. pins.items ≡ block_pins plain.now.circuit (at_of mapped.now.circuit moved.now) node) }
{
    // What the netlists keep is known from here on.
    let _nets = plain.nets();
    let _mapped = mapped.nets();
    distinct_moved(alloc, moved, plain.node_reads(node))
}

/// The distinct nets to which these went.
fn distinct_moved(alloc: Global, moved: &[usize], reads: &[NetId]) -> Result<Vec<usize>, AllocError>
    requires within { All (λ read. read.number < length moved.now) reads.now }
    ensures nets { IfOk result (λ nets. nets.items ≡ new_onto [] (map (slice_index moved.now) (net_numbers reads.now))) }
{
    let mut nets = Vec::new(alloc);
    for read in reads {
        add_net(&mut nets, moved[read.number as usize])?;
    }
    Ok(nets)
}

/// Where the nets at the pins of a node's cover went, pin by pin.
///
/// # Errors
///
/// Want of memory.
pub fn moved_reads(
    alloc: Global,
    plain: &Netlist,
    mapped: &Netlist,
    moved: &[usize],
    node: usize,
) -> Result<Vec<NetId>, AllocError>
    requires moved { HaveMoved plain.now.circuit mapped.now.circuit moved.now }
    requires node { node < length plain.now.circuit.nodes }
    ensures nets { IfOk result (λ nets. net_numbers nets.items ≡ moved_pins plain.now.circuit (at_of mapped.now.circuit moved.now) node) }
{
    // What the netlists keep is known from here on.
    let _nets = plain.nets();
    let _mapped = mapped.nets();
    nets_moved(alloc, moved, plain.node_reads(node))
}

/// Where these nets went, one by one.
fn nets_moved(alloc: Global, moved: &[usize], reads: &[NetId]) -> Result<Vec<NetId>, AllocError>
    requires within { All (λ read. read.number < length moved.now) reads.now }
    requires few { All (λ net. net < 2 ^ 32) moved.now }
    ensures nets { IfOk result (λ nets. net_numbers nets.items ≡ map (slice_index moved.now) (net_numbers reads.now)) }
{
    let mut nets = Vec::new(alloc);
    for read in reads {
        let number = moved[read.number as usize] as u32;
        nets.push(NetId { number })?;
    }
    Ok(nets)
}

/// Adds a net at the end, where it isn't there.
fn add_net(nets: &mut Vec<usize>, net: usize) -> Result<(), AllocError>
    ensures added { OnOk result (nets.new.items ≡ (if has_place nets.old.items net then nets.old.items else nets.old.items ++ net ∷ [])) }
{
    if !has_net(nets, net) {
        nets.push(net)?;
    }
    Ok(())
}

/// Whether a net stands in a list.
fn has_net(nets: &[usize], net: usize) -> bool
    ensures has { result ≡ has_place nets.now net }
{
    nets.iter().any(|other| *other == net)
}
