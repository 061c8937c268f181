//! The checks of groups over some nets, pushed to a netlist by numbers.
ghost use Rattle.std.specs.Prelude.{◌≡◌, ◌+◌, ◌<◌, ◌^◌, [], ◌∷◌, map, length, slice_index, All, IfOk, OnOk};
ghost use Rattle.tsc_cover.specs.Gates.{not_cover, xor_cover};
ghost use Rattle.fault_secure.specs.Circuit.{gate, nets};
ghost use Rattle.fault_secure.specs.CodePlan.{concat_places};
ghost use Rattle.parity_code.specs.GroupChecks.{group_check_nets};
ghost use Rattle.twin_synth.specs.Numbered.{more_nodes};
ghost use Rattle.twin_synth.specs.Checks.{parity_over, checks_over};

use crate::numbered::{Numbered, NumberedNode};
use std::alloc::{AllocError, Global};
use tsc_cover::{Cover, not_cover, xor_cover};
use tsc_io::Items;
use tsc_net::PlaceList;

/// Pushes the check of each group of places of a list of nets: the chain of exclusive ors over these nets, and its negation.
///
/// # Errors
///
/// Want of memory.
pub fn push_checks(
    alloc: Global,
    shown: &[usize],
    groups: &[PlaceList],
    numbered: &mut Numbered,
) -> Result<(), AllocError>
    requires filled { All (λ group. 0 < length group) groups.now }
    requires within { All (All (λ place. place < length shown.now)) groups.now }
    requires room { nets numbered.old.circuit + length (concat_places groups.now) < 2 ^ 32 }
    ensures pushed { OnOk result (numbered.new ≡ more_nodes numbered.old (checks_over numbered.old shown.now groups.now)) }
{
    for group in groups {
        push_check(alloc, shown, group.as_slice(), numbered)?;
    }
    Ok(())
}

/// Pushes the check of one group.
fn push_check(
    alloc: Global,
    shown: &[usize],
    group: &[usize],
    numbered: &mut Numbered,
) -> Result<(), AllocError>
    requires filled { 0 < length group.now }
    requires within { All (λ place. place < length shown.now) group.now }
    requires room { nets numbered.old.circuit + length group.now < 2 ^ 32 }
    ensures pushed { OnOk result (numbered.new ≡ more_nodes numbered.old (parity_over numbered.old (map (slice_index shown.now) group.now))) }
{
    let list = nets_at(alloc, shown, group)?;
    push_parity(alloc, list.as_slice(), numbered)
}

/// The nets at some places of a list.
fn nets_at(alloc: Global, shown: &[usize], places: &[usize]) -> Result<PlaceList, AllocError>
    requires within { All (λ place. place < length shown.now) places.now }
    ensures nets { IfOk result (λ list. list ≡ map (slice_index shown.now) places.now) }
{
    let mut list = Items::new(alloc);
    for place in places {
        list.push(shown[*place])?;
    }
    Ok(list)
}

/// Pushes the chain of exclusive ors over some nets, from the left, and its negation.
fn push_parity(alloc: Global, list: &[usize], numbered: &mut Numbered) -> Result<(), AllocError>
    requires filled { 0 < length list.now }
    requires room { nets numbered.old.circuit + length list.now < 2 ^ 32 }
    ensures pushed { OnOk result (numbered.new ≡ more_nodes numbered.old (parity_over numbered.old list.now)) }
{
    let mut made = list[0];
    for index in 1..list.len() {
        made = push_gate(alloc, &[made, list[index]], xor_cover(alloc)?, numbered)?;
    }
    push_gate(alloc, &[made], not_cover(alloc)?, numbered)?;
    Ok(())
}

/// Pushes a gate over some nets, and answers its net.
fn push_gate(
    alloc: Global,
    reads: &[usize],
    cover: Cover,
    numbered: &mut Numbered,
) -> Result<usize, AllocError>
    requires few { nets numbered.old.circuit < 2 ^ 32 }
    ensures pushed { OnOk result (numbered.new ≡ more_nodes numbered.old (gate cover reads.now ∷ [])) }
    ensures net { IfOk result (λ net. net ≡ nets numbered.old.circuit) }
{
    let net = numbered.inputs() + numbered.latches() + numbered.nodes();
    let reads = Items::from_slice(alloc, reads)?;
    numbered.push_node(NumberedNode::new(reads, cover))?;
    Ok(net)
}

/// The nets of the checks: the last of each group's nodes, of which the first group's begin at the node place `base`. The first node of all
/// drives the net `first`.
///
/// # Errors
///
/// Want of memory.
pub fn check_nets(
    alloc: Global,
    first: usize,
    groups: &[PlaceList],
    base: usize,
) -> Result<PlaceList, AllocError>
    requires filled { All (λ group. 0 < length group) groups.now }
    requires room { first + (base + length (concat_places groups.now)) < 2 ^ 32 }
    ensures nets { IfOk result (λ nets. nets ≡ group_check_nets first groups.now base) }
{
    let mut nets = Items::new(alloc);
    let mut end = base;
    for group in groups {
        end += group.len();
        nets.push(first + (end - 1))?;
    }
    Ok(nets)
}
