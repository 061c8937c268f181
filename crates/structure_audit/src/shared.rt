//! Whether two lines of a parity group share a node, and the first that do.
ghost use Rattle.std.specs.Prelude.{◌≡◌, ◌<◌, ◌≤◌, length, slice_index, All, IfOk};
ghost use Rattle.fault_secure.specs.declared.code.Code.TheVariants.{Parity};
ghost use Rattle.fault_secure.specs.CodePlan.{CodePlan, IsPlanOf, monitored};
ghost use Rattle.tsc_net.specs.PlanView.{net_numbers};
ghost use Rattle.structure_audit.specs.StructureReason.{places_of};
ghost use Rattle.structure_audit.specs.Lines.{AreLineMasks, SharesBit};
ghost use Rattle.structure_audit.specs.Answers.{IsNodeAnswer, IsGroupAnswer, IsCodeAnswer};

use crate::lines::line_masks;
use crate::pairs::{Pair, first_common, first_pair};
use crate::reason::StructureReason;
use std::alloc::{AllocError, Global};
use tsc_io::Items;
use tsc_net::{NetId, Netlist, PlaceList, Plan};

/// Two lines of the word, and the first node that both depend on.
#[derive(Clone, Copy)]
pub struct SharedNode {
    /// The net of the earlier line.
    pub first: NetId,
    /// The net of the later line.
    pub second: NetId,
    /// The net that the node drives.
    pub node: NetId,
}

/// Why the function doesn't suit parity: there is a latch, or two lines of a group share a node; none where it suits.
///
/// # Errors
///
/// Want of memory.
pub fn parity_reason(
    alloc: Global,
    net: &Netlist,
    plan: &Plan,
    word: &[NetId],
) -> Result<Option<StructureReason>, AllocError>
    requires plan { IsPlanOf net.now.circuit plan.now }
    requires parity { plan.now.code ≡ Parity }
    requires word { net_numbers word.now ≡ monitored net.now.circuit plan.now }
    ensures answer { IfOk result (IsCodeAnswer net.now.circuit plan.now) }
{
    // What the plan and the netlist keep is known from here on.
    let _states = plan.states.len();
    let _nets = net.nets();
    if net.latches() > 0 {
        return Ok(Some(StructureReason::Latched));
    }
    let masks = line_masks(alloc, net, word)?;
    first_shared(alloc, net, plan, word, &masks)
}

/// The first group of which two lines share a node, with the first such lines and node, if there is one.
///
/// # Errors
///
/// Want of memory.
fn first_shared(
    alloc: Global,
    net: &Netlist,
    plan: &Plan,
    word: &[NetId],
    masks: &[u128],
) -> Result<Option<StructureReason>, AllocError>
    requires plan { IsPlanOf net.now.circuit plan.now }
    requires parity { plan.now.code ≡ Parity }
    requires latchless { length net.now.circuit.latches ≡ 0 }
    requires word { net_numbers word.now ≡ monitored net.now.circuit plan.now }
    requires masks { AreLineMasks net.now.circuit (monitored net.now.circuit plan.now) masks.now }
    requires few { length word.now ≤ 128 }
    ensures answer { IfOk result (IsCodeAnswer net.now.circuit plan.now) }
{
    for group in 0..plan.groups.len() {
        if let Some(shared) = shared_in_group(alloc, net, plan, word, masks, group)? {
            return Ok(Some(StructureReason::Shares {
                group,
                first: shared.first,
                second: shared.second,
                node: shared.node,
            }));
        }
    }
    Ok(None)
}

/// The first two lines of a group that share a node, with the first such node, if there are such lines.
///
/// # Errors
///
/// Want of memory.
fn shared_in_group(
    alloc: Global,
    net: &Netlist,
    plan: &Plan,
    word: &[NetId],
    masks: &[u128],
    group: usize,
) -> Result<Option<SharedNode>, AllocError>
    requires plan { IsPlanOf net.now.circuit plan.now }
    requires parity { plan.now.code ≡ Parity }
    requires word { net_numbers word.now ≡ monitored net.now.circuit plan.now }
    requires masks { AreLineMasks net.now.circuit (monitored net.now.circuit plan.now) masks.now }
    requires few { length word.now ≤ 128 }
    requires group { group < length plan.now.groups }
    ensures answer { IfOk result (IsGroupAnswer net.now.circuit plan.now group) }
{
    // What the plan keeps is known from here on.
    let _states = plan.states.len();
    let held = line_places(alloc, plan, group)?;
    let places = held.as_slice();
    if let Some(pair) = first_pair(masks, places) {
        return Ok(Some(shared_node(net, word, masks, places, pair)));
    }
    Ok(None)
}

/// The places of the word that a group has: its outputs', and then its check's.
///
/// # Errors
///
/// Want of memory.
fn line_places(alloc: Global, plan: &Plan, group: usize) -> Result<PlaceList, AllocError>
    requires group { group < length plan.now.groups }
    requires few { length plan.now.groups ≤ 64 }
    ensures places { IfOk result (λ places. places ≡ places_of plan.now group) }
{
    // What the plan keeps is known from here on.
    let _states = plan.states.len();
    let outputs = plan.groups.get(group).places.as_slice();
    let mut places = Items::from_slice(alloc, outputs)?;
    places.push(plan.outputs + group)?;
    Ok(places)
}

/// The nets at two of the places of the word, and the first node that both depend on.
fn shared_node(
    net: &Netlist,
    word: &[NetId],
    masks: &[u128],
    places: &[usize],
    pair: Pair,
) -> SharedNode
    requires masks { length masks.now ≡ length net.now.circuit.nodes }
    requires within { All (λ place. place < length word.now) places.now }
    requires few { length word.now ≤ 128 }
    requires shared { SharesBit masks.now places.now pair.first pair.second }
    ensures answer { (P : CodePlan) → net_numbers word.now ≡ monitored net.now.circuit P → AreLineMasks net.now.circuit (monitored net.now.circuit P) masks.now
        → IsNodeAnswer net.now.circuit P (slice_index places.now pair.first) (slice_index places.now pair.second) result }
{
    let first = places[pair.first];
    let second = places[pair.second];
    let place = first_common(masks, first, second);
    SharedNode {
        first: word[first],
        second: word[second],
        node: net.node_net(place),
    }
}
