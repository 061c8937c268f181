//! From parts to a checked netlist.
ghost use Rattle.std.specs.Prelude.{◌≡◌, ◌+◌, ◌<◌, ◌^◌, [], ◌∷◌, ◌++◌, None, map, length, All, IfOk, IfErr, OnOk, true};
ghost use Rattle.tsc_net.specs.Names.{has_text, place_of_text, text_at};
ghost use Rattle.tsc_net.specs.NetlistOf.{named_of, netlist_of, drivers, numbered_latch, numbered_node};
ghost use Rattle.tsc_net.specs.NetFault.{fault_of, first_repeat, first_missing, reads_of, no_outputs, IsRefusedFor};
ghost use Rattle.tsc_net.specs.NetlistView.{latch_as};
ghost use Rattle.tsc_net.specs.Order.{fan_ins, evaluation_order, has_whole_order, ReadsWithin};
ghost use Rattle.tsc_net.specs.PartsView.{text_of, texts_of, latch_of, node_of, IsName};
ghost use Rattle.tsc_net.specs.PlanView.{net_numbers};
ghost use Rattle.tsc_net.specs.inner.Build.{IsTwice, IsUndriven, IsMissing, latch_reads, node_reads, IsDriven, IsClosedNetlist, IsRing, IsRingOf, IsCycle, IsUnread, IsUndrivenOrNone, fans_from};
ghost use Rattle.tsc_net.specs.inner.OrderFound.{IsFound};
ghost use Rattle.tsc_net.specs.inner.BuildView.{unordered_as};
ghost use Rattle.tsc_net.specs.inner.NetNames.{KeepsMarks};

use crate::ids::{Name, NameList, NameTexts, NetId, Nets};
use crate::indexed::IndexedNetlist;
use crate::net_error::NetError;
use crate::net_names::{Driven, NetNames, marks_of};
use crate::netlist::{Latch, Netlist};
use crate::node_list::NodeList;
use crate::order::{Found, evaluation_order};
use crate::parts::{LatchPart, NodePart, Parts};
use crate::texts::Texts;
use smallvec::SmallVec;
use std::alloc::{AllocError, Global};
use tsc_io::{Bytes, Items};

/// A netlist before its nodes are ordered.
#[derive(Drop)]
struct Unordered {
    inputs: usize,
    latches: Vec<Latch>,
    nodes: NodeList,
    outputs: Nets,
    names: NetNames,
    model: Option<Bytes>,
}

impl Parts {
    /// The netlist that the parts state, or their first fault.
    ///
    /// # Errors
    ///
    /// In this order: a name driven twice, a name shown twice, a name that nothing drives, no output, a ring of nodes.
    pub fn build(self, alloc: Global) -> Result<Netlist, NetError>
        ensures same { IfOk result (λ net. named_of net ≡ self.named) }
        ensures exact { IfOk result (λ net. net ≡ netlist_of self.named) }
        ensures sound { OnOk result (fault_of self.named ≡ None) }
        ensures refused { IfErr result (IsRefusedFor self.named) }
    {
        match self.build_indexed(alloc) {
            Ok(indexed) => Ok(indexed.into_netlist()),
            Err(error) => Err(error),
        }
    }

    /// The same netlist with the table of its names, for who looks up many.
    ///
    /// # Errors
    ///
    /// Those of `build`.
    #[tactic(none)]
    pub fn build_indexed(self, alloc: Global) -> Result<IndexedNetlist, NetError>
        ensures same { IfOk result (λ net. named_of net ≡ self.named) }
        ensures exact { IfOk result (λ net. net ≡ netlist_of self.named) }
        ensures sound { OnOk result (fault_of self.named ≡ None) }
        ensures refused { IfErr result (IsRefusedFor self.named) }
    {
        let net = numbered(alloc, self)?;
        ordered(alloc, net)
    }
}

/// The netlist that the parts state before its nodes are ordered, or their first fault but a ring.
#[tactic(none)]
fn numbered(alloc: Global, parts: Parts) -> Result<Unordered, NetError>
    ensures net { IfOk result (λ net. unordered_as net ≡ netlist_of parts.named) }
    ensures driven { OnOk result (IsDriven parts.named) }
    ensures refused { IfErr result (IsRefusedFor parts.named) }
{
    let driven = driven_table(alloc, &parts)?;
    check_outputs(alloc, &parts)?;
    inside(alloc, parts, driven)
}

/// The netlist before its nodes are ordered, over the table of what is driven.
#[tactic(none)]
fn inside(alloc: Global, parts: Parts, driven: Driven) -> Result<Unordered, NetError>
    requires marks { KeepsMarks parts.names driven }
    requires table { texts_of parts.names driven.nets ≡ drivers parts.named }
    ensures net { IfOk result (λ net. unordered_as net ≡ netlist_of parts.named) }
    ensures driven { OnOk result (first_missing (drivers parts.named) (reads_of parts.named) ≡ None) }
    ensures some_output { OnOk result (no_outputs parts.named.outputs ≡ None) }
    ensures refused { IfErr result (IsUnread parts.named) }
{
    let Parts {
        names,
        model,
        inputs,
        outputs,
        latches,
        nodes,
        ..
    } = parts;
    let names = NetNames::new(names, driven);
    let nodes = nodes_of(alloc, &names, nodes)?;
    let latches = latches_of(alloc, &names, &latches)?;
    let outputs = outputs_of(alloc, &names, outputs.as_slice())?;
    Ok(Unordered {
        inputs: inputs.len(),
        latches,
        nodes,
        outputs,
        names,
        model,
    })
}

/// What is driven, or what is driven twice.
#[tactic(none)]
fn driven_table(alloc: Global, parts: &Parts) -> Result<Driven, NetError>
    ensures marks { IfOk result (KeepsMarks parts.now.names) }
    ensures table { IfOk result (λ driven. texts_of parts.now.names driven.nets ≡ drivers parts.now.named) }
    ensures once { OnOk result (first_repeat (drivers parts.now.named) ≡ None) }
    ensures few { OnOk result (length (drivers parts.now.named) < 2 ^ 32) }
    ensures pins { OnOk result (All (λ n. length n.reads ≡ n.cover.width) parts.now.named.nodes) }
    ensures twice { IfErr result (IsTwice (drivers parts.now.named)) }
{
    let nets = driven_names(alloc, parts.inputs.as_slice(), &parts.latches, &parts.nodes).map_err(
        NetError::Memory,
    )?;
    let marks = marks_of(alloc, &parts.names, nets.as_slice())?;
    Ok(Driven { nets, marks })
}

/// Refuses an output that is shown twice.
fn check_outputs(alloc: Global, parts: &Parts) -> Result<(), NetError>
    ensures once { OnOk result (first_repeat parts.now.named.outputs ≡ None) }
    ensures twice { IfErr result (IsTwice parts.now.named.outputs) }
{
    marks_of(alloc, &parts.names, parts.outputs.as_slice())?;
    Ok(())
}

/// The nets of the outputs, of which there is one at least.
fn outputs_of(alloc: Global, names: &NetNames, outputs: &[Name]) -> Result<Nets, NetError>
    requires names { All (IsName names.now.names) outputs.now }
    ensures outputs { IfOk result (λ nets. net_numbers nets ≡ map (place_of_text names.now.nets) (texts_of names.now.names outputs.now)) }
    ensures driven { OnOk result (first_missing names.now.nets (texts_of names.now.names outputs.now) ≡ None) }
    ensures some_output { OnOk result (no_outputs (texts_of names.now.names outputs.now) ≡ None) }
    ensures refused { IfErr result (IsUndrivenOrNone names.now.nets (texts_of names.now.names outputs.now)) }
{
    if outputs.is_empty() {
        return Err(NetError::NoOutputs);
    }
    nets_of(alloc, names, outputs)
}

/// The netlist with the order of its nodes, or the ring that keeps them from one.
#[tactic(none)]
fn ordered(alloc: Global, net: Unordered) -> Result<IndexedNetlist, NetError>
    requires sound { IsClosedNetlist (unordered_as net) }
    ensures same { IfOk result (λ ordered. ordered ≡ unordered_as net) }
    ensures whole { OnOk result (has_whole_order (fan_ins (unordered_as net).circuit) ≡ true) }
    ensures refused { IfErr result (IsRing (unordered_as net)) }
{
    let first_node = net.inputs + net.latches.len();
    let order = order_of(alloc, &net.nodes, &net.names, first_node)?;
    let names = texts_of_nets(alloc, &net.names).map_err(NetError::Memory)?;
    Ok(indexed(net, names, order))
}

/// The netlist with this order of its nodes and these names, and the table of its names.
#[tactic(none)]
fn indexed(net: Unordered, names: Texts, order: Vec<usize>) -> IndexedNetlist
    requires sound { IsClosedNetlist (unordered_as net) }
    requires names { names ≡ net.names.nets }
    requires order { order.items ≡ evaluation_order (fan_ins (unordered_as net).circuit) }
    requires whole { has_whole_order (fan_ins (unordered_as net).circuit) ≡ true }
    ensures same { result ≡ unordered_as net }
{
    let key = net.names.key();
    let checked = Netlist {
        inputs: net.inputs,
        latches: net.latches,
        nodes: net.nodes,
        outputs: net.outputs,
        names,
        key,
        model: net.model,
        order,
    };
    IndexedNetlist::new(checked, net.names)
}

/// The names of the nets, end to end.
fn texts_of_nets(alloc: Global, names: &NetNames) -> Result<Texts, AllocError>
    ensures texts { IfOk result (λ texts. texts ≡ names.now.nets) }
{
    let mut texts = Texts::new(alloc);
    for net in 0..names.len() {
        texts.push(names.text(net))?;
    }
    Ok(texts)
}

/// The order of nodes, of which the first drives the net `first_node`, or their ring.
fn order_of(
    alloc: Global,
    nodes: &NodeList,
    names: &NetNames,
    first_node: usize,
) -> Result<Vec<usize>, NetError>
    requires within { ReadsWithin (fans_from first_node (nodes.now)) }
    requires named { first_node + length nodes.now ≡ length names.now.nets }
    requires few { length names.now.nets < 2 ^ 32 }
    ensures order { IfOk result (λ order. order.items ≡ evaluation_order (fans_from first_node (nodes.now))) }
    ensures whole { OnOk result (has_whole_order (fans_from first_node (nodes.now)) ≡ true) }
    ensures refused { IfErr result (IsRingOf (fans_from first_node (nodes.now)) names.now.nets first_node) }
{
    match found(alloc, nodes, first_node) {
        Err(error) => Err(NetError::Memory(error)),
        Ok(Found::Ring(places)) => Err(cycle(alloc, names, first_node, &places)),
        Ok(Found::Order(order)) => Ok(order),
    }
}

/// The order of nodes, of which the first drives the net `first_node`, or their ring, by places. Its clauses speak of the nodes as a circuit has them.
fn found(alloc: Global, nodes: &NodeList, first_node: usize) -> Result<Found, AllocError>
    requires within { ReadsWithin (fans_from first_node (nodes.now)) }
    ensures found { IfOk result (IsFound (fans_from first_node (nodes.now))) }
{
    evaluation_order(alloc, nodes, first_node)
}

/// The ring of nodes, by the names of their nets.
fn cycle(alloc: Global, names: &NetNames, first_node: usize, places: &[usize]) -> NetError
    requires within { All (λ place. first_node + place < length names.now.nets) places.now }
    requires few { length names.now.nets < 2 ^ 32 }
    ensures cycle { IsCycle (map (λ place. text_at names.now.nets (first_node + place)) places.now) result }
{
    match ring_names(alloc, names, first_node, places) {
        Ok(nets) => NetError::Cycle { nets },
        Err(error) => NetError::Memory(error),
    }
}

/// What is driven: the inputs, what the latches give, what the nodes drive.
fn driven_names(
    alloc: Global,
    inputs: &[Name],
    latches: &[LatchPart],
    nodes: &[NodePart],
) -> Result<NameList, AllocError>
    ensures list { IfOk result (λ list. list ≡ (inputs.now ++ map (λ l. l.out) latches.now) ++ map (λ n. n.out) nodes.now) }
{
    let mut driven = Items::from_slice(alloc, inputs)?;
    push_latch_outs(&mut driven, latches)?;
    push_node_outs(&mut driven, nodes)?;
    Ok(driven)
}

/// Adds what latches give.
fn push_latch_outs(driven: &mut NameList, latches: &[LatchPart]) -> Result<(), AllocError>
    ensures ok { OnOk result (driven.new ≡ driven.old ++ map (λ l. l.out) latches.now) }
{
    for latch in latches {
        driven.push(latch.out)?;
    }
    Ok(())
}

/// Adds what nodes drive.
fn push_node_outs(driven: &mut NameList, nodes: &[NodePart]) -> Result<(), AllocError>
    ensures ok { OnOk result (driven.new ≡ driven.old ++ map (λ n. n.out) nodes.now) }
{
    for node in nodes {
        driven.push(node.out)?;
    }
    Ok(())
}

/// The net that is driven by this name.
fn net_of(alloc: Global, names: &NetNames, name: Name) -> Result<NetId, NetError>
    requires name { IsName names.now.names name }
    ensures net { IfOk result (λ net. net.number ≡ place_of_text names.now.nets (text_of names.now.names name)) }
    ensures driven { OnOk result (has_text names.now.nets (text_of names.now.names name) ≡ true) }
    ensures refused { IfErr result (IsMissing names.now.nets (text_of names.now.names name)) }
{
    let number = name.number as usize;
    match names.net_at(number) {
        Some(net) => Ok(net),
        None => {
            let net = Items::from_slice(alloc, names.name(number)).map_err(NetError::Memory)?;
            Err(NetError::Undriven { net })
        }
    }
}

/// The nets that are driven by these names.
fn nets_of(alloc: Global, names: &NetNames, list: &[Name]) -> Result<Nets, NetError>
    requires names { All (IsName names.now.names) list.now }
    ensures nets { IfOk result (λ nets. net_numbers nets ≡ map (place_of_text names.now.nets) (texts_of names.now.names list.now)) }
    ensures driven { OnOk result (first_missing names.now.nets (texts_of names.now.names list.now) ≡ None) }
    ensures undriven { IfErr result (IsUndriven names.now.nets (texts_of names.now.names list.now)) }
{
    let mut nets = Items::new(alloc);
    for name in list {
        let net = net_of(alloc, names, *name)?;
        nets.push(net).map_err(NetError::Memory)?;
    }
    Ok(nets)
}

/// The nets at the pins of a node that are driven by these names.
fn pin_nets(alloc: Global, names: &NetNames, list: &[Name]) -> Result<SmallVec<NetId, 4>, NetError>
    requires names { All (IsName names.now.names) list.now }
    ensures nets { IfOk result (λ nets. net_numbers nets.items ≡ map (place_of_text names.now.nets) (texts_of names.now.names list.now)) }
    ensures driven { OnOk result (first_missing names.now.nets (texts_of names.now.names list.now) ≡ None) }
    ensures undriven { IfErr result (IsUndriven names.now.nets (texts_of names.now.names list.now)) }
{
    let mut nets = SmallVec::new(alloc);
    for name in list {
        let net = net_of(alloc, names, *name)?;
        nets.push(net)
            .map_err(|failed| NetError::Memory(failed.into()))?;
    }
    Ok(nets)
}

/// Adds a node, with the nets that its pins read.
fn add_node(
    alloc: Global,
    names: &NetNames,
    part: NodePart,
    nodes: &mut NodeList,
) -> Result<(), NetError>
    requires names { All (IsName names.now.names) part.reads.items }
    ensures node { OnOk result (nodes.new ≡ nodes.old ++ numbered_node names.now.nets (node_of names.now.names part) ∷ []) }
    ensures driven { OnOk result (first_missing names.now.nets (texts_of names.now.names part.reads.items) ≡ None) }
    ensures undriven { IfErr result (IsUndriven names.now.nets (texts_of names.now.names part.reads.items)) }
{
    let NodePart { reads, cover, .. } = part;
    let reads = pin_nets(alloc, names, &reads)?;
    nodes.push(&reads, cover).map_err(NetError::Memory)
}

/// How many pins nodes have, for the room that they take.
fn pin_count(parts: &[NodePart]) -> usize {
    let mut count = 0usize;
    for part in parts {
        count = count.saturating_add(part.reads.len());
    }
    count
}

/// The nodes, with the nets that their pins read.
fn nodes_of(alloc: Global, names: &NetNames, parts: Vec<NodePart>) -> Result<NodeList, NetError>
    requires names { All (λ part. All (IsName names.now.names) part.reads.items) parts.items }
    ensures nodes { IfOk result (λ nodes. nodes ≡ map (numbered_node names.now.nets) (map (node_of names.now.names) parts.items)) }
    ensures driven { OnOk result (first_missing names.now.nets (node_reads (map (node_of names.now.names) parts.items)) ≡ None) }
    ensures undriven { IfErr result (IsUndriven names.now.nets (node_reads (map (node_of names.now.names) parts.items))) }
{
    let mut nodes = NodeList::with_room(alloc, parts.len(), pin_count(&parts)).map_err(
        NetError::Memory,
    )?;
    for part in parts {
        add_node(alloc, names, part, &mut nodes)?;
    }
    Ok(nodes)
}

/// The latches, with the nets that they read.
fn latches_of(alloc: Global, names: &NetNames, parts: &[LatchPart]) -> Result<Vec<Latch>, NetError>
    requires names { All (λ part. IsName names.now.names part.reads) parts.now }
    ensures latches { IfOk result (λ latches. map latch_as latches.items ≡ map (numbered_latch names.now.nets) (map (latch_of names.now.names) parts.now)) }
    ensures driven { OnOk result (first_missing names.now.nets (latch_reads (map (latch_of names.now.names) parts.now)) ≡ None) }
    ensures undriven { IfErr result (IsUndriven names.now.nets (latch_reads (map (latch_of names.now.names) parts.now))) }
{
    let mut latches = Vec::new(alloc);
    for part in parts {
        let reads = net_of(alloc, names, part.reads)?;
        let init = part.init;
        latches
            .push(Latch { reads, init })
            .map_err(|failed| NetError::Memory(failed.into()))?;
    }
    Ok(latches)
}

/// The names of the nets that nodes drive.
fn ring_names(
    alloc: Global,
    names: &NetNames,
    first_node: usize,
    places: &[usize],
) -> Result<NameTexts, AllocError>
    requires within { All (λ place. first_node + place < length names.now.nets) places.now }
    requires few { length names.now.nets < 2 ^ 32 }
    ensures names { IfOk result (λ texts. texts ≡ map (λ place. text_at names.now.nets (first_node + place)) places.now) }
{
    let mut texts = Items::new(alloc);
    for place in places {
        let text = Bytes::from_slice(alloc, names.text(first_node + *place))?;
        texts.push(text)?;
    }
    Ok(texts)
}
