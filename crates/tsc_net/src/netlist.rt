//! Checked netlists.
ghost use Rattle.std.specs.Prelude.{◌≡◌, ◌<◌, ◌^◌, length};
ghost use Rattle.std.specs.Option.{option_map};
ghost use Rattle.fault_secure.specs.Circuit.{latch, node, latch_net, node_net, nets};
ghost use Rattle.fault_secure.specs.Settle.{Acyclic};
ghost use Rattle.tsc_net.specs.Names.{text_at, find_text};
ghost use Rattle.tsc_net.specs.NetlistOf.{NetlistOf, IsBuilt};
ghost use Rattle.tsc_net.specs.Order.{fan_ins, evaluation_order, IsOrder};
ghost use Rattle.tsc_net.specs.PlanView.{net_numbers};

use crate::ids::{NetId, Nets};
use crate::node_list::NodeList;
use crate::texts::Texts;
use std::marker::Model;
use tsc_cover::Cover;
use tsc_io::{Bytes, TextKey};

/// A latch, as it is kept.
#[derive(Clone, Copy)]
pub struct Latch {
    /// The net that it reads.
    pub reads: NetId,
    /// The bit that it holds first.
    pub init: bool,
}

/// A latch: the net that it reads, the net that it gives, and the bit that it holds first.
#[derive(Clone, Copy, Debug)]
pub struct LatchView {
    /// The net at its input, whose bit it holds from the next step on.
    pub reads: NetId,
    /// The net at its output.
    pub out: NetId,
    /// The bit that it holds at the first step.
    pub init: bool,
}

/// A checked netlist: nothing is driven twice, everything read is driven, there is an output and no ring.
#[derive(Drop)]
pub struct Netlist {
    pub(crate) inputs: usize,
    pub(crate) latches: Vec<Latch>,
    pub(crate) nodes: NodeList,
    pub(crate) outputs: Nets,
    pub(crate) names: Texts,
    pub(crate) key: TextKey,
    pub(crate) model: Option<Bytes>,
    pub(crate) order: Vec<usize>,
}

impl Model for Netlist {
    ghost use Rattle.tsc_net.specs.NetlistOf.{NetlistOf};

    ghost Value = { NetlistOf };

    ghost use Rattle.tsc_net.specs.NetlistView.{netlist_as, KeepsOrder};

    ghost view = { netlist_as };

    ghost invariant = { KeepsOrder };
}

impl Netlist {
    /// The number of inputs.
    pub fn inputs(&self) -> usize
        ensures count { result ≡ self.now.circuit.inputs }
        ensures few { nets self.now.circuit < 2 ^ 32 }
    {
        self.inputs
    }

    /// The outputs.
    pub fn outputs(&self) -> &[NetId]
        ensures outputs { net_numbers result.now ≡ self.now.circuit.outputs }
    {
        self.outputs.as_slice()
    }

    /// The number of latches.
    pub fn latches(&self) -> usize
        ensures count { result ≡ length self.now.circuit.latches }
    {
        self.latches.len()
    }

    /// The latch at `place`, counted from 0.
    pub fn latch(&self, place: usize) -> LatchView
        requires within { place < length self.now.circuit.latches }
        ensures reads { result.reads.number ≡ (latch self.now.circuit place).reads }
        ensures out { result.out.number ≡ latch_net self.now.circuit place }
        ensures init { result.init ≡ (latch self.now.circuit place).init }
    {
        let latch = self.latches[place];
        LatchView {
            reads: latch.reads,
            out: NetId {
                number: (self.inputs + place) as u32,
            },
            init: latch.init,
        }
    }

    /// The number of nodes.
    pub fn nodes(&self) -> usize
        ensures count { result ≡ length self.now.circuit.nodes }
    {
        self.nodes.len()
    }

    /// The number of nets.
    pub fn nets(&self) -> usize
        ensures count { result ≡ nets self.now.circuit }
        ensures checked { IsBuilt self.now }
    {
        self.names.len()
    }

    /// The net that the node at `place` drives.
    pub fn node_net(&self, place: usize) -> NetId
        requires within { place < length self.now.circuit.nodes }
        ensures net { result.number ≡ node_net self.now.circuit place }
    {
        NetId {
            number: (self.inputs + self.latches.len() + place) as u32,
        }
    }

    /// The nets at the pins of the node at `place`.
    pub fn node_reads(&self, place: usize) -> &[NetId]
        requires within { place < length self.now.circuit.nodes }
        ensures reads { net_numbers result.now ≡ (node self.now.circuit place).reads }
    {
        self.nodes.reads(place)
    }

    /// The cover of the node at `place`, which has a pin a net that the node reads.
    pub fn node_cover(&self, place: usize) -> &Cover
        requires within { place < length self.now.circuit.nodes }
        ensures cover { result.now ≡ (node self.now.circuit place).cover }
    {
        self.nodes.cover(place)
    }

    /// The name of a net.
    pub fn name(&self, net: NetId) -> &[u8]
        requires net { net.number < nets self.now.circuit }
        ensures name { result.now ≡ text_at self.now.names net.number }
    {
        self.names.text(net.number as usize)
    }

    /// The net with this name, if there is one. It goes through the names: who looks up many makes a table of them (`NameTable::of`).
    pub fn net(&self, name: &[u8]) -> Option<NetId>
        ensures net { option_map (λ net. net.number) result ≡ find_text self.now.names name.now }
    {
        let place = self.names.find(name)?;
        Some(NetId {
            number: place as u32,
        })
    }

    /// The key of the text whose names the netlist has, for what is built over it.
    pub fn key(&self) -> TextKey {
        self.key
    }

    /// The name of the model.
    pub fn model_name(&self) -> &[u8]
        ensures name { result.now ≡ self.now.model }
    {
        match &self.model {
            Some(model) => model.as_slice(),
            None => b"model",
        }
    }

    /// The places of the nodes in their evaluation order: each after the nodes that it reads.
    pub fn order(&self) -> &[usize]
        ensures order { result.now ≡ evaluation_order (fan_ins self.now.circuit) }
        ensures whole { IsOrder (fan_ins self.now.circuit) result.now }
        ensures acyclic { Acyclic self.now.circuit }
    {
        self.order.as_slice()
    }
}
