//! The nodes of a netlist: the nets at their pins stand in one list.
ghost use Rattle.std.specs.Prelude.{◌≡◌, ◌<◌, [], ◌∷◌, ◌++◌, length, slice_index_or, IfOk, OnOk};
ghost use Rattle.fault_secure.specs.Circuit.{no_node};
ghost use Rattle.tsc_net.specs.PlanView.{net_numbers};
ghost use Rattle.tsc_net.specs.inner.NodeListView.{node_over};

use crate::ids::NetId;
use crate::spans::ListSpan;
use std::alloc::{AllocError, Global};
use std::marker::Model;
use tsc_cover::Cover;

/// A node, as it is kept.
#[derive(Drop)]
pub struct Node {
    /// Where its pins stand among those of all nodes.
    pub pins: ListSpan,
    /// What it makes of the nets there.
    pub cover: Cover,
}

/// Nodes, in text order. The nets at their pins stand one behind another in one list.
#[derive(Drop)]
pub struct NodeList {
    pins: Vec<NetId>,
    nodes: Vec<Node>,
}

impl Model for NodeList {
    ghost use Rattle.std.specs.Prelude.{List};
    ghost use Rattle.fault_secure.specs.Circuit.{NodeOf};

    ghost Value = { List NodeOf };

    ghost use Rattle.tsc_net.specs.inner.NodeListView.{nodes_in, AreWithin};

    ghost view = { nodes_in };

    ghost invariant = { AreWithin };
}

impl NodeList {
    /// No nodes yet, but room for so many with so many pins.
    ///
    /// # Errors
    ///
    /// Want of memory.
    pub fn with_room(alloc: Global, nodes: usize, pins: usize) -> Result<NodeList, AllocError>
        ensures empty { IfOk result (λ list. list ≡ []) }
    {
        let pins = Vec::with_capacity(alloc, pins)?;
        let nodes = Vec::with_capacity(alloc, nodes)?;
        Ok(NodeList { pins, nodes })
    }

    /// Adds a node at the end.
    ///
    /// # Errors
    ///
    /// Want of memory.
    pub fn push(&mut self, reads: &[NetId], cover: Cover) -> Result<(), AllocError>
        ensures ok { OnOk result (self.new ≡ self.old ++ node_over reads.now cover ∷ []) }
    {
        let start = self.pins.len();
        self.pins.extend_from_slice(reads)?;
        let end = self.pins.len();
        let pins = ListSpan { start, end };
        self.nodes.push(Node { pins, cover })?;
        Ok(())
    }

    /// The number of nodes.
    pub fn len(&self) -> usize
        ensures count { result ≡ length self.now }
    {
        self.nodes.len()
    }

    /// The nets at the pins of the node at `place`.
    pub fn reads(&self, place: usize) -> &[NetId]
        requires within { place < length self.now }
        ensures reads { net_numbers result.now ≡ (slice_index_or self.now place no_node).reads }
    {
        let span = self.nodes[place].pins;
        &self.pins[span.start..span.end]
    }

    /// The cover of the node at `place`.
    pub fn cover(&self, place: usize) -> &Cover
        requires within { place < length self.now }
        ensures cover { result.now ≡ (slice_index_or self.now place no_node).cover }
    {
        &self.nodes[place].cover
    }
}
