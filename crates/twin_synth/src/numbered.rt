//! A netlist by the numbers of its nets, as it is collected.
ghost use Rattle.std.specs.Prelude.{◌≡◌, ◌<◌, [], ◌∷◌, ◌++◌, length, OnOk};
ghost use Rattle.fault_secure.specs.Circuit.{latch, node};
ghost use Rattle.tsc_net.specs.Names.{text_at};
ghost use Rattle.twin_synth.specs.Numbered.{no_net, more_latches, more_nodes, more_outputs, more_names};

use std::alloc::{AllocError, Global};
use std::marker::Model;
use tsc_cover::Cover;
use tsc_io::{Bytes, Items};
use tsc_net::{NameTexts, PlaceList};

/// A latch by numbers.
#[derive(Drop)]
pub struct NumberedLatch {
    reads: usize,
    init: bool,
}

impl Model for NumberedLatch {
    ghost use Rattle.fault_secure.specs.Circuit.{LatchOf};

    ghost Value = { LatchOf };

    ghost use Rattle.twin_synth.specs.NumberedView.{latch_in};

    ghost view = { latch_in };
}

impl NumberedLatch {
    /// The latch that reads a net and holds a bit first.
    pub fn new(reads: usize, init: bool) -> NumberedLatch
        ensures latch { result ≡ record { reads = reads; init = init } }
    {
        NumberedLatch { reads, init }
    }

    /// The net that it reads.
    pub fn reads(&self) -> usize
        ensures reads { result ≡ self.now.reads }
    {
        self.reads
    }

    /// The bit that it holds first.
    pub fn init(&self) -> bool
        ensures init { result ≡ self.now.init }
    {
        self.init
    }
}

/// A node by numbers.
#[derive(Drop)]
pub struct NumberedNode {
    reads: PlaceList,
    cover: Cover,
}

impl Model for NumberedNode {
    ghost use Rattle.fault_secure.specs.Circuit.{NodeOf};

    ghost Value = { NodeOf };

    ghost use Rattle.twin_synth.specs.NumberedView.{node_in};

    ghost view = { node_in };
}

impl NumberedNode {
    /// The node with this cover over the nets at its pins.
    pub fn new(reads: PlaceList, cover: Cover) -> NumberedNode
        ensures node { result ≡ record { reads = reads; cover = cover } }
    {
        NumberedNode { reads, cover }
    }

    /// The nets at its pins.
    pub fn reads(&self) -> &[usize]
        ensures reads { result.now ≡ self.now.reads }
    {
        self.reads.as_slice()
    }

    /// Its cover.
    pub fn cover(&self) -> &Cover
        ensures cover { result.now ≡ self.now.cover }
    {
        &self.cover
    }
}

/// A netlist by the numbers of its nets, as it is collected. Nothing of it is checked.
#[derive(Drop)]
pub struct Numbered {
    inputs: usize,
    latches: Items<NumberedLatch>,
    nodes: Items<NumberedNode>,
    outputs: PlaceList,
    names: NameTexts,
    model: Bytes,
}

impl Model for Numbered {
    ghost use Rattle.tsc_net.specs.NetlistOf.{NetlistOf};

    ghost Value = { NetlistOf };

    ghost use Rattle.twin_synth.specs.NumberedView.{numbered_in};

    ghost view = { numbered_in };
}

impl Numbered {
    /// So many inputs, the name of the model, and nothing else yet. It takes no memory.
    pub fn new(alloc: Global, inputs: usize, model: Bytes) -> Numbered
        ensures empty { result ≡ no_net inputs model }
    {
        Numbered {
            inputs,
            latches: Items::new(alloc),
            nodes: Items::new(alloc),
            outputs: Items::new(alloc),
            names: Items::new(alloc),
            model,
        }
    }

    /// Adds a latch.
    ///
    /// # Errors
    ///
    /// Want of memory.
    pub fn push_latch(&mut self, latch: NumberedLatch) -> Result<(), AllocError>
        ensures pushed { OnOk result (self.new ≡ more_latches self.old (latch ∷ [])) }
    {
        self.latches.push(latch)
    }

    /// Adds a node.
    ///
    /// # Errors
    ///
    /// Want of memory.
    pub fn push_node(&mut self, node: NumberedNode) -> Result<(), AllocError>
        ensures pushed { OnOk result (self.new ≡ more_nodes self.old (node ∷ [])) }
    {
        self.nodes.push(node)
    }

    /// Adds an output.
    ///
    /// # Errors
    ///
    /// Want of memory.
    pub fn push_output(&mut self, net: usize) -> Result<(), AllocError>
        ensures pushed { OnOk result (self.new ≡ more_outputs self.old (net ∷ [])) }
    {
        self.outputs.push(net)
    }

    /// Names the next net.
    ///
    /// # Errors
    ///
    /// Want of memory.
    pub fn push_name(&mut self, name: Bytes) -> Result<(), AllocError>
        ensures pushed { OnOk result (self.new ≡ more_names self.old (name ∷ [])) }
    {
        self.names.push(name)
    }

    /// The number of inputs.
    pub fn inputs(&self) -> usize
        ensures count { result ≡ self.now.circuit.inputs }
    {
        self.inputs
    }

    /// The number of latches.
    pub fn latches(&self) -> usize
        ensures count { result ≡ length self.now.circuit.latches }
    {
        self.latches.len()
    }

    /// The latch at `place`, counted from 0.
    pub fn latch(&self, place: usize) -> &NumberedLatch
        requires within { place < length self.now.circuit.latches }
        ensures latch { result.now ≡ latch self.now.circuit place }
    {
        self.latches.get(place)
    }

    /// The number of nodes.
    pub fn nodes(&self) -> usize
        ensures count { result ≡ length self.now.circuit.nodes }
    {
        self.nodes.len()
    }

    /// The node at `place`, counted from 0.
    pub fn node(&self, place: usize) -> &NumberedNode
        requires within { place < length self.now.circuit.nodes }
        ensures node { result.now ≡ node self.now.circuit place }
    {
        self.nodes.get(place)
    }

    /// The outputs.
    pub fn outputs(&self) -> &[usize]
        ensures outputs { result.now ≡ self.now.circuit.outputs }
    {
        self.outputs.as_slice()
    }

    /// The number of names.
    pub fn names(&self) -> usize
        ensures count { result ≡ length self.now.names }
    {
        self.names.len()
    }

    /// The name of the net `place`.
    pub fn name(&self, place: usize) -> &[u8]
        requires within { place < length self.now.names }
        ensures name { result.now ≡ text_at self.now.names place }
    {
        self.names.get(place).as_slice()
    }

    /// The name of the model.
    pub fn model(&self) -> &[u8]
        ensures name { result.now ≡ self.now.model }
    {
        self.model.as_slice()
    }
}
