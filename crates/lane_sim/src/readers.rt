//! The readers of each net: the places of the evaluation order whose nodes read it.
ghost use Rattle.std.specs.Prelude.{◌≡◌, ◌==◌, ℕ, ◌+◌, ◌*◌, ◌<◌, ◌≤◌, ◌^◌, true, false, length, slice_index, IfOk, OnOk};
ghost use Rattle.fault_secure.specs.Circuit.{nets};
ghost use Rattle.tsc_net.specs.Fault.{stuck_at, stuck_at_or_none};
ghost use Rattle.fault_secure.specs.StuckAt.{StuckAt};
ghost use Rattle.tsc_net.specs.Order.{fan_ins, evaluation_order, place_in};
ghost use Rattle.tsc_net.specs.Limits.{most_nets};
ghost use Rattle.lane_sim.specs.Readers.{has, IsOnChain, AreChains, HaveReaders, AreReaders};
ghost use Rattle.lane_sim.specs.Again.{IsApart, IsAtNets, is_at};

use crate::place_set::PlaceSet;
use std::alloc::{AllocError, Global};
use std::mem::size_of;
use tsc_net::{Fault, Netlist};

/// A reader of a net.
#[derive(Clone, Copy)]
pub(crate) struct Reader {
    /// The place of the node that reads it.
    pub place: u32,
    /// One more than the place in the list of the net's next reader; 0 where there is none.
    pub next: u32,
}

// There is a reader for each pin.
const _: () = prove!(size_of::<Reader>() == 8);

/// The readers of each net in a chain of its own, and the place of each node.
#[derive(Drop)]
pub(crate) struct Readers {
    /// For each net one more than the place in the list of its first reader; 0 where there is none.
    pub heads: Vec<u32>,
    /// The readers of all nets.
    pub list: Vec<Reader>,
    /// The place of each node in the evaluation order, by the nodes' numbers.
    pub places: Vec<u32>,
}

impl Readers {
    /// The readers of a netlist's nets.
    ///
    /// # Errors
    ///
    /// Want of memory.
    pub fn of(alloc: Global, net: &Netlist) -> Result<Readers, AllocError>
        requires small { nets net.now.circuit ≤ most_nets }
        ensures readers { IfOk result (AreReaders net.now.circuit) }
    {
        let places = places_of(alloc, net)?;
        let mut heads = vec![in alloc; 0; net.nets()]?;
        let mut list = Vec::with_capacity(alloc, pins_in(net))?;
        for place in 0..net.order().len() {
            add_place(&mut heads, &mut list, net, place)?;
        }
        Ok(Readers {
            heads,
            list,
            places,
        })
    }

    /// Marks the places of a net's readers.
    pub fn mark(&self, net: usize, marked: &mut PlaceSet)
        requires net { net < length self.now.heads.items }
        requires chains { AreChains self.now.heads.items self.now.list.items (length marked.old.words.items * 64) }
        ensures marked { (place : ℕ) → IsOnChain self.now.list.items place (slice_index self.now.heads.items net) → has marked.new place ≡ true }
        ensures kept { (place : ℕ) → has marked.old place ≡ true → has marked.new place ≡ true }
        ensures room { length marked.new.words.items ≡ length marked.old.words.items }
    {
        let mut at = self.heads[net];
        while at > 0 {
            let reader = self.list[at as usize - 1];
            marked.mark(reader.place as usize);
            at = reader.next;
        }
    }

    /// Marks the places to which a fault makes a difference at once: that of the node that it is at, or those of the readers of the
    /// input or latch output. Answers a place before which there is none of them.
    pub fn mark_fault(&self, net: &Netlist, fault: Option<Fault>, marked: &mut PlaceSet) -> usize
        requires readers { AreReaders net.now.circuit self.now }
        requires fault { IsAtNets net.now.circuit (stuck_at_or_none fault) }
        requires room { length net.now.circuit.nodes ≤ length marked.old.words.items * 64 }
        ensures apart { (place : ℕ) → place < length net.now.circuit.nodes → has marked.new place ≡ false → IsApart net.now.circuit (stuck_at_or_none fault) place }
        ensures before { (place : ℕ) → place < length net.now.circuit.nodes → place < result → IsApart net.now.circuit (stuck_at_or_none fault) place }
        ensures within { result ≤ length net.now.circuit.nodes }
        ensures kept { (place : ℕ) → has marked.old place ≡ true → has marked.new place ≡ true }
        ensures room { length marked.new.words.items ≡ length marked.old.words.items }
    {
        match fault {
            Some(fault) => self.mark_site(net, site_of(fault), marked),
            None => net.nodes(),
        }
    }

    /// Marks the places to which a fault at a net makes a difference at once. Answers a place before which there is none of them.
    fn mark_site(&self, net: &Netlist, site: usize, marked: &mut PlaceSet) -> usize
        requires readers { AreReaders net.now.circuit self.now }
        requires site { site < nets net.now.circuit }
        requires room { length net.now.circuit.nodes ≤ length marked.old.words.items * 64 }
        ensures apart { (place : ℕ) → place < length net.now.circuit.nodes → has marked.new place ≡ false → IsApart net.now.circuit (StuckAt.Stem site true) place }
        ensures before { (place : ℕ) → place < length net.now.circuit.nodes → place < result → IsApart net.now.circuit (StuckAt.Stem site true) place }
        ensures within { result ≤ length net.now.circuit.nodes }
        ensures kept { (place : ℕ) → has marked.old place ≡ true → has marked.new place ≡ true }
        ensures room { length marked.new.words.items ≡ length marked.old.words.items }
    {
        // That the order is whole is known from here on.
        let _order = net.order();
        let first = net.inputs() + net.latches();
        if site < first {
            self.mark(site, marked);
            return 0;
        }
        let place = self.places[site - first] as usize;
        marked.mark(place);
        place
    }
}

/// The net that a fault is at.
fn site_of(fault: Fault) -> usize
    ensures site { (net : ℕ) → is_at (stuck_at fault) net ≡ (result == net) }
{
    match fault {
        Fault::Stem { net, value: _ } => net.number as usize,
        Fault::Pin {
            driver,
            index: _,
            value: _,
        } => driver.number as usize,
    }
}

/// How many pins the nodes have together. For room alone: no clause speaks of it, and a sum that wraps costs memory and nothing else.
fn pins_in(net: &Netlist) -> usize {
    let mut pins: usize = 0;
    for node in 0..net.nodes() {
        pins = pins.wrapping_add(net.node_reads(node).len());
    }
    pins
}

/// The place of each node in the evaluation order.
fn places_of(alloc: Global, net: &Netlist) -> Result<Vec<u32>, AllocError>
    requires small { nets net.now.circuit ≤ most_nets }
    ensures many { IfOk result (λ places. length places.items ≡ length net.now.circuit.nodes) }
    ensures places { IfOk result (λ places. (j : ℕ) → j < length net.now.circuit.nodes → slice_index places.items j ≡ place_in (evaluation_order (fan_ins net.now.circuit)) j) }
{
    let order = net.order();
    let mut places = vec![in alloc; 0; net.nodes()]?;
    for place in 0..order.len() {
        places[order[place]] = place as u32;
    }
    Ok(places)
}

/// Adds the node at a place to the readers of the nets that it reads.
fn add_place(
    heads: &mut [u32],
    list: &mut Vec<Reader>,
    net: &Netlist,
    place: usize,
) -> Result<(), AllocError>
    requires place { place < length net.now.circuit.nodes }
    requires small { nets net.now.circuit ≤ most_nets }
    requires sized { length heads.old ≡ nets net.now.circuit }
    requires few { length list.old.items ≤ place * 64 }
    requires chains { AreChains heads.old list.old.items place }
    requires readers { HaveReaders net.now.circuit heads.old list.old.items place }
    ensures sized { length heads.new ≡ nets net.now.circuit }
    ensures few { OnOk result (length list.new.items ≤ (place + 1) * 64) }
    ensures chains { OnOk result (AreChains heads.new list.new.items (place + 1)) }
    ensures readers { OnOk result (HaveReaders net.now.circuit heads.new list.new.items (place + 1)) }
{
    // What a checked netlist keeps is known from here on.
    let _nets = net.nets();
    let node = net.order()[place];
    // So is it that a cover has at most 64 pins.
    let _width = net.node_cover(node).width();
    for read in net.node_reads(node) {
        add_reader(heads, list, place as u32, read.number as usize)?;
    }
    Ok(())
}

/// Adds a place to the readers of a net.
fn add_reader(
    heads: &mut [u32],
    list: &mut Vec<Reader>,
    place: u32,
    net: usize,
) -> Result<(), AllocError>
    requires net { net < length heads.old }
    requires few { length list.old.items + 1 < 2 ^ 32 }
    requires chains { AreChains heads.old list.old.items (place + 1) }
    ensures sized { length heads.new ≡ length heads.old }
    ensures one { OnOk result (length list.new.items ≡ length list.old.items + 1) }
    ensures chains { OnOk result (AreChains heads.new list.new.items (place + 1)) }
    ensures added { OnOk result (IsOnChain list.new.items place (slice_index heads.new net)) }
    ensures stay { OnOk result ((other at : ℕ) → IsOnChain list.old.items at (slice_index heads.old other) → IsOnChain list.new.items at (slice_index heads.new other)) }
{
    let next = heads[net];
    list.push(Reader { place, next })?;
    heads[net] = list.len() as u32;
    Ok(())
}
