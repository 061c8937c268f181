//! The evaluation order of nodes, or the ring that keeps them from one.
ghost use Rattle.std.specs.Prelude.{◌≡◌, ℕ, Bool, ◌+◌, ◌<◌, ◌≤◌, ◌==◌, ◌||◌, false, true, length, IfOk, OnOk, All, slice_index, []};
ghost use Rattle.tsc_net.specs.Order.{evaluation_order, has_place, ReadsWithin};
ghost use Rattle.tsc_net.specs.PlanView.{net_numbers};
ghost use Rattle.tsc_net.specs.inner.OrderFound.{IsFound};
ghost use Rattle.tsc_net.specs.inner.OrderSearch.{nets_of, fans_over, is_passed, IsSearch, MarksOf};
ghost use Rattle.tsc_bits.specs.Lists.{list_at};
ghost use Rattle.fault_secure.specs.Circuit.{bit};

use crate::ids::NetId;
use crate::node_list::NodeList;
use crate::ring::ring;
use crate::waiters::Waiters;
use std::alloc::{AllocError, Global};
use std::collections::BTreeSet;

/// What was found: the places of all nodes in their order, or those of the ring.
#[derive(Drop)]
pub enum Found {
    /// The places of all nodes, each behind those that it reads.
    Order(Vec<usize>),
    /// The places of the nodes of a ring.
    Ring(Vec<usize>),
}

/// How far the search is with the nodes that aren't listed.
#[derive(Drop)]
struct Search {
    /// For each node, at how many pins, from the left, nothing is waited for.
    stops: Vec<usize>,
    /// Those that wait, by the node that they wait on.
    waiters: Waiters,
    /// The nodes that wait for nothing.
    ready: BTreeSet<usize>,
}

/// The evaluation order of nodes, of which the first drives the net `first_node`, or the ring where there is none.
pub(crate) fn evaluation_order(
    alloc: Global,
    nodes: &NodeList,
    first_node: usize,
) -> Result<Found, AllocError>
    requires within { ReadsWithin (fans_over first_node (nets_of nodes.now)) }
    ensures found { IfOk result (IsFound (fans_over first_node (nets_of nodes.now))) }
{
    let mut is_listed = vec![in alloc; false; nodes.len()]?;
    let listed = list_nodes(alloc, nodes, first_node, &mut is_listed)?;
    if listed.len() == nodes.len() {
        Ok(Found::Order(listed))
    } else {
        Ok(Found::Ring(ring(alloc, nodes, first_node, &is_listed)?))
    }
}

/// Lists the nodes that have a place in the order, and marks them.
fn list_nodes(
    alloc: Global,
    nodes: &NodeList,
    first_node: usize,
    is_listed: &mut [bool],
) -> Result<Vec<usize>, AllocError>
    requires within { ReadsWithin (fans_over first_node (nets_of nodes.now)) }
    requires unmarked { MarksOf (fans_over first_node (nets_of nodes.now)) is_listed.old [] }
    ensures listed { IfOk result (λ listed. listed.items ≡ evaluation_order (fans_over first_node (nets_of nodes.now))) }
    ensures marked { OnOk result (MarksOf (fans_over first_node (nets_of nodes.now)) is_listed.new (evaluation_order (fans_over first_node (nets_of nodes.now)))) }
{
    let mut search = Search::new(alloc, nodes.len())?;
    search.begin(nodes, first_node, is_listed)?;
    let mut listed = Vec::new(alloc);
    while let Some(node) = search.ready.pop_first() {
        is_listed[node] = true;
        listed.push(node)?;
        let woken = search.waiters.take(alloc, node);
        search.look_again(nodes, first_node, is_listed, woken.as_slice())?;
    }
    Ok(listed)
}

impl Search {
    /// Nothing looked at yet, for this number of nodes.
    fn new(alloc: Global, nodes: usize) -> Result<Search, AllocError>
        ensures stops { IfOk result (λ search. length search.stops.items ≡ nodes) }
        ensures unread { IfOk result (λ search. (j : ℕ) → slice_index search.stops.items j ≡ 0) }
        ensures waiters { IfOk result (λ search. length search.waiters ≡ nodes) }
        ensures alone { IfOk result (λ search. (j : ℕ) → list_at search.waiters j ≡ []) }
        ensures ready { IfOk result (λ search. search.ready.keys ≡ []) }
    {
        Ok(Search {
            stops: zeros(alloc, nodes)?,
            waiters: Waiters::new(alloc, nodes)?,
            ready: BTreeSet::new(alloc),
        })
    }

    /// Looks at each node for the first time.
    fn begin(
        &mut self,
        nodes: &NodeList,
        first_node: usize,
        is_listed: &[bool],
    ) -> Result<(), AllocError>
        requires within { ReadsWithin (fans_over first_node (nets_of nodes.now)) }
        requires unlisted { (j : ℕ) → bit is_listed.now j ≡ false }
        requires search { IsSearch first_node (nets_of nodes.now) is_listed.now self.old.stops.items self.old.waiters self.old.ready.keys (λ j. true) }
        ensures search { OnOk result (IsSearch first_node (nets_of nodes.now) is_listed.now self.new.stops.items self.new.waiters self.new.ready.keys (λ j. false)) }
    {
        for node in 0..nodes.len() {
            self.look(nodes, first_node, is_listed, node)?;
        }
        Ok(())
    }

    /// Looks again at nodes whose wait is over.
    fn look_again(
        &mut self,
        nodes: &NodeList,
        first_node: usize,
        is_listed: &[bool],
        woken: &[usize],
    ) -> Result<(), AllocError>
        requires within { ReadsWithin (fans_over first_node (nets_of nodes.now)) }
        requires woken { All (λ j. j < length nodes.now) woken.now }
        requires unlisted { All (λ j. bit is_listed.now j ≡ false) woken.now }
        requires search { IsSearch first_node (nets_of nodes.now) is_listed.now self.old.stops.items self.old.waiters self.old.ready.keys (has_place woken.now) }
        ensures search { OnOk result (IsSearch first_node (nets_of nodes.now) is_listed.now self.new.stops.items self.new.waiters self.new.ready.keys (λ j. false)) }
    {
        for node in woken {
            self.look(nodes, first_node, is_listed, *node)?;
        }
        Ok(())
    }

    /// Puts a node that isn't listed among the ready ones, or has it wait on the next one that it reads and isn't listed.
    fn look(
        &mut self,
        nodes: &NodeList,
        first_node: usize,
        is_listed: &[bool],
        node: usize,
    ) -> Result<(), AllocError>
        requires within { ReadsWithin (fans_over first_node (nets_of nodes.now)) }
        requires node { node < length nodes.now }
        requires unlisted { bit is_listed.now node ≡ false }
        requires marks_sized { length is_listed.now ≡ length nodes.now }
        requires stops_sized { length self.old.stops.items ≡ length nodes.now }
        requires waiters_sized { length self.old.waiters ≡ length nodes.now }
        ensures search { (pending : ℕ → Bool) → IsSearch first_node (nets_of nodes.now) is_listed.now self.old.stops.items self.old.waiters self.old.ready.keys (λ j. (node == j) || pending j)
            → OnOk result (IsSearch first_node (nets_of nodes.now) is_listed.now self.new.stops.items self.new.waiters self.new.ready.keys pending) }
    {
        let reads = nodes.reads(node);
        let stop = first_unlisted(reads, first_node, is_listed, self.stops[node]);
        self.stops[node] = stop;
        if stop < reads.len() {
            self.waiters
                .add(reads[stop].number as usize - first_node, node)?;
        } else {
            self.ready.insert(node)?;
        }
        Ok(())
    }
}

/// As many zeros.
pub(crate) fn zeros(alloc: Global, count: usize) -> Result<Vec<usize>, AllocError>
    ensures count { IfOk result (λ zeros. length zeros.items ≡ count) }
    ensures zero { IfOk result (λ zeros. (j : ℕ) → slice_index zeros.items j ≡ 0) }
{
    vec![in alloc; 0; count]
}

/// The first pin from `from` on that reads the net of a node that isn't listed, or no pin.
pub(crate) fn first_unlisted(
    reads: &[NetId],
    first_node: usize,
    is_listed: &[bool],
    from: usize,
) -> usize
    requires within { All (λ net. net < first_node + length is_listed.now) (net_numbers reads.now) }
    ensures after { from ≤ result }
    ensures passed { (pin : ℕ) → from ≤ pin → pin < result → pin < length reads.now → is_passed first_node is_listed.now (slice_index (net_numbers reads.now) pin) ≡ true }
    ensures stopped { result < length reads.now → is_passed first_node is_listed.now (slice_index (net_numbers reads.now) result) ≡ false }
{
    let mut at = from;
    while at < reads.len() && is_passed(reads[at], first_node, is_listed) {
        at += 1;
    }
    at
}

/// Whether nothing is waited for at a net: no node drives it, or a listed one.
fn is_passed(net: NetId, first_node: usize, is_listed: &[bool]) -> bool
    requires within { net.number < first_node + length is_listed.now }
    ensures passed { result ≡ is_passed first_node is_listed.now net.number }
{
    let number = net.number as usize;
    number < first_node || is_listed[number - first_node]
}
