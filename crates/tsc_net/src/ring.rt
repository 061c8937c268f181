//! The ring of nodes that keeps them from an evaluation order.
ghost use Rattle.std.specs.Prelude.{◌≡◌, ℕ, ◌-◌, ◌<◌, ◌≤◌, false, true, length, IfOk, drop};
ghost use Rattle.tsc_net.specs.Order.{evaluation_order, has_whole_order, ring, blocker, ReadsWithin};
ghost use Rattle.tsc_net.specs.inner.OrderSearch.{nets_of, fans_over, MarksOf};
ghost use Rattle.tsc_bits.specs.Lists.{list_at};
ghost use Rattle.fault_secure.specs.Circuit.{bit};

use crate::node_list::NodeList;
use crate::order::{first_unlisted, zeros};
use std::alloc::{AllocError, Global};

/// The ring: the walk from the first node that isn't listed to the first that it reads and isn't listed, and so on.
pub(crate) fn ring(
    alloc: Global,
    nodes: &NodeList,
    first_node: usize,
    is_listed: &[bool],
) -> Result<Vec<usize>, AllocError>
    requires within { ReadsWithin (fans_over first_node (nets_of nodes.now)) }
    requires marked { MarksOf (fans_over first_node (nets_of nodes.now)) is_listed.now (evaluation_order (fans_over first_node (nets_of nodes.now))) }
    requires cut { has_whole_order (fans_over first_node (nets_of nodes.now)) ≡ false }
    ensures ring { IfOk result (λ places. places.items ≡ ring (fans_over first_node (nets_of nodes.now))) }
{
    let mut steps = zeros(alloc, nodes.len())?;
    let mut path = Vec::new(alloc);
    let mut at = first_unmarked(is_listed);
    while steps[at] == 0 {
        path.push(at)?;
        steps[at] = path.len();
        at = blocker_of(nodes, first_node, is_listed, at);
    }
    from_step(alloc, &path, steps[at])
}

/// The path from a step on, which is counted from 1.
fn from_step(alloc: Global, path: &[usize], step: usize) -> Result<Vec<usize>, AllocError>
    requires counted { 0 < step }
    requires within { step ≤ length path.now }
    ensures part { IfOk result (λ part. part.items ≡ drop (step - 1) path.now) }
{
    let start = step - 1;
    Vec::from_slice(alloc, &path[start..])
}

/// The first node that isn't listed, or as many as there are.
fn first_unmarked(is_listed: &[bool]) -> usize
    ensures within { result ≤ length is_listed.now }
    ensures passed { (j : ℕ) → j < result → bit is_listed.now j ≡ true }
    ensures unmarked { result < length is_listed.now → bit is_listed.now result ≡ false }
{
    let mut at = 0;
    while at < is_listed.len() && is_listed[at] {
        at += 1;
    }
    at
}

/// The first node that a node reads and isn't listed, or 0.
fn blocker_of(nodes: &NodeList, first_node: usize, is_listed: &[bool], node: usize) -> usize
    requires within { ReadsWithin (fans_over first_node (nets_of nodes.now)) }
    requires node { node < length nodes.now }
    requires marked { MarksOf (fans_over first_node (nets_of nodes.now)) is_listed.now (evaluation_order (fans_over first_node (nets_of nodes.now))) }
    ensures blocker { result ≡ blocker (evaluation_order (fans_over first_node (nets_of nodes.now))) (list_at (fans_over first_node (nets_of nodes.now)) node) }
    ensures within { result < length nodes.now }
{
    let reads = nodes.reads(node);
    let stop = first_unlisted(reads, first_node, is_listed, 0);
    if stop < reads.len() {
        reads[stop].number as usize - first_node
    } else {
        0
    }
}
