//! The gates of each block, in the evaluation order.
ghost use Rattle.std.specs.Prelude.{◌≡◌, ◌<◌, nat_lt, if◌then◌else◌, length, replicate, slice_index, slice_set, IfOk};
ghost use Rattle.tsc_net.specs.Order.{fan_ins, evaluation_order};
ghost use Rattle.mapping_reading.specs.ReadMapping.{members};
ghost use Rattle.mapping_audit.specs.Chains.{AreChains};

use std::alloc::{AllocError, Global};
use tsc_net::Netlist;

/// For each block its first gate, and for each gate the next one of its block; the number of gates where there is none.
#[derive(Drop)]
pub struct Chains {
    /// The first gate of each block.
    pub heads: Vec<usize>,
    /// The gate after each gate.
    pub next: Vec<usize>,
}

/// The chains of the gates of so many blocks, each in the evaluation order.
///
/// # Errors
///
/// Want of memory.
pub fn block_chains(
    alloc: Global,
    mapped: &Netlist,
    none: usize,
    blocks: &[usize],
) -> Result<Chains, AllocError>
    requires blocks { length blocks.now ≡ length mapped.now.circuit.nodes }
    ensures chains { IfOk result (λ chains. AreChains (evaluation_order (fan_ins mapped.now.circuit)) none (length mapped.now.circuit.nodes) blocks.now chains.heads.items chains.next.items) }
{
    let end = mapped.nodes();
    let mut heads = vec![in alloc; end; none]?;
    let mut next = vec![in alloc; end; end]?;
    link_all(mapped, blocks, &mut heads, &mut next);
    Ok(Chains { heads, next })
}

/// Puts each gate at the head of its block's chain, along the order backwards.
fn link_all(mapped: &Netlist, blocks: &[usize], heads: &mut [usize], next: &mut [usize])
    requires blocks { length blocks.now ≡ length mapped.now.circuit.nodes }
    requires heads { heads.old ≡ replicate (length heads.old) (length mapped.now.circuit.nodes) }
    requires next { length next.old ≡ length mapped.now.circuit.nodes }
    ensures chains { AreChains (evaluation_order (fan_ins mapped.now.circuit)) (length heads.old) (length mapped.now.circuit.nodes) blocks.now heads.new next.new }
{
    let order = mapped.order();
    let mut left = order.len();
    while left > 0 {
        left -= 1;
        link(blocks, order[left], heads, next);
    }
}

/// Puts a gate at the head of its block's chain, if it is of a block.
fn link(blocks: &[usize], gate: usize, heads: &mut [usize], next: &mut [usize])
    requires gate { gate < length blocks.now }
    requires next { length next.old ≡ length blocks.now }
    ensures next { next.new ≡ (if nat_lt (slice_index blocks.now gate) (length heads.old) then slice_set next.old gate (slice_index heads.old (slice_index blocks.now gate)) else next.old) }
    ensures heads { heads.new ≡ (if nat_lt (slice_index blocks.now gate) (length heads.old) then slice_set heads.old (slice_index blocks.now gate) gate else heads.old) }
{
    let block = blocks[gate];
    if block < heads.len() {
        next[gate] = heads[block];
        heads[block] = gate;
    }
}

/// The gates of a block, in the evaluation order.
///
/// # Errors
///
/// Want of memory.
pub fn gates_of(
    alloc: Global,
    mapped: &Netlist,
    blocks: &[usize],
    heads: &[usize],
    next: &[usize],
    block: usize,
) -> Result<Vec<usize>, AllocError>
    requires chains { AreChains (evaluation_order (fan_ins mapped.now.circuit)) (length heads.now) (length mapped.now.circuit.nodes) blocks.now heads.now next.now }
    requires block { block < length heads.now }
    ensures gates { IfOk result (λ gates. gates.items ≡ members (slice_index blocks.now) (evaluation_order (fan_ins mapped.now.circuit)) block) }
{
    let mut gates = Vec::new(alloc);
    let mut gate = heads[block];
    while gate < next.len() {
        gates.push(gate)?;
        gate = next[gate];
    }
    Ok(gates)
}
