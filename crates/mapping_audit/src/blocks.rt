//! The block of each gate: that of its own node, or the least to which its readers lead.
ghost use Rattle.std.specs.Prelude.{◌≡◌, ℕ, ◌+◌, ◌<◌, ◌≤◌, length, slice_index, All, IfOk};
ghost use Rattle.fault_secure.specs.Circuit.{node};
ghost use Rattle.tsc_net.specs.PlanView.{net_numbers};
ghost use Rattle.mapping_reading.specs.ReadMapping.{first_net};
ghost use Rattle.mapping_reading.specs.Blocks.{AreBlocks};
ghost use Rattle.mapping_audit.specs.FindingBlocks.{led_driver, led_drivers};

use std::alloc::{AllocError, Global};
use tsc_net::{NetId, Netlist};

/// The block of each gate. `none` is past all nodes: the owner of a gate that is no node's, and the block of one that leads to none.
///
/// # Errors
///
/// Want of memory.
pub fn gate_blocks(
    alloc: Global,
    mapped: &Netlist,
    owners: &[usize],
    none: usize,
) -> Result<Vec<usize>, AllocError>
    requires sized { length owners.now ≡ length mapped.now.circuit.nodes }
    requires few { (g : ℕ) → g < length mapped.now.circuit.nodes → slice_index owners.now g ≤ none }
    ensures blocks { IfOk result (λ blocks. AreBlocks mapped.now.circuit owners.now none blocks.items) }
{
    let mut blocks = owners.to_vec(alloc)?;
    lead_back(mapped, owners, none, &mut blocks);
    Ok(blocks)
}

/// Leads what the gates read to their blocks, along the order backwards.
fn lead_back(mapped: &Netlist, owners: &[usize], none: usize, blocks: &mut [usize])
    requires sized { length owners.now ≡ length mapped.now.circuit.nodes }
    requires few { (g : ℕ) → g < length mapped.now.circuit.nodes → slice_index owners.now g ≤ none }
    requires start { blocks.old ≡ owners.now }
    ensures blocks { AreBlocks mapped.now.circuit owners.now none blocks.new }
{
    let order = mapped.order();
    let mut left = order.len();
    while left > 0 {
        left -= 1;
        lead(mapped, owners, none, order[left], blocks);
    }
}

/// Leads what a gate reads to its block.
fn lead(mapped: &Netlist, owners: &[usize], none: usize, gate: usize, blocks: &mut [usize])
    requires gate { gate < length mapped.now.circuit.nodes }
    requires owners { length owners.now ≡ length mapped.now.circuit.nodes }
    requires sized { length blocks.old ≡ length mapped.now.circuit.nodes }
    ensures led { blocks.new ≡ led_drivers owners.now none (first_net mapped.now.circuit) (slice_index blocks.old gate) (node mapped.now.circuit gate).reads blocks.old }
{
    let first = mapped.nets() - mapped.nodes();
    let block = blocks[gate];
    lead_all(owners, none, first, block, mapped.node_reads(gate), blocks);
}

/// Leads what drives some nets to a block; the first gate drives the net `first`.
fn lead_all(
    owners: &[usize],
    none: usize,
    first: usize,
    block: usize,
    reads: &[NetId],
    blocks: &mut [usize],
)
    requires owners { length owners.now ≡ length blocks.old }
    requires within { All (λ net. net.number < first + length blocks.old) reads.now }
    ensures led { blocks.new ≡ led_drivers owners.now none first block (net_numbers reads.now) blocks.old }
{
    for net in reads {
        lead_driver(owners, none, first, block, net.number as usize, blocks);
    }
}

/// Leads what drives a net to a block, if it is no node's gate and was of none or of a later one.
fn lead_driver(
    owners: &[usize],
    none: usize,
    first: usize,
    block: usize,
    net: usize,
    blocks: &mut [usize],
)
    requires owners { length owners.now ≡ length blocks.old }
    requires within { net < first + length blocks.old }
    ensures led { blocks.new ≡ led_driver owners.now none first block net blocks.old }
{
    if net >= first && owners[net - first] >= none && block < blocks[net - first] {
        blocks[net - first] = block;
    }
}
