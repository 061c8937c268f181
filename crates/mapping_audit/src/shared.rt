//! The first gate without a node of its own that gates of two blocks read.
ghost use Rattle.std.specs.Prelude.{◌≡◌, ℕ, ◌+◌, ◌<◌, ◌≤◌, nat_lt, if◌then◌else◌, length, slice_index, All, MatchOption};
ghost use Rattle.fault_secure.specs.Circuit.{node};
ghost use Rattle.tsc_net.specs.PlanView.{net_numbers};
ghost use Rattle.mapping_reading.specs.ReadMapping.{first_net};
ghost use Rattle.mapping_reading.specs.Blocks.{IsShared, IsFirstShared};
ghost use Rattle.mapping_audit.specs.FindingBlocks.{other_driver, other_drivers};

use tsc_net::{NetId, Netlist};

/// The first gate of no node that a gate of some block reads, while it is of another one, if there is such a gate.
pub fn first_shared(
    mapped: &Netlist,
    owners: &[usize],
    none: usize,
    blocks: &[usize],
) -> Option<usize>
    requires owners { length owners.now ≡ length mapped.now.circuit.nodes }
    requires blocks { length blocks.now ≡ length mapped.now.circuit.nodes }
    ensures first { MatchOption result ((d : ℕ) → IsShared mapped.now.circuit owners.now none blocks.now d → ⊥) (IsFirstShared mapped.now.circuit owners.now none blocks.now) }
{
    let count = mapped.nodes();
    let mut least = count;
    for gate in 0..count {
        least = least_shared(mapped, owners, none, blocks, gate, least);
    }
    if least < count { Some(least) } else { None }
}

/// The first of the gates that a gate of some block reads and that are no node's and of another block, and of `least`.
fn least_shared(
    mapped: &Netlist,
    owners: &[usize],
    none: usize,
    blocks: &[usize],
    gate: usize,
    least: usize,
) -> usize
    requires gate { gate < length mapped.now.circuit.nodes }
    requires owners { length owners.now ≡ length mapped.now.circuit.nodes }
    requires blocks { length blocks.now ≡ length mapped.now.circuit.nodes }
    ensures least { result ≡ (if nat_lt (slice_index blocks.now gate) none then other_drivers owners.now none (first_net mapped.now.circuit) blocks.now (slice_index blocks.now gate) (node mapped.now.circuit gate).reads least else least) }
{
    let block = blocks[gate];
    if block >= none {
        return least;
    }
    let first = mapped.nets() - mapped.nodes();
    least_other(
        owners,
        none,
        first,
        blocks,
        block,
        mapped.node_reads(gate),
        least,
    )
}

/// The first of the gates that drive some nets and are no node's and of another block than `block`, and of `least`.
fn least_other(
    owners: &[usize],
    none: usize,
    first: usize,
    blocks: &[usize],
    block: usize,
    reads: &[NetId],
    least: usize,
) -> usize
    requires owners { length owners.now ≡ length blocks.now }
    requires within { All (λ net. net.number < first + length blocks.now) reads.now }
    ensures least { result ≡ other_drivers owners.now none first blocks.now block (net_numbers reads.now) least }
{
    let mut found = least;
    for net in reads {
        found = other_driver(
            owners,
            none,
            first,
            blocks,
            block,
            net.number as usize,
            found,
        );
    }
    found
}

/// What drives a net, if it is no node's gate, of another block than `block`, and before `least`; else `least`.
fn other_driver(
    owners: &[usize],
    none: usize,
    first: usize,
    blocks: &[usize],
    block: usize,
    net: usize,
    least: usize,
) -> usize
    requires owners { length owners.now ≡ length blocks.now }
    requires within { net < first + length blocks.now }
    ensures least { result ≡ other_driver owners.now none first blocks.now block net least }
{
    if net >= first
        && owners[net - first] >= none
        && block != blocks[net - first]
        && net - first < least
    {
        net - first
    } else {
        least
    }
}
