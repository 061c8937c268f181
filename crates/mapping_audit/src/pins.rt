//! The pins of gates: whether each is at its block's own nets or at a pin of its cover.
ghost use Rattle.std.specs.Prelude.{◌≡◌, ℕ, ◌+◌, ◌<◌, ◌||◌, ◌==◌, length, slice_index, All, MatchOption};
ghost use Rattle.std.specs.List.{list_any};
ghost use Rattle.fault_secure.specs.Circuit.{node, nets};
ghost use Rattle.tsc_net.specs.Order.{has_place};
ghost use Rattle.mapping_reading.specs.ReadMapping.{is_own, block_pins};
ghost use Rattle.mapping_reading.specs.Pins.{at_of, IsWellAt, AreWell, IsOpenAt, IsFirstOpen};

use tsc_net::{NetId, Netlist};

/// A pin of a gate.
#[derive(Clone, Copy)]
pub struct GatePin {
    /// The gate's place.
    pub gate: usize,
    /// The pin's place, counted from 0.
    pub pin: usize,
}

/// The first pin, by gates and then by pins, of a gate of a block that is neither at the block's own nets nor at a pin of its cover, if
/// there is one.
pub fn first_open(
    plain: &Netlist,
    mapped: &Netlist,
    moved: &[usize],
    blocks: &[usize],
) -> Option<GatePin>
    requires moved { length moved.now ≡ nets plain.now.circuit }
    requires blocks { length blocks.now ≡ length mapped.now.circuit.nodes }
    ensures first { MatchOption result (AreWell plain.now.circuit mapped.now.circuit (at_of mapped.now.circuit moved.now) (slice_index blocks.now)) (λ found. IsFirstOpen plain.now.circuit mapped.now.circuit (at_of mapped.now.circuit moved.now) (slice_index blocks.now) found.gate found.pin) }
{
    for gate in 0..mapped.nodes() {
        let block = blocks[gate];
        if block < plain.nodes() {
            if let Some(pin) = open_pin(plain, mapped, moved, blocks, gate) {
                return Some(GatePin { gate, pin });
            }
        }
    }
    None
}

/// The first such pin of one gate.
fn open_pin(
    plain: &Netlist,
    mapped: &Netlist,
    moved: &[usize],
    blocks: &[usize],
    gate: usize,
) -> Option<usize>
    requires moved { length moved.now ≡ nets plain.now.circuit }
    requires blocks { length blocks.now ≡ length mapped.now.circuit.nodes }
    requires gate { gate < length mapped.now.circuit.nodes }
    requires some { slice_index blocks.now gate < length plain.now.circuit.nodes }
    ensures first { MatchOption result ((pin : ℕ) → pin < length (node mapped.now.circuit gate).reads → IsWellAt plain.now.circuit mapped.now.circuit (at_of mapped.now.circuit moved.now) (slice_index blocks.now) gate pin) (IsOpenAt plain.now.circuit mapped.now.circuit (at_of mapped.now.circuit moved.now) (slice_index blocks.now) gate) }
{
    // What the netlists keep is known from here on.
    let _nets = mapped.nets();
    let block = blocks[gate];
    for (pin, net) in mapped.node_reads(gate).iter().enumerate() {
        if !is_well(plain, mapped, moved, blocks, block, net.number as usize) {
            return Some(pin);
        }
    }
    None
}

/// Whether a net is one of a block's own or at a pin of its cover.
fn is_well(
    plain: &Netlist,
    mapped: &Netlist,
    moved: &[usize],
    blocks: &[usize],
    block: usize,
    net: usize,
) -> bool
    requires moved { length moved.now ≡ nets plain.now.circuit }
    requires blocks { length blocks.now ≡ length mapped.now.circuit.nodes }
    requires block { block < length plain.now.circuit.nodes }
    requires net { net < nets mapped.now.circuit }
    ensures well { result ≡ (is_own mapped.now.circuit (slice_index blocks.now) block net || has_place (block_pins plain.now.circuit (at_of mapped.now.circuit moved.now) block) net) }
{
    is_own(mapped, blocks, block, net) || is_pin(plain, mapped, moved, block, net)
}

/// Whether a gate of the block drives the net.
fn is_own(mapped: &Netlist, blocks: &[usize], block: usize, net: usize) -> bool
    requires blocks { length blocks.now ≡ length mapped.now.circuit.nodes }
    requires net { net < nets mapped.now.circuit }
    ensures own { result ≡ is_own mapped.now.circuit (slice_index blocks.now) block net }
{
    let first = mapped.nets() - mapped.nodes();
    net >= first && blocks[net - first] == block
}

/// Whether the net is at a pin of the node's cover.
fn is_pin(plain: &Netlist, mapped: &Netlist, moved: &[usize], node: usize, net: usize) -> bool
    requires moved { length moved.now ≡ nets plain.now.circuit }
    requires node { node < length plain.now.circuit.nodes }
    ensures pin { result ≡ has_place (block_pins plain.now.circuit (at_of mapped.now.circuit moved.now) node) net }
{
    // What the netlists keep is known from here on.
    let _nets = plain.nets();
    let _mapped = mapped.nets();
    goes_to(moved, plain.node_reads(node), net)
}

/// Whether one of the nets went to this one.
fn goes_to(moved: &[usize], reads: &[NetId], net: usize) -> bool
    requires within { All (λ read. read.number < length moved.now) reads.now }
    ensures goes { result ≡ list_any (λ read. slice_index moved.now read.number == net) reads.now }
{
    reads.iter().any(|read| moved[read.number as usize] == net)
}
