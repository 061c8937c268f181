//! The first cover that its block doesn't give.
ghost use Rattle.std.specs.Prelude.{◌≡◌, ℕ, ◌<◌, ◌⊎◌, length, slice_index, IfOk, MatchOption};
ghost use Rattle.tsc_net.specs.Order.{fan_ins, evaluation_order};
ghost use Rattle.mapping_reading.specs.Pins.{at_of};
ghost use Rattle.mapping_reading.specs.MovedNets.{HaveMoved};
ghost use Rattle.mapping_audit.specs.Chains.{AreChains};
ghost use Rattle.mapping_audit.specs.Wide.{IsWideCover};
ghost use Rattle.mapping_audit.specs.Values.{AreZeros};
ghost use Rattle.mapping_audit.specs.Covers.{IsRealised, Misses, IsFirstFailing};

use crate::chains::{block_chains, gates_of};
use crate::distinct::{distinct_pins, moved_reads};
use crate::same_gate::is_same_gate;
use crate::values::first_missed;
use std::alloc::{AllocError, Global};
use tsc_net::Netlist;

/// A node whose block doesn't give its cover's bit on a value of the cover's pins.
#[derive(Clone, Copy)]
pub struct MissedCover {
    /// The node's place.
    pub node: usize,
    /// The value, the first pin most significant.
    pub value: u32,
    /// How many distinct pins the cover has.
    pub width: usize,
}

/// A value of the pins of a cover.
#[derive(Clone, Copy)]
pub struct PinValue {
    /// The value, the first pin most significant.
    pub value: u32,
    /// How many distinct pins the cover has.
    pub width: usize,
}

/// The first node whose gate isn't the very node and whose block doesn't give its cover on some value, and the least such value, if there
/// is one.
///
/// # Errors
///
/// Want of memory.
pub fn first_failing(
    alloc: Global,
    plain: &Netlist,
    mapped: &Netlist,
    moved: &[usize],
    blocks: &[usize],
) -> Result<Option<MissedCover>, AllocError>
    requires moved { HaveMoved plain.now.circuit mapped.now.circuit moved.now }
    requires blocks { length blocks.now ≡ length mapped.now.circuit.nodes }
    requires narrow { (j : ℕ) → j < length plain.now.circuit.nodes → IsWideCover plain.now.circuit mapped.now.circuit (at_of mapped.now.circuit moved.now) j → ⊥ }
    ensures first { IfOk result (λ found. MatchOption found ((j : ℕ) → j < length plain.now.circuit.nodes → IsRealised plain.now.circuit mapped.now.circuit moved.now blocks.now j) (λ missed. IsFirstFailing plain.now.circuit mapped.now.circuit moved.now blocks.now missed.node missed.value missed.width)) }
{
    let chains = block_chains(alloc, mapped, plain.nodes(), blocks)?;
    let mut words = vec![in alloc; 0u64; mapped.nets()]?;
    failing_on(
        alloc,
        plain,
        mapped,
        moved,
        blocks,
        &chains.heads,
        &chains.next,
        &mut words,
    )
}

/// The same with words that have one 0 per net, along the chains of the blocks' gates.
///
/// # Errors
///
/// Want of memory.
fn failing_on(
    alloc: Global,
    plain: &Netlist,
    mapped: &Netlist,
    moved: &[usize],
    blocks: &[usize],
    heads: &[usize],
    next: &[usize],
    words: &mut [u64],
) -> Result<Option<MissedCover>, AllocError>
    requires moved { HaveMoved plain.now.circuit mapped.now.circuit moved.now }
    requires narrow { (j : ℕ) → j < length plain.now.circuit.nodes → IsWideCover plain.now.circuit mapped.now.circuit (at_of mapped.now.circuit moved.now) j → ⊥ }
    requires heads { length heads.now ≡ length plain.now.circuit.nodes }
    requires chains { AreChains (evaluation_order (fan_ins mapped.now.circuit)) (length heads.now) (length mapped.now.circuit.nodes) blocks.now heads.now next.now }
    requires zeros { AreZeros mapped.now.circuit words.old }
    ensures first { IfOk result (λ found. MatchOption found ((j : ℕ) → j < length plain.now.circuit.nodes → IsRealised plain.now.circuit mapped.now.circuit moved.now blocks.now j) (λ missed. IsFirstFailing plain.now.circuit mapped.now.circuit moved.now blocks.now missed.node missed.value missed.width)) }
{
    for node in 0..plain.nodes() {
        let missed = missed_value(
            alloc, plain, mapped, moved, blocks, heads, next, node, words,
        )?;
        if let Some(at) = missed {
            return Ok(Some(MissedCover {
                node,
                value: at.value,
                width: at.width,
            }));
        }
    }
    Ok(None)
}

/// The first value on which the block of a node doesn't give its cover's bit, where its gate isn't the very node, if there is one.
///
/// # Errors
///
/// Want of memory.
fn missed_value(
    alloc: Global,
    plain: &Netlist,
    mapped: &Netlist,
    moved: &[usize],
    blocks: &[usize],
    heads: &[usize],
    next: &[usize],
    node: usize,
    words: &mut [u64],
) -> Result<Option<PinValue>, AllocError>
    requires moved { HaveMoved plain.now.circuit mapped.now.circuit moved.now }
    requires node { node < length plain.now.circuit.nodes }
    requires narrow { IsWideCover plain.now.circuit mapped.now.circuit (at_of mapped.now.circuit moved.now) node → ⊥ }
    requires heads { length heads.now ≡ length plain.now.circuit.nodes }
    requires chains { AreChains (evaluation_order (fan_ins mapped.now.circuit)) (length heads.now) (length mapped.now.circuit.nodes) blocks.now heads.now next.now }
    requires zeros { AreZeros mapped.now.circuit words.old }
    ensures zeros { AreZeros mapped.now.circuit words.new }
    ensures first { IfOk result (λ found. MatchOption found (IsRealised plain.now.circuit mapped.now.circuit moved.now blocks.now node) (λ at. Misses plain.now.circuit mapped.now.circuit moved.now blocks.now node at.value at.width)) }
{
    // What the netlist keeps is known from here on.
    let _order = mapped.order();
    if is_same_gate(plain, mapped, moved, node) {
        return Ok(None);
    }
    let pins = distinct_pins(alloc, plain, mapped, moved, node)?;
    let reads = moved_reads(alloc, plain, mapped, moved, node)?;
    let gates = gates_of(alloc, mapped, blocks, heads, next, node)?;
    match first_missed(plain, mapped, moved, node, &pins, &reads, &gates, words) {
        None => Ok(None),
        Some(value) => Ok(Some(PinValue {
            value: value as u32,
            width: pins.len(),
        })),
    }
}
