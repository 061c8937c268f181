//! Whether a netlist reads as another one mapped cover by cover.
ghost use Rattle.std.specs.Prelude.{◌≡◌, ℕ, ◌<◌, length, slice_index, IfOk, MatchOption};
ghost use Rattle.mapping_reading.specs.Pins.{at_of};
ghost use Rattle.mapping_reading.specs.MovedNets.{HaveMoved};
ghost use Rattle.mapping_reading.specs.NamedMapping.{moved_by_name, HasSameNames};
ghost use Rattle.mapping_audit.specs.Wide.{IsWideCover};
ghost use Rattle.mapping_audit.specs.MappedAnswer.{AreBlocked, ArePinned, IsMappingAnswer, IsNamesReason, IsMappedAnswer, IsSecureWhereYes, IsShownIn};

use crate::answer::MappedAnswer;
use crate::blocks::gate_blocks;
use crate::covers::first_failing;
use crate::missing::first_missing;
use crate::moved::moved_nets;
use crate::names::{have_same_inputs, have_same_latches, have_same_outputs};
use crate::owners::gate_owners;
use crate::pins::first_open;
use crate::reason::MappedReason;
use crate::shared::first_shared;
use crate::wide::first_wide;
use std::alloc::{AllocError, Global};
use tsc_net::Netlist;

/// Whether `mapped` reads as `plain` mapped cover by cover, where each net went to that with its name; if not, the first reason. Time
/// linear in both except for the width of covers; a cover of more than 20 distinct pins is tried only where its gate is the very node.
///
/// # Errors
///
/// Want of memory.
pub fn mapped_answer(
    alloc: Global,
    plain: &Netlist,
    mapped: &Netlist,
) -> Result<MappedAnswer, AllocError>
    ensures answer { IfOk result (IsMappedAnswer plain.now mapped.now) }
    ensures secure { IfOk result (IsSecureWhereYes plain.now mapped.now) }
    ensures shown { IfOk result (IsShownIn plain.now mapped.now) }
{
    let answer = decided_answer(alloc, plain, mapped)?;
    Ok(answer)
}

/// The answer, by names first.
///
/// # Errors
///
/// Want of memory.
fn decided_answer(
    alloc: Global,
    plain: &Netlist,
    mapped: &Netlist,
) -> Result<MappedAnswer, AllocError>
    ensures answer { IfOk result (IsMappedAnswer plain.now mapped.now) }
    ensures secure { IfOk result (IsSecureWhereYes plain.now mapped.now) }
{
    let moved = moved_nets(alloc, plain, mapped)?;
    match names_reason(plain, mapped, &moved) {
        Some(reason) => Ok(MappedAnswer::No(reason)),
        None => named_answer(alloc, plain, mapped, &moved),
    }
}

/// Why the names of two netlists differ, if they do.
fn names_reason(plain: &Netlist, mapped: &Netlist, moved: &[usize]) -> Option<MappedReason>
    requires moved { moved.now ≡ moved_by_name plain.now mapped.now }
    ensures reason { MatchOption result (HasSameNames plain.now mapped.now) (IsNamesReason plain.now mapped.now) }
{
    if !have_same_inputs(plain, mapped) {
        return Some(MappedReason::Inputs);
    }
    if !have_same_latches(plain, mapped) {
        return Some(MappedReason::Latches);
    }
    if !have_same_outputs(plain, mapped) {
        return Some(MappedReason::Outputs);
    }
    match first_missing(plain, mapped, moved) {
        Some(node) => Some(MappedReason::Net { node }),
        None => None,
    }
}

/// The answer where the names are the same.
///
/// # Errors
///
/// Want of memory.
fn named_answer(
    alloc: Global,
    plain: &Netlist,
    mapped: &Netlist,
    moved: &[usize],
) -> Result<MappedAnswer, AllocError>
    requires moved { moved.now ≡ moved_by_name plain.now mapped.now }
    requires names { HasSameNames plain.now mapped.now }
    ensures answer { IfOk result (IsMappedAnswer plain.now mapped.now) }
    ensures secure { IfOk result (IsSecureWhereYes plain.now mapped.now) }
{
    // What the netlists keep is known from here on.
    let _nets = plain.nets();
    let _mapped = mapped.nets();
    let _order = mapped.order();
    let answer = mapping_answer(alloc, plain, mapped, moved)?;
    Ok(answer)
}

/// The answer where nets went by the table.
///
/// # Errors
///
/// Want of memory.
fn mapping_answer(
    alloc: Global,
    plain: &Netlist,
    mapped: &Netlist,
    moved: &[usize],
) -> Result<MappedAnswer, AllocError>
    requires moved { HaveMoved plain.now.circuit mapped.now.circuit moved.now }
    ensures answer { IfOk result (IsMappingAnswer plain.now.circuit mapped.now.circuit moved.now) }
{
    // What the netlists keep is known from here on.
    let _nets = mapped.nets();
    let _order = mapped.order();
    let none = plain.nodes();
    if mapped.nodes() > 0 && none == 0 {
        return Ok(MappedAnswer::No(MappedReason::NoBlock { gate: 0 }));
    }
    let owners = gate_owners(alloc, plain, mapped, moved)?;
    let blocks = gate_blocks(alloc, mapped, &owners, none)?;
    match first_shared(mapped, &owners, none, &blocks) {
        Some(gate) => Ok(MappedAnswer::No(MappedReason::NoBlock { gate })),
        None => blocked_answer(alloc, plain, mapped, moved, &blocks),
    }
}

/// The answer where no gate without a node of its own is read by gates of two blocks.
///
/// # Errors
///
/// Want of memory.
fn blocked_answer(
    alloc: Global,
    plain: &Netlist,
    mapped: &Netlist,
    moved: &[usize],
    blocks: &[usize],
) -> Result<MappedAnswer, AllocError>
    requires moved { HaveMoved plain.now.circuit mapped.now.circuit moved.now }
    requires blocked { AreBlocked plain.now.circuit mapped.now.circuit moved.now blocks.now }
    ensures answer { IfOk result (IsMappingAnswer plain.now.circuit mapped.now.circuit moved.now) }
{
    match first_open(plain, mapped, moved, blocks) {
        Some(open) => Ok(MappedAnswer::No(MappedReason::NoPin {
            gate: open.gate,
            pin: open.pin,
        })),
        None => pinned_answer(alloc, plain, mapped, moved, blocks),
    }
}

/// The answer where each pin of a block is at its own nets or at a pin of its cover.
///
/// # Errors
///
/// Want of memory.
fn pinned_answer(
    alloc: Global,
    plain: &Netlist,
    mapped: &Netlist,
    moved: &[usize],
    blocks: &[usize],
) -> Result<MappedAnswer, AllocError>
    requires moved { HaveMoved plain.now.circuit mapped.now.circuit moved.now }
    requires pinned { ArePinned plain.now.circuit mapped.now.circuit moved.now blocks.now }
    ensures answer { IfOk result (IsMappingAnswer plain.now.circuit mapped.now.circuit moved.now) }
{
    match first_wide(alloc, plain, mapped, moved)? {
        Some(node) => Ok(MappedAnswer::Wide { node }),
        None => narrow_answer(alloc, plain, mapped, moved, blocks),
    }
}

/// The answer where no cover is too wide to be tried.
///
/// # Errors
///
/// Want of memory.
fn narrow_answer(
    alloc: Global,
    plain: &Netlist,
    mapped: &Netlist,
    moved: &[usize],
    blocks: &[usize],
) -> Result<MappedAnswer, AllocError>
    requires moved { HaveMoved plain.now.circuit mapped.now.circuit moved.now }
    requires pinned { ArePinned plain.now.circuit mapped.now.circuit moved.now blocks.now }
    requires narrow { (j : ℕ) → j < length plain.now.circuit.nodes → IsWideCover plain.now.circuit mapped.now.circuit (at_of mapped.now.circuit moved.now) j → ⊥ }
    ensures answer { IfOk result (IsMappingAnswer plain.now.circuit mapped.now.circuit moved.now) }
{
    // What the netlists keep is known from here on.
    let _nets = plain.nets();
    let _mapped = mapped.nets();
    let _order = plain.order();
    match first_failing(alloc, plain, mapped, moved, blocks)? {
        Some(missed) => Ok(MappedAnswer::No(MappedReason::NoCover {
            node: missed.node,
            value: missed.value,
            width: missed.width,
        })),
        None => Ok(MappedAnswer::Yes),
    }
}
