//! The first cover that is too wide to be tried value by value.
ghost use Rattle.std.specs.Prelude.{◌↔◌, ℕ, ◌<◌, length, IsTrue, IfOk, MatchOption};
ghost use Rattle.mapping_reading.specs.Pins.{at_of};
ghost use Rattle.mapping_reading.specs.MovedNets.{HaveMoved};
ghost use Rattle.mapping_audit.specs.Wide.{IsWideCover, IsFirstWide};

use crate::distinct::distinct_pins;
use crate::same_gate::is_same_gate;
use std::alloc::{AllocError, Global};
use tsc_net::Netlist;

/// The most distinct pins of a cover that is tried value by value.
const MOST_PINS: usize = 20;

/// The first node whose gate isn't the very node and whose cover has more than 20 distinct pins, if there is one.
///
/// # Errors
///
/// Want of memory.
pub fn first_wide(
    alloc: Global,
    plain: &Netlist,
    mapped: &Netlist,
    moved: &[usize],
) -> Result<Option<usize>, AllocError>
    requires moved { HaveMoved plain.now.circuit mapped.now.circuit moved.now }
    ensures first { IfOk result (λ found. MatchOption found ((j : ℕ) → j < length plain.now.circuit.nodes → IsWideCover plain.now.circuit mapped.now.circuit (at_of mapped.now.circuit moved.now) j → ⊥) (IsFirstWide plain.now.circuit mapped.now.circuit (at_of mapped.now.circuit moved.now))) }
{
    for node in 0..plain.nodes() {
        if is_wide(alloc, plain, mapped, moved, node)? {
            return Ok(Some(node));
        }
    }
    Ok(None)
}

/// Whether a node's gate isn't the very node and its cover has more than 20 distinct pins.
///
/// # Errors
///
/// Want of memory.
fn is_wide(
    alloc: Global,
    plain: &Netlist,
    mapped: &Netlist,
    moved: &[usize],
    node: usize,
) -> Result<bool, AllocError>
    requires moved { HaveMoved plain.now.circuit mapped.now.circuit moved.now }
    requires node { node < length plain.now.circuit.nodes }
    ensures wide { IfOk result (λ wide. IsTrue wide ↔ IsWideCover plain.now.circuit mapped.now.circuit (at_of mapped.now.circuit moved.now) node) }
{
    if is_same_gate(plain, mapped, moved, node) {
        return Ok(false);
    }
    let pins = distinct_pins(alloc, plain, mapped, moved, node)?;
    Ok(pins.len() > MOST_PINS)
}
