//! What a walk asks, and what it asked before.
ghost use Rattle.std.specs.Prelude.{IfOk};
ghost use Rattle.checker_audit.specs.Noting.{IsNoted};

use std::alloc::AllocError;
use std::collections::BTreeSet;
use tsc_net::NetId;

/// A net that is asked whether it realises the gate at a place of the checker.
#[derive(Clone, Copy)]
pub struct Asked {
    /// The place of the gate.
    pub place: usize,
    /// The net.
    pub net: NetId,
}

/// Notes that the net is asked for at the place, and answers whether it wasn't asked before.
pub fn note(seen: &mut BTreeSet<u128>, asked: Asked) -> Result<bool, AllocError>
    ensures noted { IfOk result (IsNoted seen.old seen.new asked) }
{
    let number = asked.place as u128 * 4294967296 + asked.net.number as u128;
    let is_new = seen.insert(number)?;
    Ok(is_new)
}
