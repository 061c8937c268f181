//! Chains of gates of one kind.
ghost use Rattle.std.specs.Prelude.{◌<◌, length, IfOk};
ghost use Rattle.code_checkers.specs.Signal.{chain as chain_of};
ghost use Rattle.code_checkers.specs.Chain.{joined};
ghost use Rattle.code_checkers.specs.Gates.{meaning};
ghost use Rattle.code_checkers.specs.Draft.{AreWithin, meanings, IsAdded};

use crate::draft::Draft;
use crate::gate::CheckGate;
use std::alloc::AllocError;

/// How a chain joins its signals.
#[derive(Clone, Copy)]
pub enum Joint {
    /// By `Or`: one of them is 1.
    Either,
    /// By `Xor`: an odd number of them is 1.
    Odd,
}

/// Adds the gate that joins two places.
fn join(draft: &mut Draft, joint: Joint, a: usize, b: usize) -> Result<usize, AllocError>
    requires a { a < length draft.old }
    requires b { b < length draft.old }
    ensures added { IfOk result (λ place. IsAdded draft.old draft.new (joined joint (meaning draft.old a) (meaning draft.old b)) place) }
{
    match joint {
        Joint::Either => draft.add(CheckGate::Or { a, b }),
        Joint::Odd => draft.add(CheckGate::Xor { a, b }),
    }
}

/// Adds the chain over the signals at places, from the left.
pub fn chain(draft: &mut Draft, joint: Joint, places: &[usize]) -> Result<usize, AllocError>
    requires some { 0 < length places.now }
    requires within { AreWithin draft.old places.now }
    ensures added { IfOk result (λ place. IsAdded draft.old draft.new (chain_of (joined joint) (meanings draft.old places.now)) place) }
{
    let mut made = places[0];
    for place in &places[1..] {
        made = join(draft, joint, made, *place)?;
    }
    Ok(made)
}
