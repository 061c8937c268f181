//! Gates, each once, in the order of a walk.
ghost use Rattle.std.specs.Prelude.{◌≡◌, ◌<◌, Some, [], length, IfOk, OnOk, slice_get, slice_set};
ghost use Rattle.code_checkers.specs.Gates.{meaning, AreOrdered};
ghost use Rattle.code_checkers.specs.Draft.{PairIsWithin};
ghost use Rattle.code_checkers.specs.GateList.{IsWalkOf};
ghost use Rattle.code_checkers.specs.Walk.{with_gate, IsSharing, IsVisit};

use crate::check_gates::CheckGates;
use crate::gate::CheckGate;
use crate::pair_places::PairPlaces;
use indexmap::IndexSet;
use std::alloc::{AllocError, Global};

/// Gates, each once, and for each place of a draft the place here of its signal, where it was visited.
#[derive(Drop)]
pub struct Shared {
    /// The gates, in the order in which they were written.
    pub gates: IndexSet<CheckGate>,
    /// For each place of the draft, the place of its gate here.
    pub places: Vec<Option<usize>>,
}

/// Writes a gate, where it isn't there yet, and notes its place for a place of the draft.
fn write(shared: &mut Shared, place: usize, gate: CheckGate) -> Result<usize, AllocError>
    requires place { place < length shared.old.places.items }
    ensures gates { OnOk result (shared.new.gates.keys ≡ with_gate shared.old.gates.keys gate) }
    ensures stored { IfOk result (λ there. slice_get shared.new.gates.keys there ≡ Some gate) }
    ensures noted { IfOk result (λ there. shared.new.places.items ≡ slice_set shared.old.places.items place (Some there)) }
{
    let (there, _) = shared.gates.insert_full(gate)?;
    shared.places[place] = Some(there);
    Ok(there)
}

/// Writes what the signal at a place of a draft needs, operands from left to right before their gate, each gate once.
pub fn visit(draft: &[CheckGate], shared: &mut Shared, place: usize) -> Result<usize, AllocError>
    requires ordered { AreOrdered draft.now }
    requires place { place < length draft.now }
    requires shares { IsSharing draft.now shared.old.gates.keys shared.old.places.items }
    ensures visited { IfOk result (λ there. IsVisit draft.now shared.old.gates.keys shared.new.gates.keys place there) }
    ensures shares { OnOk result (IsSharing draft.now shared.new.gates.keys shared.new.places.items) }
{
    if let Some(there) = shared.places[place] {
        return Ok(there);
    }
    match draft[place] {
        CheckGate::Word { place: word } => {
            let there = write(shared, place, CheckGate::Word { place: word })?;
            Ok(there)
        }
        CheckGate::Buf { a } => {
            let first = visit(draft, shared, a)?;
            let there = write(shared, place, CheckGate::Buf { a: first })?;
            Ok(there)
        }
        CheckGate::Not { a } => {
            let first = visit(draft, shared, a)?;
            let there = write(shared, place, CheckGate::Not { a: first })?;
            Ok(there)
        }
        CheckGate::And { a, b } => {
            let first = visit(draft, shared, a)?;
            let other = visit(draft, shared, b)?;
            let there = write(shared, place, CheckGate::And { a: first, b: other })?;
            Ok(there)
        }
        CheckGate::Or { a, b } => {
            let first = visit(draft, shared, a)?;
            let other = visit(draft, shared, b)?;
            let there = write(shared, place, CheckGate::Or { a: first, b: other })?;
            Ok(there)
        }
        CheckGate::Xor { a, b } => {
            let first = visit(draft, shared, a)?;
            let other = visit(draft, shared, b)?;
            let there = write(shared, place, CheckGate::Xor { a: first, b: other })?;
            Ok(there)
        }
    }
}

/// Nothing written yet, for a draft of so many places.
fn empty(alloc: Global, draft: &[CheckGate]) -> Result<Shared, AllocError>
    ensures shares { IfOk result (λ shared. IsSharing draft.now shared.gates.keys shared.places.items) }
    ensures none { IfOk result (λ shared. shared.gates.keys ≡ []) }
{
    let places = vec![in alloc; None; draft.len()]?;
    Ok(Shared {
        gates: IndexSet::new(alloc),
        places,
    })
}

/// The gates that two signals of a draft need, each signal once, in the order of a walk over the first and then the second.
pub fn share(
    alloc: Global,
    draft: &[CheckGate],
    rails: PairPlaces,
) -> Result<CheckGates, AllocError>
    requires ordered { AreOrdered draft.now }
    requires rails { PairIsWithin draft.now rails }
    ensures walk { IfOk result (λ made. IsWalkOf (meaning draft.now rails.first) (meaning draft.now rails.second) made) }
{
    let mut shared = empty(alloc, draft)?;
    let rail1 = visit(draft, &mut shared, rails.first)?;
    let rail2 = visit(draft, &mut shared, rails.second)?;
    let gates = Vec::from_slice(alloc, shared.gates.as_slice())?;
    Ok(CheckGates::new(gates, rail1, rail2))
}
