//! The nodes of a checker's gates: their covers, and what they read.
ghost use Rattle.std.specs.Prelude.{◌≡◌, map, length, IfOk};
ghost use Rattle.code_checkers.specs.Gates.{ReadsBelow};
ghost use Rattle.code_checkers.specs.Nodes.{cover_of, reads_of};
ghost use Rattle.net_writing.specs.Names.{name_at};

use code_checkers::CheckGate;
use std::alloc::{AllocError, Global};
use tsc_cover::{Cover, and_cover, buf_cover, not_cover, or_cover, xor_cover};
use tsc_io::Items;
use tsc_net::{Name, NameList};

/// The cover of a gate.
pub fn cover_for(alloc: Global, gate: CheckGate) -> Result<Cover, AllocError>
    ensures cover { IfOk result (λ cover. cover ≡ cover_of gate) }
{
    match gate {
        CheckGate::Word { place: _ } => Ok(Cover::new(alloc, 0, true)),
        CheckGate::Buf { a: _ } => buf_cover(alloc),
        CheckGate::Not { a: _ } => not_cover(alloc),
        CheckGate::And { a: _, b: _ } => and_cover(alloc),
        CheckGate::Or { a: _, b: _ } => or_cover(alloc),
        CheckGate::Xor { a: _, b: _ } => xor_cover(alloc),
    }
}

/// The names of the gates that a gate reads, one for each pin.
pub fn operand_names(alloc: Global, gate: CheckGate, names: &[Name]) -> Result<NameList, AllocError>
    requires reads { ReadsBelow (length names.now) gate }
    ensures names { IfOk result (λ reads. reads ≡ map (name_at names.now) (reads_of gate)) }
{
    match gate {
        CheckGate::Word { place: _ } => Ok(Items::new(alloc)),
        CheckGate::Buf { a } => Items::from_slice(alloc, &[names[a]]),
        CheckGate::Not { a } => Items::from_slice(alloc, &[names[a]]),
        CheckGate::And { a, b } => Items::from_slice(alloc, &[names[a], names[b]]),
        CheckGate::Or { a, b } => Items::from_slice(alloc, &[names[a], names[b]]),
        CheckGate::Xor { a, b } => Items::from_slice(alloc, &[names[a], names[b]]),
    }
}
