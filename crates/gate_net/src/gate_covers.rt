//! The covers of gates.
ghost use Rattle.std.specs.Prelude.{◌≡◌, IfOk};
ghost use Rattle.gate_net.specs.NodesOfLines.{cover_of};

use crate::gate::Gate;
use std::alloc::{AllocError, Global};
use tsc_cover::{Cover, Row01, and_cover, not_cover, or_cover, xor_cover};

/// The cover of a gate, which is no input and no state bit.
pub fn cover_for(alloc: Global, gate: Gate) -> Result<Cover, AllocError>
    ensures cover { IfOk result (λ cover. cover ≡ cover_of gate) }
{
    match gate {
        Gate::One => Cover::of_rows(alloc, 0, true, &[Row01 { care: 0, value: 0 }]),
        Gate::Not { a: _ } => not_cover(alloc),
        Gate::And { a: _, b: _ } => and_cover(alloc),
        Gate::Or { a: _, b: _ } => or_cover(alloc),
        Gate::Xor { a: _, b: _ } => xor_cover(alloc),
        _ => Ok(Cover::new(alloc, 0, true)),
    }
}
