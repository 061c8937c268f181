//! The bits of all inputs, in binary order.
ghost use Rattle.std.specs.Prelude.{◌≡◌, ◌≤◌, ◌^◌, IfOk};
ghost use Rattle.tsc_bits.specs.Bits.{bits_of};
ghost use Rattle.sim_text.specs.Tables.{AreAllInputs};

use lane_sim::width_of;
use std::alloc::{AllocError, Global};
use tsc_cover::bit_at;
use tsc_io::Items;
use tsc_net::Bits;

/// The bits of all inputs: those at a place are the place itself in binary, the first bit most significant.
///
/// # Errors
///
/// Want of memory.
pub(crate) fn all_inputs(alloc: Global, count: usize) -> Result<Items<Bits>, AllocError>
    requires few { count ≤ 16 }
    ensures all { IfOk result (AreAllInputs count) }
{
    let mut inputs = Items::new(alloc);
    for number in 0..width_of(count) as u64 {
        inputs.push(bits_of(alloc, count, number)?)?;
    }
    Ok(inputs)
}

/// The last `count` bits of a number, the most significant first.
fn bits_of(alloc: Global, count: usize, number: u64) -> Result<Bits, AllocError>
    requires few { count ≤ 64 }
    ensures bits { IfOk result (λ bits. bits ≡ bits_of count number) }
{
    let mut bits = Bits::new(alloc);
    for place in 0..count {
        bits.push(bit_at(number, count - 1 - place))?;
    }
    Ok(bits)
}
