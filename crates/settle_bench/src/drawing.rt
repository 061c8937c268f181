//! Drawing points.
ghost use Rattle.std.specs.Prelude.{◌≡◌, length, IfOk};
ghost use Rattle.lane_sim.specs.Points.{ArePointsOf};

use lane_sim::Points;
use std::alloc::{AllocError, Global};
use tsc_net::{Bits, Netlist};

/// How many points a bench has.
const POINTS: usize = 1024;

/// An odd number that spreads a place over the bits of a word.
const FIRST: u64 = 11400714819323198485;

/// Another one.
const SECOND: u64 = 13787848793156543929;

/// Points of a netlist without latches, each with drawn bits of the inputs.
///
/// # Errors
///
/// Want of memory.
pub fn drawn_points(alloc: Global, net: &Netlist) -> Result<Points, AllocError>
    requires latches { length net.now.circuit.latches ≡ 0 }
    ensures shape { IfOk result (ArePointsOf net.now.circuit) }
{
    let mut points = Points::new(alloc, net)?;
    put_drawn(alloc, &mut points, net.inputs())?;
    Ok(points)
}

/// Puts drawn bits at each point.
fn put_drawn(alloc: Global, points: &mut Points, inputs: usize) -> Result<(), AllocError>
    requires inputs { points.old.inputs ≡ inputs }
    requires latches { points.old.latches ≡ 0 }
    ensures inputs { points.new.inputs ≡ inputs }
    ensures latches { points.new.latches ≡ 0 }
{
    for place in 0..POINTS {
        let input = drawn_bits(alloc, place, inputs)?;
        points.put(place, &[], &input);
    }
    Ok(())
}

/// The drawn bits of the inputs at a point.
fn drawn_bits(alloc: Global, place: usize, inputs: usize) -> Result<Bits, AllocError>
    ensures sized { IfOk result (λ bits. length bits ≡ inputs) }
{
    let mut bits = Bits::new(alloc);
    for input in 0..inputs {
        bits.push(drawn_bit(place as u64, input as u64))?;
    }
    Ok(bits)
}

/// The drawn bit of an input at a point.
fn drawn_bit(place: u64, input: u64) -> bool {
    let seed = place.wrapping_mul(FIRST) ^ input.wrapping_mul(SECOND);
    let mixed = (seed ^ (seed >> 32)).wrapping_mul(SECOND);
    (mixed ^ (mixed >> 29)).wrapping_mul(FIRST) >> 63 == 1
}
