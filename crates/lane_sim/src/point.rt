//! Points: each is a listed state and an input.
ghost use Rattle.std.specs.Prelude.{◌≡◌, ◌≤◌};
ghost use Rattle.lane_sim.specs.Places.{point_at};

use crate::place_lanes::width_of;

/// A listed state, by its place in the plan's list (0 without latches), and the bits of an input as a number, the first input
/// most significant.
#[derive(Clone, Copy, Debug, PartialEq, Eq)]
pub struct Point {
    /// The state.
    pub state: usize,
    /// The input.
    pub input: u64,
}

/// The point at a place: points come by state, then by input.
pub fn point_at(inputs: usize, place: usize) -> Point
    requires few { inputs ≤ 20 }
    ensures point { result ≡ point_at inputs place }
{
    let width = width_of(inputs);
    Point {
        state: place / width,
        input: (place % width) as u64,
    }
}
