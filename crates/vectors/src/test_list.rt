//! The list of tests.
ghost use Rattle.std.specs.Prelude.{◌≡◌, ◌<◌, ◌≤◌, None, Some, length, map, count_by, slice_get, slice_index_or};
ghost use Rattle.std.specs.Option.{is_some, option_map};
ghost use Rattle.lane_sim.specs.Places.{point_at};

use crate::places::Places;
use lane_sim::{Point, point_at};
use std::marker::Model;

/// For each listed fault of a netlist, in order, the first exposing point, if there is one. It holds four bytes per fault.
#[derive(Debug, Drop)]
pub struct Tests {
    inputs: usize,
    places: Places,
}

impl Model for Tests {
    ghost use Rattle.std.specs.Prelude.{◌≤◌, List, Option, map};
    ghost use Rattle.std.specs.Option.{option_map};
    ghost use Rattle.lane_sim.specs.Places.{point_at};
    ghost use Rattle.lane_sim.specs.declared.point.Point.{Point as PointOf};

    ghost Value = { List (Option PointOf) };

    ghost view = { λ tests. map (option_map (point_at tests.inputs)) tests.places };

    ghost invariant = { λ tests. tests.inputs ≤ 16 };
}

impl Tests {
    /// The tests of a netlist with so many inputs, by the places of their points.
    pub(crate) fn at(inputs: usize, places: Places) -> Tests
        requires few { inputs ≤ 16 }
        ensures tests { result ≡ map (option_map (point_at inputs)) places }
    {
        Tests { inputs, places }
    }

    /// The number of tests, which is that of the listed faults.
    pub fn len(&self) -> usize
        ensures count { result ≡ length self.now }
    {
        self.places.len()
    }

    /// The first exposing point of the fault at `place`, counted from 0; none where no point exposes it.
    pub fn get(&self, place: usize) -> Option<Point>
        requires { place < length self.now }
        ensures found { slice_get self.now place ≡ Some result }
        ensures item { result ≡ slice_index_or self.now place None }
    {
        test_at(self.inputs, self.places.get(place))
    }

    /// How many faults have an exposing point.
    pub fn testable(&self) -> usize
        ensures count { result ≡ count_by is_some self.now }
    {
        self.places.some()
    }
}

/// The point at a place, if there is one.
fn test_at(inputs: usize, place: Option<usize>) -> Option<Point>
    requires few { inputs ≤ 16 }
    ensures point { result ≡ option_map (point_at inputs) place }
{
    match place {
        Some(place) => Some(point_at(inputs, place)),
        None => None,
    }
}
