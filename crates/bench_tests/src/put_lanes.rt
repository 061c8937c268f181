//! Lanes that are put at the points of a bench, by hand.
ghost use Rattle.std.specs.Prelude.{◌≡◌, IfOk, length};
ghost use Rattle.lane_sim.specs.Points.{ArePointsOf};

use crate::bench::{bench_of, settled_word};
use lane_sim::Points;
use shared_tests::{TOGGLE, net_and_plan_of};
use std::alloc::{AllocError, Global};
use std::test::Fail;
use tsc_net::{NetId, Netlist};

/// The input is 1 at four points of the block 3, the second latch at eight of the last block; all else is 0.
fn points_of(alloc: Global, net: &Netlist) -> Result<Points, AllocError>
    requires inputs { net.now.circuit.inputs ≡ 1 }
    requires latches { length net.now.circuit.latches ≡ 2 }
    ensures shape { IfOk result (ArePointsOf net.now.circuit) }
{
    let mut points = Points::new(alloc, net)?;
    points.put_input_lane(0, 3, 0xF0);
    points.put_latch_lane(1, 15, 0xFF);
    Ok(points)
}

/// What is looked at: the net, the word of its lane, and the bits that it has to have.
type Look = (u32, usize, u64);

/// The input is net 0, the latches give the nets 1 and 2.
static LANES: [Look; 6] = [
    (0, 3, 0xF0),
    (0, 2, 0),
    (0, 15, 0),
    (1, 15, 0),
    (2, 15, 0xFF),
    (2, 14, 0),
];

/// Whether a bench has what is looked at.
fn shows(alloc: Global, net: &Netlist, look: &Look) -> Option<bool> {
    let (number, word, bits) = look;
    let watched = NetId { number: *number };
    if net.inputs() != 1 || net.latches() != 2 || *word >= 16 {
        return None;
    }
    if net.nets() > 1000 || *number as usize >= net.nets() {
        return None;
    }
    let points = points_of(alloc, net).ok()?;
    let bench = bench_of(alloc, net, watched).ok()?;
    Some(settled_word(bench, &points, None, watched, *word) == *bits)
}

/// The place of the first row that a bench of the netlist doesn't show, if there is one.
fn first_not_shown(alloc: Global, net: &Netlist) -> Option<Option<usize>> {
    for (place, look) in LANES.iter().enumerate() {
        if !shows(alloc, net, look)? {
            return Some(Some(place));
        }
    }
    Some(None)
}

/// The same of the machine.
fn first_wrong(alloc: Global) -> Option<Option<usize>> {
    let read = net_and_plan_of(alloc, TOGGLE)?;
    first_not_shown(alloc, &read.net)
}

#[test]
fn lanes_that_are_put(rt: HostRuntime) -> Result<(), Fail> {
    assert_eq!(rt; first_wrong(rt.alloc()), Some(None));
    Ok(())
}
