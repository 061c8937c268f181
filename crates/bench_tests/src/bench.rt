//! Two small netlists on a bench, by hand.
ghost use Rattle.std.specs.Prelude.{◌≡◌, ◌<◌, ◌≤◌, true, All, IfOk, IsTrue, length};
ghost use Rattle.fault_secure.specs.Circuit.{nets};
ghost use Rattle.tsc_net.specs.Order.{has_place};
ghost use Rattle.tsc_net.specs.Limits.{most_nets};
ghost use Rattle.lane_sim.specs.Points.{ArePointsOf};

use lane_sim::{Bench, Points};
use shared_tests::network_of;
use std::alloc::{AllocError, Global};
use std::test::Fail;
use tsc_io::Items;
use tsc_net::{Fault, NetId, Netlist};

/// y of the inputs a and b, its copy q, the copy's complement p, and the rails of y and p: the nets 2 to 6.
const FIRST: &[u8] =
    b".inputs a b\n.outputs y\n.names a b y\n11 1\n.names a b q\n11 1\n.names q p\n0 1\n.names y r1\n1 1\n.names p r2\n1 1\n";

/// The same where y is the complement of net 3, and its copy that of net 5, each before what it reads.
const SECOND: &[u8] =
    b".inputs a b\n.outputs y\n.names n y\n0 1\n.names a b n\n11 1\n.names m q\n0 1\n.names a b m\n11 1\n.names q p\n0 1\n.names y r1\n1 1\n.names p r2\n1 1\n";

/// Puts the input ab at a place.
fn put(alloc: Global, points: &mut Points, place: usize, a: bool, b: bool) -> Result<(), AllocError>
    requires place { place < 1024 }
    requires inputs { points.old.inputs ≡ 2 }
    requires latches { points.old.latches ≡ 0 }
    ensures inputs { points.new.inputs ≡ points.old.inputs }
    ensures latches { points.new.latches ≡ points.old.latches }
{
    let input = Items::from_slice(alloc, &[a, b])?;
    points.put(place, &[], &input);
    Ok(())
}

/// The input is 01 at place 1, 10 at place 64, 11 at the last place, and else 00.
fn four_points(alloc: Global, net: &Netlist) -> Result<Points, AllocError>
    requires inputs { net.now.circuit.inputs ≡ 2 }
    requires latches { length net.now.circuit.latches ≡ 0 }
    ensures shape { IfOk result (ArePointsOf net.now.circuit) }
{
    let mut points = Points::new(alloc, net)?;
    put(alloc, &mut points, 1, false, true)?;
    put(alloc, &mut points, 64, true, false)?;
    put(alloc, &mut points, 1023, true, true)?;
    Ok(points)
}

/// One word of a net's lane at these points under a fault, on a bench that was settled without one before.
pub(crate) fn settled_word(
    mut bench: Bench,
    points: &Points,
    fault: Option<Fault>,
    net: NetId,
    word: usize,
) -> u64
    requires points { ArePointsOf bench.circuit points.now }
    requires watched { has_place bench.watched net.number ≡ true }
    requires word { word < 16 }
{
    bench.settle(points, None);
    bench.settle(points, fault.as_ref());
    let bits = bench.lane(net)[word];
    bench.close();
    bits
}

/// A bench that watches one net, and the four points.
pub(crate) fn bench_of(alloc: Global, net: &Netlist, watched: NetId) -> Result<Bench, AllocError>
    requires nets { nets net.now.circuit ≤ most_nets }
    requires watched { watched.number < nets net.now.circuit }
    ensures circuit { IfOk result (λ bench. bench.circuit ≡ net.now.circuit) }
    ensures watched { IfOk result (λ bench. has_place bench.watched watched.number ≡ true) }
{
    let watch = Items::from_slice(alloc, &[watched])?;
    Bench::open(alloc, net, &watch)
}

/// What is looked at: the fault, the net, the word of its lane, and the bits that it has to have.
type Look = (Option<Fault>, u32, usize, u64);

const Y_AT_ONE: Fault = Fault::Stem {
    net: NetId { number: 2 },
    value: true,
};

/// A pin of y, which is held at 1.
const A_AT_ONE: Fault = Fault::Pin {
    driver: NetId { number: 2 },
    index: 0,
    value: true,
};

const B_AT_ONE: Fault = Fault::Pin {
    driver: NetId { number: 2 },
    index: 1,
    value: true,
};

const Q_AT_ONE: Fault = Fault::Stem {
    net: NetId { number: 3 },
    value: true,
};

/// The output y is the conjunction of a and b.
static LANES: [Look; 11] = [
    (None, 2, 15, 1 << 63),
    (None, 2, 0, 0),
    (None, 6, 15, u64::MAX >> 1),
    (Some(Y_AT_ONE), 2, 7, u64::MAX),
    (Some(Y_AT_ONE), 6, 15, u64::MAX >> 1),
    (Some(A_AT_ONE), 2, 0, 2),
    (Some(A_AT_ONE), 2, 1, 0),
    (Some(B_AT_ONE), 2, 0, 0),
    (Some(B_AT_ONE), 2, 1, 1),
    (Some(Q_AT_ONE), 6, 0, 0),
    (Some(Q_AT_ONE), 5, 15, 1 << 63),
];

/// Whether a bench has what is looked at.
fn shows(alloc: Global, net: &Netlist, look: &Look) -> Option<bool> {
    let (fault, number, word, bits) = look;
    let watched = NetId { number: *number };
    if net.inputs() != 2 || net.latches() != 0 || *word >= 16 {
        return None;
    }
    if net.nets() > 1000 || *number as usize >= net.nets() {
        return None;
    }
    let points = four_points(alloc, net).ok()?;
    let bench = bench_of(alloc, net, watched).ok()?;
    Some(settled_word(bench, &points, *fault, watched, *word) == *bits)
}

/// The place of the first row that a bench of the netlist doesn't show, if there is one.
fn first_not_shown(alloc: Global, net: &Netlist) -> Option<Option<usize>> {
    for (place, look) in LANES.iter().enumerate() {
        if !shows(alloc, net, look)? {
            return Some(Some(place));
        }
    }
    Some(None)
}

/// The same of the conjunction.
fn first_wrong(alloc: Global) -> Option<Option<usize>> {
    let net = network_of(alloc, FIRST)?;
    first_not_shown(alloc, &net)
}

#[test]
fn lanes_of_a_netlist(rt: HostRuntime) -> Result<(), Fail> {
    assert_eq!(rt; first_wrong(rt.alloc()), Some(None));
    Ok(())
}

/// Nets that are watched, and the rows that the bench then has: the inputs that aren't watched have none, and a row is used again.
type Rows = (&'static [u8], &'static [NetId], usize);

static ROWS: [Rows; 3] = [
    (FIRST, &[NetId { number: 5 }, NetId { number: 6 }], 3),
    (SECOND, &[NetId { number: 7 }, NetId { number: 8 }], 3),
    (
        SECOND,
        &[
            NetId { number: 7 },
            NetId { number: 8 },
            NetId { number: 0 },
        ],
        4,
    ),
];

/// Whether all are nets.
pub(crate) fn are_nets(list: &[NetId], count: usize) -> bool
    ensures below { IsTrue result → All (λ net. net.number < count) list.now }
{
    list.iter().all(|net| (net.number as usize) < count)
}

/// How many rows a bench of the netlist takes.
fn rows_of(alloc: Global, net: &Netlist, watch: &[NetId]) -> Option<usize> {
    if net.nets() > 1000 || !are_nets(watch, net.nets()) {
        return None;
    }
    let watch = Items::from_slice(alloc, watch).ok()?;
    let bench = Bench::open(alloc, net, &watch).ok()?;
    let rows = bench.rows();
    bench.close();
    Some(rows)
}

fn count_of(alloc: Global, row: &Rows) -> Option<usize> {
    let (text, watch, _) = row;
    if text.len() > 1000 {
        return None;
    }
    let net = network_of(alloc, text)?;
    rows_of(alloc, &net, watch)
}

#[test]
fn rows_of_netlists(rt: HostRuntime) -> Result<(), Fail> {
    for row in &ROWS {
        assert_eq!(rt; count_of(rt.alloc(), row), Some(row.2));
    }
    Ok(())
}
