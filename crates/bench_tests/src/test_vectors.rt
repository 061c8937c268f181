//! The tests of small netlists, which a simulation of each fault at each point gave.
ghost use Rattle.fault_secure.specs.CodePlan.{IsPlanOf};

use shared_tests::{AND, TOGGLE, net_and_plan_of};
use std::alloc::{AllocError, Global};
use std::test::Fail;
use tsc_io::Bytes;
use tsc_net::PlannedNetlist;
use tsc_text::push_number;
use vectors::{Point, Tests, VecError, vectors};

const AND_POINTS: &[u8] =
    b"24 0.3 0.0 0.3 0.1 0.3 0.2 0.3 0.0 0.3 0.1 0.3 0.2 0.0 0.3 0.3 0.0 0.3 0.0 0.3 0.0 0.0 0.3 0.0 0.3 ";

/// A netlist with a gate that could be left out.
const REDUNDANT: &[u8] =
    b".model red\n.inputs a b\n.outputs y r1 r2\n#tsc 1 parity\n#tsc group y p\n.names a b n\n11 1\n.names a n y\n1- 1\n-1 1\n.names a p\n0 1\n.names y r1\n1 1\n.names p r2\n1 1\n";

const REDUNDANT_POINTS: &[u8] =
    b"19 - 0.0 - 0.1 - - 0.2 0.0 0.2 0.0 - 0.0 0.0 0.2 0.2 0.0 0.2 0.0 0.2 0.0 0.0 0.2 0.0 0.2 ";

const TOGGLE_POINTS: &[u8] =
    b"104 1.0 0.0 1.0 0.0 0.0 1.0 0.0 1.0 0.0 0.1 0.1 0.0 0.1 0.0 0.1 1.1 0.1 0.0 1.1 0.0 1.1 0.1 1.1 1.0 0.0 0.1 0.0 1.0 0.0 0.1 1.0 0.0 1.0 0.0 1.0 1.1 0.1 0.0 0.1 0.0 1.1 0.0 0.1 0.0 0.1 0.0 1.0 0.0 0.0 0.1 0.0 0.1 1.1 0.1 0.0 0.1 0.0 0.1 1.0 0.1 0.1 1.0 0.1 1.0 0.1 1.1 0.0 1.0 0.0 1.1 0.0 1.0 0.0 1.0 0.1 1.0 0.0 1.0 0.0 1.0 0.0 1.0 1.1 0.0 1.1 0.0 1.1 0.1 1.0 0.0 1.0 0.1 1.0 0.0 1.0 0.0 1.1 0.0 1.0 0.0 1.0 0.0 1.0 0.0 ";

/// An input that is an output, among 16 inputs, which give as many points as are allowed.
const MOST: &[u8] =
    b".inputs i0 i1 i2 i3 i4 i5 i6 i7 i8 i9 i10 i11 i12 i13 i14 i15\n.outputs i0 r1 r2\n#tsc 1 parity\n#tsc group i0 p\n.names i0 p\n0 1\n.names i0 r1\n1 1\n.names p r2\n1 1\n";

/// Each fault shows where the first input, the highest bit of a point's number, is 0, or where it is 1.
const MOST_POINTS: &[u8] =
    b"12 0.0 0.32768 0.32768 0.0 0.32768 0.0 0.32768 0.0 0.0 0.32768 0.0 0.32768 ";

/// The same with one input more.
const TOO_MANY: &[u8] =
    b".inputs i0 i1 i2 i3 i4 i5 i6 i7 i8 i9 i10 i11 i12 i13 i14 i15 i16\n.outputs i0 r1 r2\n#tsc 1 parity\n#tsc group i0 p\n.names i0 p\n0 1\n.names i0 r1\n1 1\n.names p r2\n1 1\n";

/// The tests of a netlist, if it is small enough.
fn tests_of(alloc: Global, read: &PlannedNetlist) -> Option<Result<Tests, VecError>>
    requires plan { IsPlanOf read.now.net.circuit read.now.plan }
{
    if read.net.latches() > 64 || read.net.nets() > 1000 {
        return None;
    }
    Some(vectors(alloc, &read.net, &read.plan))
}

/// How many faults a point exposes, and of each fault the first as a state, a dot and an input, or a dash.
fn written(alloc: Global, tests: &Tests) -> Result<Bytes, AllocError> {
    let mut text = Bytes::new(alloc);
    push_number(&mut text, tests.testable() as u64)?;
    text.push(b' ')?;
    for place in 0..tests.len() {
        push_test(&mut text, tests.get(place))?;
    }
    Ok(text)
}

fn push_test(text: &mut Bytes, test: Option<Point>) -> Result<(), AllocError> {
    match test {
        Some(point) => {
            push_number(text, point.state as u64)?;
            text.push(b'.')?;
            push_number(text, point.input)?;
        }
        None => text.push(b'-')?,
    }
    text.push(b' ')
}

/// Whether these are the tests of the netlist.
fn has_tests(alloc: Global, read: &PlannedNetlist, points: &[u8]) -> Option<bool>
    requires plan { IsPlanOf read.now.net.circuit read.now.plan }
{
    let tests = tests_of(alloc, read)?.ok()?;
    let text = written(alloc, &tests).ok()?;
    Some(text.as_slice() == points)
}

/// A netlist and its tests.
type Row = (&'static [u8], &'static [u8]);

static ROWS: [Row; 4] = [
    (AND, AND_POINTS),
    (REDUNDANT, REDUNDANT_POINTS),
    (TOGGLE, TOGGLE_POINTS),
    (MOST, MOST_POINTS),
];

fn is_right(alloc: Global, row: &Row) -> Option<bool> {
    let (text, points) = row;
    if text.len() > 2000 {
        return None;
    }
    let read = net_and_plan_of(alloc, text)?;
    has_tests(alloc, &read, points)
}

#[test]
fn tests_of_netlists(rt: HostRuntime) -> Result<(), Fail> {
    for row in &ROWS {
        assert_eq!(rt; is_right(rt.alloc(), row), Some(true));
    }
    Ok(())
}

fn are_too_many(tests: Result<Tests, VecError>) -> bool {
    matches!(tests, Err(VecError::TooManyPoints))
}

/// Whether a netlist with a point too many is refused for that.
fn is_refused(alloc: Global) -> Option<bool> {
    let read = net_and_plan_of(alloc, TOO_MANY)?;
    let tests = tests_of(alloc, &read)?;
    Some(are_too_many(tests))
}

#[test]
fn too_many_points(rt: HostRuntime) -> Result<(), Fail> {
    assert_eq!(rt; is_refused(rt.alloc()), Some(true));
    Ok(())
}
