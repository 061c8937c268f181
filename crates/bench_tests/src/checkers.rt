//! The checker of a small plan, worked out by hand.

use code_checkers::{CheckGate, CheckGates, checker};
use shared_tests::net_and_plan_of;
use std::alloc::Global;
use std::test::Fail;

/// Two outputs, each an input, and two checks, of which two are ones together.
const TWO_AND_TWO: &[u8] =
    b".inputs a b\n.outputs a b r1 r2\n#tsc 1 mofn\n#tsc check p q\n.names a p\n0 1\n.names b q\n0 1\n.names a r1\n1 1\n.names p r2\n1 1\n";

/// What each threshold's gates join, and the rails.
static GATES: [(usize, CheckGate); 4] = [
    (6, CheckGate::And { a: 2, b: 5 }),
    (7, CheckGate::Buf { a: 6 }),
    (10, CheckGate::Or { a: 8, b: 9 }),
    (11, CheckGate::Buf { a: 10 }),
];

/// Whether these are twelve gates with the rails at 7 and 11, and those of the list.
fn are_twelve(made: &CheckGates) -> bool {
    made.len() == 12
        && (made.rail1(), made.rail2()) == (7, 11)
        && GATES.iter().all(|(place, gate)| *place < made.len() && made.get(*place) == *gate)
}

/// Whether the checker of the plan is these gates.
fn is_right(alloc: Global) -> Option<bool> {
    let read = net_and_plan_of(alloc, TWO_AND_TWO)?;
    let made = checker(alloc, &read.plan).ok()?;
    Some(are_twelve(&made))
}

/// The thresholds of the outputs and of the checks are written once: at least one of each pair for the first rail, and both of one
/// pair for the second.
#[test]
fn thresholds_of_two(rt: HostRuntime) -> Result<(), Fail> {
    assert_eq!(rt; is_right(rt.alloc()), Some(true));
    Ok(())
}
