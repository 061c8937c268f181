//! The rows of a small netlist, by hand.

use crate::bench::are_nets;
use lane_rows::assigned;
use shared_tests::network_of;
use std::alloc::Global;
use std::test::Fail;
use tsc_net::{NetId, Netlist};

/// y of a, its copy q, the copy's complement p, and the rails of y and p: the nets 0 to 5.
const TEXT: &[u8] =
    b".inputs a\n.outputs y r1 r2\n.names a y\n1 1\n.names a q\n1 1\n.names q p\n0 1\n.names y r1\n1 1\n.names p r2\n1 1\n";

/// Nets that are watched, how many rows there are then, and the row of the input.
type Row = (&'static [NetId], usize, Option<u32>);

const INPUT: NetId = NetId { number: 0 };

/// The rails.
const FIRST: NetId = NetId { number: 4 };

const SECOND: NetId = NetId { number: 5 };

static ROWS: [Row; 2] = [
    (&[FIRST, SECOND], 3, None),
    (&[FIRST, INPUT, SECOND, INPUT], 4, Some(0)),
];

/// Whether the netlist has these rows.
fn has_rows(alloc: Global, net: &Netlist, row: &Row) -> Option<bool> {
    let (watch, count, input) = row;
    if net.nets() != 6 || !are_nets(watch, net.nets()) {
        return None;
    }
    let given = assigned(alloc, net, watch).ok()?;
    let is_counted = given.count() == *count && given.row(INPUT).is_some() == input.is_some();
    Some(is_counted && given.rows()[0] == *input)
}

/// Whether each list of watched nets has the rows of its line.
fn all_have_rows(alloc: Global, net: &Netlist) -> Option<bool> {
    for row in &ROWS {
        if !has_rows(alloc, net, row)? {
            return Some(false);
        }
    }
    Some(true)
}

fn is_right(alloc: Global) -> Option<bool> {
    let net = network_of(alloc, TEXT)?;
    all_have_rows(alloc, &net)
}

#[test]
fn rows_of_an_answer(rt: HostRuntime) -> Result<(), Fail> {
    assert_eq!(rt; is_right(rt.alloc()), Some(true));
    Ok(())
}
