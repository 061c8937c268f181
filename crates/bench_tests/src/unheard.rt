//! The first points of small netlists at which something is wrong, which an evaluator of another kind gave.
ghost use Rattle.fault_secure.specs.CodePlan.{IsPlanOf};

use shared_tests::{AND, TOGGLE, net_and_plan_of};
use std::alloc::{AllocError, Global};
use std::test::Fail;
use tsc_io::Bytes;
use tsc_net::{Netlist, PlannedNetlist};
use tsc_text::push_number;
use unheard_cells::{PointReason, point_reason};

/// An output that neither rail looks at.
const LONE: &[u8] =
    b".inputs a\n.outputs y r1 r2\n#tsc 1 parity\n#tsc group y r2\n.names a y\n1 1\n.names a r1\n1 1\n.names a r2\n0 1\n";

/// A rail that is 1 at 111, as the other one is.
const LOUD: &[u8] =
    b".inputs a b d\n.outputs y r1 r2\n#tsc 1 parity\n#tsc group y p\n.names a b y\n11 1\n.names a b c\n11 1\n.names c p\n0 1\n.names a b d e\n111 1\n.names y r1\n1 1\n.names p e r2\n1- 1\n-1 1\n";

/// The machine that toggles, with a pin of its checker at another net: in its second state a next bit is unheard.
const DEAF: &[u8] =
    b".model machine\n.inputs i0\n.outputs o0 t0_5 t0_6\n#tsc 2 mofn\n#tsc check t0_4\n#tsc state 01\n#tsc state 10\n.latch t0_2 t0_0 0\n.latch t0_3 t0_1 1\n.names i0 t0_7\n0 1\n.names t0_1 i0 t0_8\n11 1\n.names t0_0 i0 t0_9\n11 1\n.names t0_1 t0_7 t0_10\n11 1\n.names t0_0 t0_7 t0_11\n11 1\n.names t0_8 t0_9 o0\n1- 1\n-1 1\n.names t0_8 t0_11 t0_2\n1- 1\n-1 1\n.names t0_10 t0_9 t0_3\n1- 1\n-1 1\n.names t0_10 t0_11 t0_4\n1- 1\n-1 1\n.names o0 t0_2 t0_12\n11 1\n.names t0_10 t0_3 t0_13\n11 1\n.names t0_12 t0_13 t0_14\n1- 1\n-1 1\n.names t0_14 t0_5\n1 1\n.names o0 t0_3 t0_15\n11 1\n.names t0_4 t0_2 t0_16\n11 1\n.names t0_15 t0_16 t0_17\n1- 1\n-1 1\n.names t0_17 t0_6\n1 1\n";

/// A netlist, and what is told of it.
type Row = (&'static [u8], &'static [u8]);

static ROWS: [Row; 5] = [
    (AND, b"yes"),
    (TOGGLE, b"yes"),
    (LONE, b"alarm y 1 0.0"),
    (LOUD, b"quiet 0.7"),
    (DEAF, b"alarm t0_3 1 1.0"),
];

/// The reason as words: the state and the input with a dot between them.
fn written(alloc: Global, net: &Netlist, reason: Option<PointReason>) -> Result<Bytes, AllocError> {
    let mut text = Bytes::new(alloc);
    match reason {
        None => text.append(b"yes")?,
        Some(PointReason::Quiet { state, input }) => {
            text.append(b"quiet ")?;
            push_point(&mut text, state, input)?;
        }
        Some(
            PointReason::Alarm {
                net: cell,
                value,
                state,
                input,
            },
        ) => {
            text.append(b"alarm ")?;
            if (cell.number as usize) < net.nets() {
                text.append(net.name(cell))?;
            }
            text.append(if value { b" 1 " } else { b" 0 " })?;
            push_point(&mut text, state, input)?;
        }
    }
    Ok(text)
}

fn push_point(text: &mut Bytes, state: usize, input: u64) -> Result<(), AllocError> {
    push_number(text, state as u64)?;
    text.push(b'.')?;
    push_number(text, input)
}

/// The reason of a netlist that is small.
fn reason_of(alloc: Global, read: &PlannedNetlist) -> Option<Option<PointReason>>
    requires plan { IsPlanOf read.now.net.circuit read.now.plan }
{
    let PlannedNetlist { net, plan } = read;
    if net.latches() > 4 || net.nets() > 1000 || net.inputs() > 4 || plan.listed_states() > 16 {
        return None;
    }
    point_reason(alloc, net, plan).ok()
}

fn is_right(alloc: Global, row: &Row) -> Option<bool> {
    let (text, told) = row;
    if text.len() > 2000 {
        return None;
    }
    let read = net_and_plan_of(alloc, text)?;
    let reason = reason_of(alloc, &read)?;
    let words = written(alloc, &read.net, reason).ok()?;
    Some(words.as_slice() == *told)
}

#[test]
fn reasons_of_netlists(rt: HostRuntime) -> Result<(), Fail> {
    for row in &ROWS {
        assert_eq!(rt; is_right(rt.alloc(), row), Some(true));
    }
    Ok(())
}
