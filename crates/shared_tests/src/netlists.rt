//! Small netlists with their plans, for the tests of what reads a netlist.
ghost use Rattle.std.specs.Prelude.{◌≡◌, ◌≤◌, length, IfSome};
ghost use Rattle.fault_secure.specs.CodePlan.{IsPlanOf};

use blif_read::{BlifText, Kind, read_blif};
use std::alloc::Global;
use tsc_io::Bytes;
use tsc_net::{Netlist, PlannedNetlist};
use tsc_text::{Lines, Section};

/// A conjunction, its copy and the rails.
pub const AND: &[u8] =
    b".model and2\n.inputs a b\n.outputs y t0_2 t0_3\n#tsc 1 parity\n#tsc group y t0_1\n.names a b y\n11 1\n.names a b t0_0\n11 1\n.names t0_0 t0_1\n0 1\n.names y t0_2\n1 1\n.names t0_1 t0_3\n1 1\n";

/// A machine of two states that toggles at a 1.
pub const TOGGLE: &[u8] =
    b".model machine\n.inputs i0\n.outputs o0 t0_5 t0_6\n#tsc 2 mofn\n#tsc check t0_4\n#tsc state 01\n#tsc state 10\n.latch t0_2 t0_0 0\n.latch t0_3 t0_1 1\n.names i0 t0_7\n0 1\n.names t0_1 i0 t0_8\n11 1\n.names t0_0 i0 t0_9\n11 1\n.names t0_1 t0_7 t0_10\n11 1\n.names t0_0 t0_7 t0_11\n11 1\n.names t0_8 t0_9 o0\n1- 1\n-1 1\n.names t0_8 t0_11 t0_2\n1- 1\n-1 1\n.names t0_10 t0_9 t0_3\n1- 1\n-1 1\n.names t0_10 t0_11 t0_4\n1- 1\n-1 1\n.names o0 t0_2 t0_12\n11 1\n.names t0_4 t0_3 t0_13\n11 1\n.names t0_12 t0_13 t0_14\n1- 1\n-1 1\n.names t0_14 t0_5\n1 1\n.names o0 t0_3 t0_15\n11 1\n.names t0_4 t0_2 t0_16\n11 1\n.names t0_15 t0_16 t0_17\n1- 1\n-1 1\n.names t0_17 t0_6\n1 1\n";

/// The netlist with its plan that a text denotes, or nothing where the text denotes none or memory was missing.
pub fn net_and_plan_of(alloc: Global, text: &[u8]) -> Option<PlannedNetlist>
    requires short { length text.now ≤ 67108864 }
    ensures plan { IfSome result (λ read. IsPlanOf read.net.circuit read.plan) }
{
    let BlifText {
        net,
        plan,
        clock: _,
    } = section_of(alloc, text, Kind::Netlist)?;
    let plan = plan?;
    Some(PlannedNetlist { net, plan })
}

/// The network that a text denotes, or nothing where the text denotes none or memory was missing.
pub fn network_of(alloc: Global, text: &[u8]) -> Option<Netlist>
    requires short { length text.now ≤ 67108864 }
{
    let BlifText { net, .. } = section_of(alloc, text, Kind::Source)?;
    Some(net)
}

/// What a text denotes as one section of this kind.
fn section_of(alloc: Global, text: &[u8], kind: Kind) -> Option<BlifText>
    requires short { length text.now ≤ 67108864 }
    ensures plan { kind ≡ Kind.Netlist → IfSome result (λ read. IfSome read.plan (IsPlanOf read.net.circuit)) }
{
    let bytes = Bytes::from_slice(alloc, text).ok()?;
    let lines = Lines::of(alloc, &bytes).ok()?;
    section_in(alloc, &lines, kind)
}

/// What all lines denote as one section of this kind.
fn section_in(alloc: Global, lines: &Lines, kind: Kind) -> Option<BlifText>
    ensures plan { kind ≡ Kind.Netlist → IfSome result (λ read. IfSome read.plan (IsPlanOf read.net.circuit)) }
{
    let section = Section {
        first: 0,
        past: lines.len(),
        next: lines.len(),
    };
    match read_blif(alloc, lines, section, kind) {
        Ok(read) => Some(read),
        Err(_) => None,
    }
}
