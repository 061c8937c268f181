//! Settling a netlist again and again.
ghost use Rattle.std.specs.Prelude.{◌≡◌, ◌<◌, ◌≤◌, length, All, IfOk};
ghost use Rattle.fault_secure.specs.Circuit.{nets};
ghost use Rattle.tsc_net.specs.Limits.{most_nets};
ghost use Rattle.lane_sim.specs.Points.{ArePointsOf};

use crate::checksum::sum_of;
use crate::drawing::drawn_points;
use crate::reading::netlist_of;
use lane_sim::{Bench, Points};
use std::alloc::{AllocError, Global};
use tsc_io::Bytes;
use tsc_net::{Netlist, Nets};

/// The checksum of what the outputs of the netlist that a text begins with have at drawn points after so many settles and
/// one more. There is none where the text begins with no netlist that a bench takes, and for want of memory.
pub fn sum_of_text(alloc: Global, text: &Bytes, settles: u64) -> Option<u64>
    requires short { length text.now ≤ 67108864 }
{
    let net = netlist_of(alloc, text)?;
    sum_of_net(alloc, &net, settles).ok()
}

/// The checksum of what a netlist's outputs have at drawn points after so many settles and one more.
fn sum_of_net(alloc: Global, net: &Netlist, settles: u64) -> Result<u64, AllocError>
    requires latches { length net.now.circuit.latches ≡ 0 }
    requires small { nets net.now.circuit ≤ most_nets }
{
    let watch = outputs_of(alloc, net)?;
    let points = drawn_points(alloc, net)?;
    let mut bench = Bench::open(alloc, net, &watch)?;
    settle_often(&mut bench, &points, settles);
    bench.settle(&points, None);
    let sum = sum_of(&bench, watch.as_slice());
    bench.close();
    Ok(sum)
}

/// The outputs of a netlist.
fn outputs_of(alloc: Global, net: &Netlist) -> Result<Nets, AllocError>
    ensures within { IfOk result (All (λ output. output.number < nets net.now.circuit)) }
{
    // What the netlist keeps is known from here on.
    let _checked = net.nets();
    let watch = Nets::from_slice(alloc, net.outputs())?;
    Ok(watch)
}

/// Settles so many times.
fn settle_often(bench: &mut Bench, points: &Points, settles: u64)
    requires points { ArePointsOf bench.old.circuit points.now }
    ensures circuit { bench.new.circuit ≡ bench.old.circuit }
    ensures watched { bench.new.watched ≡ bench.old.watched }
{
    for _settle in 0..settles {
        bench.settle(points, None);
    }
}
