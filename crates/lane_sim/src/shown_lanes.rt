//! What nets have under a fault, written net after net.
ghost use Rattle.std.specs.Prelude.{◌≡◌, ◌*◌, ◌<◌, length, All};
ghost use Rattle.fault_secure.specs.Circuit.{nets};
ghost use Rattle.tsc_net.specs.Fault.{stuck_at_or_none};
ghost use Rattle.tsc_net.specs.PlanView.{net_numbers};
ghost use Rattle.lane_sim.specs.Points.{ArePointsOf};
ghost use Rattle.lane_sim.specs.Again.{HoldsRows};
ghost use Rattle.lane_sim.specs.FaultBench.{HaveLanesUnder};
ghost use Rattle.lane_sim.specs.FaultBenchView.{WatchesNodes};

use crate::fault_bench::lanes_under;
use crate::lanes::store;
use crate::points::Points;
use crate::program::Program;
use crate::row_block::RowBlock;
use tsc_net::{Fault, NetId};

/// Writes the lanes of some nets, where the rows have what the nodes' nets have under the fault, if there is one.
pub(crate) fn write_lanes(
    program: &Program,
    points: &Points,
    fault: Option<Fault>,
    shown: &[NetId],
    block: &RowBlock,
    lanes: &mut [u64],
)
    requires points { ArePointsOf program.now.circuit points.now }
    requires rows { length block.now ≡ program.now.rows.count * 16 }
    requires watches { WatchesNodes program.now }
    requires held { HoldsRows program.now (stuck_at_or_none fault) points.now block.now 0 (length program.now.circuit.nodes) }
    requires shown { All (λ net. net.number < nets program.now.circuit) shown.now }
    requires room { length lanes.old ≡ length shown.now * 16 }
    ensures lanes { HaveLanesUnder program.now.circuit (stuck_at_or_none fault) points.now (net_numbers shown.now) (length shown.now) lanes.new }
    ensures room { length lanes.new ≡ length lanes.old }
{
    for place in 0..shown.len() {
        let net = lanes_under(program, points, fault, shown[place], block);
        store(lanes, place, net);
    }
}
