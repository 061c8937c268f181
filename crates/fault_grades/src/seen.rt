//! What a step shows, lane by lane: where the rails agree, and where an output isn't that of lane 0.
ghost use Rattle.std.specs.Prelude.{◌≡◌, ℕ, ◌<◌, not, map, All};
ghost use Rattle.fault_secure.specs.Circuit.{nets, bit};
ghost use Rattle.fault_secure.specs.FaultSecure.{equal_bits};
ghost use Rattle.tsc_net.specs.PlanView.{net_numbers};
ghost use Rattle.lane_sim.specs.Lanes.{HasLanes};
ghost use Rattle.lane_sim.specs.TwoPins.{differ};
ghost use Rattle.fault_lanes.specs.Bench.{valuation_of};
ghost use Rattle.fault_grades.specs.Grade.{agree_in};

use fault_lanes::FaultLanes;
use lane_sim::{constant, differ, join, load, signed};
use std::simd::Simd;
use tsc_cover::bit_at;
use tsc_net::{NetId, Plan};

/// Where the rails agree.
pub(crate) fn agreeing(bench: &FaultLanes, plan: &Plan) -> Simd<u64, 16>
    requires first { plan.now.rail1 < nets bench.now.circuit }
    requires second { plan.now.rail2 < nets bench.now.circuit }
    ensures lanes { HasLanes 16 result (λ lane. agree_in plan.now (valuation_of bench.now lane)) }
{
    let first = net_lanes(bench, plan.rail1);
    let second = net_lanes(bench, plan.rail2);
    signed(false, differ(first, second))
}

/// Where one of some nets hasn't its bit of lane 0.
pub(crate) fn wrong_lanes(bench: &FaultLanes, outputs: &[NetId]) -> Simd<u64, 16>
    requires within { All (λ net. net.number < nets bench.now.circuit) outputs.now }
    ensures lanes { HasLanes 16 result (λ lane. not (equal_bits (map (bit (valuation_of bench.now lane)) (net_numbers outputs.now)) (map (bit (valuation_of bench.now 0)) (net_numbers outputs.now)))) }
{
    let mut wrong = constant(false);
    for net in outputs {
        wrong = join(wrong, changed_lanes(bench, *net));
    }
    wrong
}

/// Where a net hasn't its bit of lane 0.
fn changed_lanes(bench: &FaultLanes, net: NetId) -> Simd<u64, 16>
    requires net { net.number < nets bench.now.circuit }
    ensures lanes { HasLanes 16 result (λ lane. differ (bit (valuation_of bench.now lane) net.number) (bit (valuation_of bench.now 0) net.number)) }
{
    differ(net_lanes(bench, net), constant(first_bit(bench, net)))
}

/// The bit of a net in lane 0.
fn first_bit(bench: &FaultLanes, net: NetId) -> bool
    requires net { net.number < nets bench.now.circuit }
    ensures bit { result ≡ bit (valuation_of bench.now 0) net.number }
{
    bit_at(bench.lanes(net)[0], 0)
}

/// The lanes of a net.
fn net_lanes(bench: &FaultLanes, net: NetId) -> Simd<u64, 16>
    requires net { net.number < nets bench.now.circuit }
    ensures lanes { HasLanes 16 result (λ lane. bit (valuation_of bench.now lane) net.number) }
{
    load(bench.lanes(net), 0)
}
