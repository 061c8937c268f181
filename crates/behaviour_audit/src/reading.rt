//! Settles a bench, and reads what it shows.
ghost use Rattle.std.specs.Prelude.{◌≡◌, ℕ, ◌+◌, ◌*◌, ◌<◌, true, false, length, map, All, IsSome};
ghost use Rattle.fault_secure.specs.Circuit.{bit};
ghost use Rattle.fault_secure.specs.CodePlan.{monitored};
ghost use Rattle.tsc_net.specs.Order.{has_place};
ghost use Rattle.tsc_net.specs.PlanView.{net_numbers};
ghost use Rattle.lane_sim.specs.Points.{point_input, point_state};
ghost use Rattle.behaviour_audit.specs.Points.{ShowsAt, ShowsStep, slot_bit, input_of, HasWord, HasOutputs};
ghost use Rattle.code_lanes.specs.Lanes.{column};
ghost use Rattle.behaviour_audit.specs.Trial.{IsWatchOf};
ghost use Rattle.lane_sim.specs.declared.point.Point.{Point};

use crate::lanes::{Lanes, read_lanes};
use crate::watch::Watch;
use lane_sim::{Bench, Point};
use tsc_cover::bit_at;
use tsc_net::{Bits, NetId, Netlist, Plan};

/// Settles a bench without a fault at the points that are put.
pub(crate) fn settle(watch: &mut Watch, net: &Netlist)
    requires watch { IsWatchOf net.now.circuit watch.old }
    ensures shows { (slot : ℕ) → slot < 1024 → ShowsAt net.now.circuit (point_input watch.old.points slot) (point_state watch.old.points slot) watch.new.bench slot }
    ensures settled { IsSome watch.new.bench.lanes }
    ensures watch { IsWatchOf net.now.circuit watch.new }
    ensures nets { watch.new.nets ≡ watch.old.nets }
{
    watch.bench.settle(&watch.points, None);
}

/// Reads the word of the step that a settled bench shows at a slot.
pub(crate) fn read_word(
    watch: &Watch,
    net: &Netlist,
    plan: &Plan,
    slot: usize,
    point: Point,
    word: &mut Bits,
)
    requires watch { IsWatchOf net.now.circuit watch.now }
    requires settled { IsSome watch.now.bench.lanes }
    requires nets { net_numbers watch.now.nets ≡ monitored net.now.circuit plan.now }
    requires slot { slot < 1024 }
    requires shows { ShowsStep net.now.circuit plan.now watch.now.bench slot point }
    requires sized { length word.old ≡ length watch.now.nets }
    ensures word { HasWord net.now.circuit plan.now point.state (input_of net.now.circuit.inputs point) word.new }
    ensures sized { length word.new ≡ length watch.now.nets }
{
    read_nets(&watch.bench, watch.nets.as_slice(), slot, word);
}

/// Reads the outputs that a settled bench of a network shows at a slot.
pub(crate) fn read_outputs(
    watch: &Watch,
    net: &Netlist,
    slot: usize,
    point: Point,
    outputs: &mut Bits,
)
    requires watch { IsWatchOf net.now.circuit watch.now }
    requires settled { IsSome watch.now.bench.lanes }
    requires nets { net_numbers watch.now.nets ≡ net.now.circuit.outputs }
    requires slot { slot < 1024 }
    requires shows { ShowsAt net.now.circuit (bit (input_of net.now.circuit.inputs point)) (λ _. false) watch.now.bench slot }
    requires sized { length outputs.old ≡ length net.now.circuit.outputs }
    ensures outputs { HasOutputs net.now.circuit (input_of net.now.circuit.inputs point) outputs.new }
    ensures sized { length outputs.new ≡ length net.now.circuit.outputs }
{
    read_nets(&watch.bench, watch.nets.as_slice(), slot, outputs);
}

/// Reads the words of the steps that a settled bench shows at 64 slots, one lane per monitored net.
pub(crate) fn read_words(watch: &Watch, net: &Netlist, plan: &Plan, word: usize, lanes: &mut Lanes)
    requires watch { IsWatchOf net.now.circuit watch.now }
    requires settled { IsSome watch.now.bench.lanes }
    requires nets { net_numbers watch.now.nets ≡ monitored net.now.circuit plan.now }
    requires word { word < 16 }
    requires sized { length lanes.old ≡ length watch.now.nets }
    ensures words { (k : ℕ) (point : Point) → k < 64 → ShowsStep net.now.circuit plan.now watch.now.bench (word * 64 + k) point
        → HasWord net.now.circuit plan.now point.state (input_of net.now.circuit.inputs point) (column k lanes.new) }
    ensures sized { length lanes.new ≡ length watch.now.nets }
{
    read_lanes(&watch.bench, watch.nets.as_slice(), word, lanes);
}

/// Reads the outputs that a settled bench of a network shows at 64 slots, one lane per output.
pub(crate) fn read_output_lanes(watch: &Watch, net: &Netlist, word: usize, lanes: &mut Lanes)
    requires watch { IsWatchOf net.now.circuit watch.now }
    requires settled { IsSome watch.now.bench.lanes }
    requires nets { net_numbers watch.now.nets ≡ net.now.circuit.outputs }
    requires word { word < 16 }
    requires sized { length lanes.old ≡ length net.now.circuit.outputs }
    ensures outputs { (k : ℕ) (point : Point) → k < 64 → ShowsAt net.now.circuit (bit (input_of net.now.circuit.inputs point)) (λ _. false) watch.now.bench (word * 64 + k)
        → HasOutputs net.now.circuit (input_of net.now.circuit.inputs point) (column k lanes.new) }
    ensures sized { length lanes.new ≡ length net.now.circuit.outputs }
{
    read_lanes(&watch.bench, watch.nets.as_slice(), word, lanes);
}

/// Reads the bits of watched nets at a slot.
fn read_nets(bench: &Bench, nets: &[NetId], slot: usize, bits: &mut Bits)
    requires slot { slot < 1024 }
    requires settled { IsSome bench.now.lanes }
    requires watched { All (λ net. has_place bench.now.watched net.number ≡ true) nets.now }
    requires sized { length bits.old ≡ length nets.now }
    ensures bits { bits.new ≡ map (λ net. slot_bit bench.now slot net.number) nets.now }
{
    for place in 0..nets.len() {
        bits.replace(place, slot_bit(bench, slot, nets[place]));
    }
}

/// The bit of a watched net at a slot.
fn slot_bit(bench: &Bench, slot: usize, net: NetId) -> bool
    requires slot { slot < 1024 }
    requires settled { IsSome bench.now.lanes }
    requires watched { has_place bench.now.watched net.number ≡ true }
    ensures bit { result ≡ slot_bit bench.now slot net.number }
{
    bit_at(bench.lane(net)[slot / 64], slot % 64)
}
