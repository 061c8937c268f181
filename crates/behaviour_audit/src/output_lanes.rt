//! The points of a word at which the outputs aren't those that a source allows: an output is a lane.
ghost use Rattle.std.specs.Prelude.{◌≡◌, ℕ, ◌+◌, ◌*◌, ◌<◌, ◌≤◌, ◌%◌, length, IsSome, false};
ghost use Rattle.tsc_bits.specs.Bits.{bit_worth, bits_of};
ghost use Rattle.fault_secure.specs.Logic.{AllowsOutputs, LooseAllows, inputs_of, outputs_count};
ghost use Rattle.tsc_net.specs.SourceView.{logic_of, IsLooseSource};
ghost use Rattle.code_lanes.specs.Lanes.{column};
ghost use Rattle.behaviour_audit.specs.Points.{input_of};
ghost use Rattle.behaviour_audit.specs.Trial.{IsSoundSource, IsReferenceOf, ShowsInput, ShowsSource, WatchesOutputs};
ghost use Rattle.lane_sim.specs.declared.point.Point.{Point};
ghost use Rattle.lane_sim.specs.Places.{point_at};

use crate::lanes::{Lanes, differing, differing_where_bound};
use crate::machine_lanes::wrong_answers;
use crate::reading::read_output_lanes;
use crate::reference::{LooseWatch, Reference};
use tsc_net::{Loose, SourceMeaning};

/// The points of a word, from the place `base` on, at which the outputs aren't seen to be those that the source allows.
pub(crate) fn wrong_outputs(
    reference: &Reference,
    source: &SourceMeaning,
    version: u8,
    base: usize,
    word: usize,
    outputs: &[u64],
    chosen: &mut Lanes,
    free: &mut Lanes,
) -> u64
    requires reference { IsReferenceOf (logic_of source.now) reference.now }
    requires sound { IsSoundSource (logic_of source.now) }
    requires inputs { inputs_of (logic_of source.now) ≤ 20 }
    requires word { word < 16 }
    requires whole { base % 64 ≡ 0 }
    requires sized { length outputs.now ≡ outputs_count (logic_of source.now) }
    requires room { length chosen.old ≡ outputs_count (logic_of source.now) }
    requires free_room { length free.old ≡ outputs_count (logic_of source.now) }
    requires shows { ShowsSource (logic_of source.now) reference.now (word * 64) (point_at (inputs_of (logic_of source.now)) base) }
    ensures allowed { (k : ℕ) → k < 64 → bit_worth k result ≡ false → let point = point_at (inputs_of (logic_of source.now)) (base + k) in
        ShowsSource (logic_of source.now) reference.now (word * 64 + k) point
        → AllowsOutputs (logic_of source.now) version point.state (bits_of (inputs_of (logic_of source.now)) point.input) (column k outputs.now) }
    ensures sized { length chosen.new ≡ length chosen.old }
    ensures free_sized { length free.new ≡ length free.old }
{
    match source {
        SourceMeaning::Network(net) => {
            let Reference::Network(watch) = reference else {
                return u64::MAX;
            };
            read_output_lanes(watch, net, word, chosen);
            differing(outputs, chosen.as_slice())
        }
        SourceMeaning::Machine(machine) => wrong_answers(machine, version, base, outputs),
        SourceMeaning::Loose(loose) => {
            let Reference::Loose(watches) = reference else {
                return u64::MAX;
            };
            wrong_where_bound(watches, loose, version, word, outputs, chosen, free)
        }
    }
}

/// The points of a word at which the outputs aren't those that a source with free bits allows under a plan of this version.
fn wrong_where_bound(
    watches: &LooseWatch,
    loose: &Loose,
    version: u8,
    word: usize,
    outputs: &[u64],
    chosen: &mut Lanes,
    free: &mut Lanes,
) -> u64
    requires source { IsLooseSource loose.now.value.circuit loose.now.free.circuit }
    requires value { WatchesOutputs loose.now.value.circuit watches.now.value }
    requires free { WatchesOutputs loose.now.free.circuit watches.now.free }
    requires value_settled { IsSome watches.now.value.bench.lanes }
    requires free_settled { IsSome watches.now.free.bench.lanes }
    requires word { word < 16 }
    requires sized { length outputs.now ≡ length loose.now.value.circuit.outputs }
    requires room { length chosen.old ≡ length loose.now.value.circuit.outputs }
    requires free_room { length free.old ≡ length loose.now.value.circuit.outputs }
    ensures allowed { (k : ℕ) (point : Point) → k < 64 → bit_worth k result ≡ false → ShowsInput loose.now.value.circuit watches.now.value (word * 64 + k) point
        → ShowsInput loose.now.free.circuit watches.now.free (word * 64 + k) point
        → LooseAllows loose.now.value.circuit loose.now.free.circuit version (input_of loose.now.value.circuit.inputs point) (column k outputs.now) }
    ensures sized { length chosen.new ≡ length chosen.old }
    ensures free_sized { length free.new ≡ length free.old }
{
    read_output_lanes(&watches.value, &loose.value, word, chosen);
    read_output_lanes(&watches.free, &loose.free, word, free);
    differing_where_bound(version, outputs, chosen.as_slice(), free.as_slice())
}
