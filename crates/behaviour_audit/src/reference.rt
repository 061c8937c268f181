//! The benches of a source, and what it answers.
ghost use Rattle.std.specs.Prelude.{◌≡◌, ℕ, ◌+◌, ◌%◌, ◌<◌, ◌≤◌, length, IfOk};
ghost use Rattle.tsc_bits.specs.Bits.{bits_of};
ghost use Rattle.fault_secure.specs.Circuit.{nets};
ghost use Rattle.fault_secure.specs.Logic.{Loose as OfLoose, inputs_of, outputs_count, states_of};
ghost use Rattle.tsc_net.specs.Limits.{most_nets};
ghost use Rattle.tsc_net.specs.SourceView.{logic_of};
ghost use Rattle.behaviour_audit.specs.Meaning.{FitsABench};
ghost use Rattle.behaviour_audit.specs.Points.{AreChosen, TellFree};
ghost use Rattle.behaviour_audit.specs.Trial.{IsSoundSource, IsReferenceOf, ShowsInput, ShowsSource, WatchesOutputs};
ghost use Rattle.lane_sim.specs.Places.{point_at};

use crate::outputs::write_answer;
use crate::putting::put_inputs;
use crate::reading::{read_outputs, settle};
use crate::watch::{Watch, watch_of};
use lane_sim::Point;
use std::alloc::{AllocError, Global};
use tsc_net::{Bits, Loose, Netlist, Nets, SourceMeaning};

/// The benches of a source.
pub(crate) enum Reference<'a> {
    /// A machine has none: its table answers.
    Table,
    /// That of a network, which watches its outputs.
    Network(Watch<'a>),
    /// Those of a source with free bits.
    Loose(LooseWatch<'a>),
}

/// The benches of a source with free bits, each of which watches its network's outputs.
pub(crate) struct LooseWatch<'a> {
    /// That of the chosen values.
    pub value: Watch<'a>,
    /// That of the network that tells where the values are free.
    pub free: Watch<'a>,
}

impl<'a> Reference<'a> {
    /// Ends the benches.
    pub(crate) fn close(self) {
        match self {
            Reference::Table => {}
            Reference::Network(watch) => watch.close(),
            Reference::Loose(watches) => watches.close(),
        }
    }
}

impl<'a> LooseWatch<'a> {
    /// Ends the benches.
    fn close(self) {
        let LooseWatch { value, free } = self;
        value.close();
        free.close();
    }
}

/// The benches of a source.
///
/// # Errors
///
/// Want of memory.
pub(crate) fn reference_of<'a>(
    alloc: Global,
    source: &'a SourceMeaning,
) -> Result<Reference<'a>, AllocError>
    requires source { FitsABench (logic_of source.now) }
    ensures reference { IfOk result (IsReferenceOf (logic_of source.now)) }
{
    match source {
        SourceMeaning::Network(net) => Ok(Reference::Network(watch_outputs(alloc, net)?)),
        SourceMeaning::Machine(_) => Ok(Reference::Table),
        SourceMeaning::Loose(loose) => watch_both(alloc, loose),
    }
}

/// The benches of a source with free bits.
fn watch_both<'a>(alloc: Global, loose: &'a Loose) -> Result<Reference<'a>, AllocError>
    requires source { FitsABench (OfLoose loose.now.value.circuit loose.now.free.circuit) }
    ensures reference { IfOk result (IsReferenceOf (OfLoose loose.now.value.circuit loose.now.free.circuit)) }
{
    let value = watch_outputs(alloc, &loose.value)?;
    match watch_outputs(alloc, &loose.free) {
        Ok(free) => Ok(Reference::Loose(LooseWatch { value, free })),
        Err(error) => {
            value.close();
            Err(error)
        }
    }
}

/// A bench of a network that watches its outputs.
fn watch_outputs<'a>(alloc: Global, net: &'a Netlist) -> Result<Watch<'a>, AllocError>
    requires latches { length net.now.circuit.latches ≡ 0 }
    requires nets { nets net.now.circuit ≤ most_nets }
    ensures watch { IfOk result (WatchesOutputs net.now.circuit) }
{
    // A checked netlist reads and shows its own nets.
    let _checked = net.nets();
    let watched = Nets::from_slice(alloc, net.outputs())?;
    watch_of(alloc, net, watched)
}

/// Settles the benches of a source at the inputs of the points at the places from `first` on and below `past`.
pub(crate) fn settle_source(
    reference: &mut Reference,
    source: &SourceMeaning,
    first: usize,
    past: usize,
)
    requires reference { IsReferenceOf (logic_of source.now) reference.old }
    requires sound { IsSoundSource (logic_of source.now) }
    requires inputs { inputs_of (logic_of source.now) ≤ 20 }
    requires whole { first % 64 ≡ 0 }
    requires order { first ≤ past }
    requires batch { past ≤ first + 1024 }
    ensures shows { (slot : ℕ) → first + slot < past → ShowsSource (logic_of source.now) reference.new slot (point_at (inputs_of (logic_of source.now)) (first + slot)) }
    ensures reference { IsReferenceOf (logic_of source.now) reference.new }
{
    match source {
        SourceMeaning::Network(net) => {
            if let Reference::Network(watch) = reference {
                settle_outputs(watch, net, first, past);
            }
        }
        SourceMeaning::Machine(_) => {}
        SourceMeaning::Loose(loose) => {
            if let Reference::Loose(watches) = reference {
                settle_outputs(&mut watches.value, &loose.value, first, past);
                settle_outputs(&mut watches.free, &loose.free, first, past);
            }
        }
    }
}

/// Settles the bench of a network at the inputs of the points at the places from `first` on and below `past`.
fn settle_outputs(watch: &mut Watch, net: &Netlist, first: usize, past: usize)
    requires watch { WatchesOutputs net.now.circuit watch.old }
    requires latches { length net.now.circuit.latches ≡ 0 }
    requires inputs { net.now.circuit.inputs ≤ 20 }
    requires whole { first % 64 ≡ 0 }
    requires order { first ≤ past }
    requires batch { past ≤ first + 1024 }
    ensures shows { (slot : ℕ) → first + slot < past → ShowsInput net.now.circuit watch.new slot (point_at net.now.circuit.inputs (first + slot)) }
    ensures watch { WatchesOutputs net.now.circuit watch.new }
{
    put_inputs(watch, net, first, past);
    settle(watch, net);
}

/// Writes the outputs that the source chooses at a point that is settled at a slot, and which of them are free.
pub(crate) fn choose(
    reference: &Reference,
    source: &SourceMeaning,
    slot: usize,
    point: Point,
    chosen: &mut Bits,
    free: &mut Bits,
)
    requires reference { IsReferenceOf (logic_of source.now) reference.now }
    requires sound { IsSoundSource (logic_of source.now) }
    requires slot { slot < 1024 }
    requires state { point.state < states_of (logic_of source.now) }
    requires shows { ShowsSource (logic_of source.now) reference.now slot point }
    requires sized { length chosen.old ≡ outputs_count (logic_of source.now) }
    requires room { length free.old ≡ outputs_count (logic_of source.now) }
    ensures chosen { AreChosen (logic_of source.now) point.state (bits_of (inputs_of (logic_of source.now)) point.input) chosen.new }
    ensures free { TellFree (logic_of source.now) (bits_of (inputs_of (logic_of source.now)) point.input) free.new }
    ensures sized { length chosen.new ≡ outputs_count (logic_of source.now) }
    ensures room { length free.new ≡ outputs_count (logic_of source.now) }
{
    match source {
        SourceMeaning::Network(net) => {
            if let Reference::Network(watch) = reference {
                read_outputs(watch, net, slot, point, chosen);
            }
        }
        SourceMeaning::Machine(machine) => write_answer(machine, point, chosen),
        SourceMeaning::Loose(loose) => {
            if let Reference::Loose(watches) = reference {
                read_outputs(&watches.value, &loose.value, slot, point, chosen);
                read_outputs(&watches.free, &loose.free, slot, point, free);
            }
        }
    }
}
