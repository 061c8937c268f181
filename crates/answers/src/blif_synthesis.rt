//! Synthesis of a BLIF text, which two copies take with registers too.
ghost use Rattle.std.specs.Prelude.{◌≡◌, ◌≤◌, ℕ, List, None, length, IfOk, IfErr, OnOk};
ghost use Rattle.blif_write.specs.Told.{IsTellable, IsToldClock};
ghost use Rattle.blif_write.specs.Writable.{IsWritable};
ghost use Rattle.synth_ways.specs.declared.way.Way.TheVariants.{Duplex};
ghost use Rattle.tsc_bits.specs.Lists.{AreApart};
ghost use Rattle.tsc_net.specs.PlanView.{net_numbers};
ghost use Rattle.tsc_synth.specs.CoverBound.{is_too_large, is_too_large_twin};
ghost use Rattle.answers.specs.Answers.{IsBlifSynthesis, IsSynthesis};
ghost use Rattle.answers.specs.TwinAnswers.{IsRegisterSynthesis, IsTwinAnswer, IsTwinFor};
ghost use Rattle.answers.specs.Refused.{blif_refusal, size_refusal, twin_refusal};
ghost use Rattle.text_sections.specs.Denoted.{clock_in, netlist_in};
ghost use Rattle.text_sections.specs.Refused.{IsRefusedBy};

use crate::network_synthesis::{network_synthesis_of, synth_network, written_text};
use blif_read::BlifText;
use blif_write::write_registers;
use refusals::{Limit, Refusal, TextRefusal};
use std::alloc::Global;
use synth_ways::Way;
use text_sections::read_registers;
use tsc_io::Bytes;
use tsc_net::Netlist;
use tsc_synth::{SynthError, synth_registers};
use twin_synth::TwinNetlist;

/// The text of a netlist, made in some way, that is secure for the network that `text` denotes; of two copies also for one with registers.
pub fn synth_blif(alloc: Global, way: Way, text: &Bytes) -> Result<Bytes, Refusal>
    requires short { length text.now ≤ 67108864 }
    ensures answers { IfOk result (λ bytes. IsBlifSynthesis way text.now bytes) }
    ensures allowed { OnOk result (blif_refusal way text.now ≡ None) }
    ensures refused { IfErr result (IsRefusedBy (blif_refusal way text.now)) }
{
    match way {
        Way::Parity => synth_network(alloc, Way::Parity, text),
        Way::Duplex => synth_twin(alloc, false, text),
        Way::Berger => synth_network(alloc, Way::Berger, text),
        Way::MOutOfN => synth_network(alloc, Way::MOutOfN, text),
    }
}

/// The text of a netlist of two copies that is secure for the network, with registers or without, that `text` denotes. Its registers may be
/// watched.
pub fn synth_twin(alloc: Global, watching: bool, text: &Bytes) -> Result<Bytes, Refusal>
    requires short { length text.now ≤ 67108864 }
    ensures answers { IfOk result (λ bytes. IsTwinAnswer watching text.now bytes) }
    ensures allowed { OnOk result (twin_refusal watching text.now ≡ None) }
    ensures refused { IfErr result (IsRefusedBy (twin_refusal watching text.now)) }
{
    let source = read_registers(alloc, text)?;
    if source.net.latches() == 0 {
        network_text(alloc, &source.net)
    } else {
        registers_text(alloc, watching, &source)
    }
}

/// The text of the duplex netlist of a network.
fn network_text(alloc: Global, source: &Netlist) -> Result<Bytes, Refusal>
    requires combinational { length source.now.circuit.latches ≡ 0 }
    requires few { length source.now.circuit.outputs ≤ 64 }
    requires once { AreApart source.now.circuit.outputs }
    requires writable { IsWritable source.now }
    ensures answers { (text : List ℕ) → netlist_in text ≡ source.now → IfOk result (IsSynthesis Duplex text) }
    ensures fits { OnOk result (size_refusal (is_too_large Duplex source.now.circuit) ≡ None) }
    ensures refused { IfErr result (IsRefusedBy (size_refusal (is_too_large Duplex source.now.circuit))) }
{
    let made = network_synthesis_of(alloc, Way::Duplex, source)?;
    match written_text(alloc, &made.net, &made.plan) {
        Ok(bytes) => Ok(bytes),
        Err(error) => Err(Refusal::Memory(error)),
    }
}

/// The text of the netlist of two copies of a source with registers.
fn registers_text(alloc: Global, watching: bool, source: &BlifText) -> Result<Bytes, Refusal>
    requires latches { length source.now.net.circuit.latches ≤ 16384 }
    requires few { length source.now.net.circuit.outputs ≤ 64 }
    requires once { AreApart source.now.net.circuit.outputs }
    requires tellable { IsTellable source.now.net }
    requires told { IsToldClock source.now.clock }
    ensures answers { (text : List ℕ) → netlist_in text ≡ source.now.net → clock_in text ≡ source.now.clock → IfOk result (IsRegisterSynthesis watching text) }
    ensures fits { OnOk result (size_refusal (is_too_large_twin watching source.now.net.circuit) ≡ None) }
    ensures refused { IfErr result (IsRefusedBy (size_refusal (is_too_large_twin watching source.now.net.circuit))) }
{
    let made = twin_of(alloc, watching, source)?;
    match write_registers(
        alloc,
        &made.net,
        &made.plan,
        made.watch.as_slice(),
        &source.clock,
    ) {
        Ok(bytes) => Ok(bytes),
        Err(error) => Err(Refusal::Memory(error)),
    }
}

/// The netlist of two copies of a source with registers, and its plan. A text tells it, since one tells the source.
fn twin_of(alloc: Global, watching: bool, source: &BlifText) -> Result<TwinNetlist, Refusal>
    requires latches { length source.now.net.circuit.latches ≤ 16384 }
    requires few { length source.now.net.circuit.outputs ≤ 64 }
    requires once { AreApart source.now.net.circuit.outputs }
    requires tellable { IsTellable source.now.net }
    ensures secure { IfOk result (λ t. IsTwinFor watching source.now.net source.now.clock t.net t.plan (net_numbers t.watch)) }
    ensures tellable { IfOk result (λ t. IsTellable t.net) }
    ensures fits { OnOk result (size_refusal (is_too_large_twin watching source.now.net.circuit) ≡ None) }
    ensures refused { IfErr result (IsRefusedBy (size_refusal (is_too_large_twin watching source.now.net.circuit))) }
{
    // What the two netlists keep is known where their nets are counted.
    let _source_nets = source.net.nets();
    match synth_registers(alloc, &source.net, &source.clock, watching) {
        Ok(made) => {
            let _made_nets = made.net.nets();
            Ok(made)
        }
        Err(SynthError::TooManyStates) => unreachable!(),
        Err(SynthError::TooLarge) => Err(Refusal::Text(TextRefusal::TooMany(Limit::Covers))),
        Err(SynthError::Memory(error)) => Err(Refusal::Memory(error)),
    }
}
