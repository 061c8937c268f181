//! Synthesis of a text that denotes a table of a network with free bits.
ghost use Rattle.std.specs.Prelude.{◌≡◌, ◌≤◌, None, length, IfOk, IfErr, OnOk};
ghost use Rattle.fault_secure.specs.Logic.Logic.{Loose as LooseLogic, Network};
ghost use Rattle.structure_laws.specs.LooseSource.{with_version};
ghost use Rattle.synth_ways.specs.Ways.{way_code};
ghost use Rattle.tsc_bits.specs.Lists.{AreApart};
ghost use Rattle.tsc_net.specs.SourceView.{IsLooseSource};
ghost use Rattle.code_checkers.specs.SelfChecking.{IsSelfChecking};
ghost use Rattle.tsc_synth.specs.WayNetlist.{IsNetlistOf};
ghost use Rattle.tsc_synth.specs.CoverBound.{cover_bound, is_too_large};
ghost use Rattle.blif_write.specs.Writable.{IsWritable};
ghost use Rattle.answers.specs.Answers.{AnswerTable, IsLooseSynthesis, IsSecureLoose};
ghost use Rattle.answers.specs.Refused.{size_refusal, synth_loose_refusal};
ghost use Rattle.text_sections.specs.Denoted.{frees_in, table_in, values_in};
ghost use Rattle.text_sections.specs.Refused.{IsRefusedBy};

use crate::network_synthesis::written_text;
use refusals::{Limit, Refusal, TextRefusal};
use std::alloc::Global;
use structure_laws::{cell_secure_is_fault_secure, sound_is_cell_secure};
use synth_ways::Way;
use text_sections::{table_alone, text_lines};
use tsc_io::Bytes;
use tsc_net::{Loose, PlannedNetlist};
use tsc_synth::{SynthError, synth_loose};

/// The text of a netlist, made in some way, that is secure for the network with free bits whose table `text` denotes.
pub fn synth_pla(alloc: Global, way: Way, text: &Bytes) -> Result<Bytes, Refusal>
    requires short { length text.now ≤ 67108864 }
    ensures answers { IfOk result (λ bytes. IsLooseSynthesis way text.now bytes) }
    ensures allowed { OnOk result (synth_loose_refusal way text.now ≡ None) }
    ensures refused { IfErr result (IsRefusedBy (synth_loose_refusal way text.now)) }
{
    let made = loose_synthesis_in(alloc, way, text)?;
    match written_text(alloc, &made.net, &made.plan) {
        Ok(bytes) => Ok(bytes),
        Err(error) => Err(Refusal::Memory(error)),
    }
}

/// A netlist, made in some way, that is secure for the network with free bits whose table `text` denotes. A text can hold it.
fn loose_synthesis_in(alloc: Global, way: Way, text: &Bytes) -> Result<PlannedNetlist, Refusal>
    requires short { length text.now ≤ 67108864 }
    ensures secure { IfOk result (λ s. IsSecureLoose way (values_in text.now) (frees_in text.now) s.net s.plan) }
    ensures tabled { OnOk result (AnswerTable (table_in text.now) (values_in text.now).circuit (frees_in text.now).circuit) }
    ensures writable { IfOk result (λ s. IsWritable s.net) }
    ensures allowed { OnOk result (synth_loose_refusal way text.now ≡ None) }
    ensures refused { IfErr result (IsRefusedBy (synth_loose_refusal way text.now)) }
{
    sound_is_cell_secure();
    cell_secure_is_fault_secure();
    let lines = text_lines(alloc, text)?;
    let source = table_alone(alloc, &lines)?;
    // What the network of the values keeps is known from here on.
    let _nets = source.loose.value.nets();
    let made = loose_synthesis_of(alloc, way, &source.loose)?;
    // So is what its netlist keeps.
    let _made_nets = made.net.nets();
    Ok(made)
}

/// A netlist, made in some way, that is self-checking for a network with free bits.
fn loose_synthesis_of(alloc: Global, way: Way, source: &Loose) -> Result<PlannedNetlist, Refusal>
    requires loose { IsLooseSource source.now.value.circuit source.now.free.circuit }
    requires few { length source.now.value.circuit.outputs ≤ 64 }
    requires once { AreApart source.now.value.circuit.outputs }
    ensures secure { IfOk result (λ s. IsSelfChecking (LooseLogic source.now.value.circuit source.now.free.circuit) s.net.circuit s.plan) }
    ensures chosen { IfOk result (λ s. IsSelfChecking (Network source.now.value.circuit) s.net.circuit (with_version 1 s.plan)) }
    ensures exact { IfOk result (λ s. IsNetlistOf way source.now.value s.net (with_version 1 s.plan)) }
    ensures version { IfOk result (λ s. s.plan.version ≡ 2) }
    ensures code { IfOk result (λ s. s.plan.code ≡ way_code way) }
    ensures covers { IfOk result (λ s. length s.net.circuit.nodes ≤ cover_bound way source.now.value.circuit) }
    ensures fits { OnOk result (size_refusal (is_too_large way source.now.value.circuit) ≡ None) }
    ensures refused { IfErr result (IsRefusedBy (size_refusal (is_too_large way source.now.value.circuit))) }
{
    match synth_loose(alloc, source, way) {
        Ok(made) => Ok(made),
        Err(SynthError::TooManyStates) => unreachable!(),
        Err(SynthError::TooLarge) => Err(Refusal::Text(TextRefusal::TooMany(Limit::Covers))),
        Err(SynthError::Memory(error)) => Err(Refusal::Memory(error)),
    }
}
