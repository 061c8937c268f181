//! Synthesis of a text that denotes a network.
ghost use Rattle.std.specs.Prelude.{◌≡◌, ◌≤◌, None, length, IfOk, IfErr, OnOk};
ghost use Rattle.fault_secure.specs.CodePlan.{IsPlanOf};
ghost use Rattle.blif_write.specs.IsReadAs.{IsReadAs};
ghost use Rattle.blif_write.specs.Layout.{netlist_text};
ghost use Rattle.blif_write.specs.Writable.{IsWritable};
ghost use Rattle.tsc_bits.specs.Lists.{AreApart};
ghost use Rattle.tsc_synth.specs.CoverBound.{is_too_large};
ghost use Rattle.answers.specs.Answers.{IsSecureFor, IsSynthesis};
ghost use Rattle.text_sections.specs.Denoted.{netlist_in};
ghost use Rattle.text_sections.specs.Refused.{IsRefusedBy};
ghost use Rattle.answers.specs.Refused.{size_refusal, synth_refusal};

use blif_write::write_blif;
use refusals::{Limit, Refusal, TextRefusal};
use std::alloc::{AllocError, Global};
use structure_laws::{cell_secure_is_fault_secure, sound_is_cell_secure};
use synth_ways::Way;
use text_sections::read_source;
use tsc_io::Bytes;
use tsc_net::{Netlist, Plan, PlannedNetlist};
use tsc_synth::{SynthError, synth};

/// The text of a netlist, made in some way, that is secure for the network that `text` denotes.
pub fn synth_network(alloc: Global, way: Way, text: &Bytes) -> Result<Bytes, Refusal>
    requires short { length text.now ≤ 67108864 }
    ensures answers { IfOk result (λ bytes. IsSynthesis way text.now bytes) }
    ensures allowed { OnOk result (synth_refusal way text.now ≡ None) }
    ensures refused { IfErr result (IsRefusedBy (synth_refusal way text.now)) }
{
    let made = network_synthesis_in(alloc, way, text)?;
    match written_text(alloc, &made.net, &made.plan) {
        Ok(bytes) => Ok(bytes),
        Err(error) => Err(Refusal::Memory(error)),
    }
}

/// The text of a netlist with its plan, which is read again as them.
pub fn written_text(alloc: Global, net: &Netlist, plan: &Plan) -> Result<Bytes, AllocError>
    requires writable { IsWritable net.now }
    requires of_net { IsPlanOf net.now.circuit plan.now }
    ensures text { IfOk result (λ bytes. bytes ≡ netlist_text net.now plan.now) }
    ensures read { IfOk result (λ bytes. IsReadAs bytes net.now plan.now) }
{
    write_blif(alloc, net, plan)
}

/// A netlist, made in some way, that is secure for the network that `text` denotes. A text can hold it.
fn network_synthesis_in(alloc: Global, way: Way, text: &Bytes) -> Result<PlannedNetlist, Refusal>
    requires short { length text.now ≤ 67108864 }
    ensures secure { IfOk result (λ s. IsSecureFor way (netlist_in text.now) s.net s.plan) }
    ensures writable { IfOk result (λ s. IsWritable s.net) }
    ensures allowed { OnOk result (synth_refusal way text.now ≡ None) }
    ensures refused { IfErr result (IsRefusedBy (synth_refusal way text.now)) }
{
    let source = read_source(alloc, text)?;
    let made = network_synthesis_of(alloc, way, &source)?;
    Ok(made)
}

/// A netlist, made in some way, that is secure for a network. A text can hold it, since one can hold the network.
pub fn network_synthesis_of(
    alloc: Global,
    way: Way,
    source: &Netlist,
) -> Result<PlannedNetlist, Refusal>
    requires combinational { length source.now.circuit.latches ≡ 0 }
    requires few { length source.now.circuit.outputs ≤ 64 }
    requires once { AreApart source.now.circuit.outputs }
    requires writable { IsWritable source.now }
    ensures secure { IfOk result (λ s. IsSecureFor way source.now s.net s.plan) }
    ensures writable { IfOk result (λ s. IsWritable s.net) }
    ensures fits { OnOk result (size_refusal (is_too_large way source.now.circuit) ≡ None) }
    ensures refused { IfErr result (IsRefusedBy (size_refusal (is_too_large way source.now.circuit))) }
{
    sound_is_cell_secure();
    cell_secure_is_fault_secure();
    // What the two netlists keep is known where their nets are counted.
    let _source_nets = source.nets();
    match synth(alloc, source, way) {
        Ok(made) => {
            let _made_nets = made.net.nets();
            Ok(made)
        }
        Err(SynthError::TooManyStates) => unreachable!(),
        Err(SynthError::TooLarge) => Err(Refusal::Text(TextRefusal::TooMany(Limit::Covers))),
        Err(SynthError::Memory(error)) => Err(Refusal::Memory(error)),
    }
}
