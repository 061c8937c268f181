//! Synthesis of a text that denotes a machine.
ghost use Rattle.std.specs.Prelude.{◌≡◌, ◌++◌, ◌≤◌, None, length, IfOk, IfErr, OnOk};
ghost use Rattle.fault_secure.specs.Logic.{States};
ghost use Rattle.tsc_net.specs.Names.{IsNumbering};
ghost use Rattle.code_checkers.specs.SelfChecking.{IsSelfChecking};
ghost use Rattle.machine_synth.specs.MachineBound.{machine_bound};
ghost use Rattle.machine_synth.specs.MachineNetlist.{IsMachineNetlist};
ghost use Rattle.answers.specs.Answers.{IsMachineSynthesis, IsSecureMachine};
ghost use Rattle.blif_write.specs.Writable.{IsWritable};
ghost use Rattle.text_sections.specs.Denoted.{inputs_in, machine_in, outputs_in};
ghost use Rattle.text_sections.specs.Refused.{IsRefusedBy};
ghost use Rattle.answers.specs.Refused.{limits_refusal, synth_machine_refusal};
ghost use Rattle.commands.specs.Words.{code_of};

use crate::network_synthesis::written_text;
use commands::MachineCode;
use kiss_read::KissText;
use refusals::{Limit, Refusal, TextRefusal};
use std::alloc::Global;
use structure_laws::{cell_secure_is_fault_secure, sound_is_cell_secure};
use text_sections::{machine_alone, text_lines};
use tsc_io::{Bytes, TextKey};
use tsc_net::PlannedNetlist;
use tsc_synth::{SynthError, synth_machine};

/// The text of a netlist under a code that is secure for the machine that `text` denotes.
pub fn synth_kiss(alloc: Global, code: MachineCode, text: &Bytes) -> Result<Bytes, Refusal>
    requires short { length text.now ≤ 67108864 }
    ensures answers { IfOk result (λ bytes. IsMachineSynthesis (code_of code) text.now bytes) }
    ensures allowed { OnOk result (synth_machine_refusal (code_of code) text.now ≡ None) }
    ensures refused { IfErr result (IsRefusedBy (synth_machine_refusal (code_of code) text.now)) }
{
    let made = machine_synthesis_in(alloc, code, text)?;
    match written_text(alloc, &made.net, &made.plan) {
        Ok(bytes) => Ok(bytes),
        Err(error) => Err(Refusal::Memory(error)),
    }
}

/// A netlist that is secure, under a code, for the machine that `text` denotes. A text can hold it.
fn machine_synthesis_in(
    alloc: Global,
    code: MachineCode,
    text: &Bytes,
) -> Result<PlannedNetlist, Refusal>
    requires short { length text.now ≤ 67108864 }
    ensures secure { IfOk result (λ s. IsSecureMachine (code_of code) (machine_in text.now) (inputs_in text.now) (outputs_in text.now) s.net s.plan) }
    ensures writable { IfOk result (λ s. IsWritable s.net) }
    ensures allowed { OnOk result (synth_machine_refusal (code_of code) text.now ≡ None) }
    ensures refused { IfErr result (IsRefusedBy (synth_machine_refusal (code_of code) text.now)) }
{
    sound_is_cell_secure();
    cell_secure_is_fault_secure();
    let lines = text_lines(alloc, text)?;
    let source = machine_alone(alloc, &lines)?;
    // What the machine keeps is known from here on.
    let _inputs = source.machine.inputs();
    let _outputs = source.machine.outputs();
    let made = machine_synthesis_of(alloc, code, &source, lines.key())?;
    // So is what its netlist keeps.
    let _nets = made.net.nets();
    Ok(made)
}

/// A netlist of the machine under a code, which is self-checking for it.
///
/// # Errors
///
/// The machine has too many states, its netlist would have too many covers, or want of memory.
pub fn machine_synthesis_of(
    alloc: Global,
    code: MachineCode,
    source: &KissText,
    key: TextKey,
) -> Result<PlannedNetlist, Refusal>
    requires distinct { IsNumbering (source.now.inputs ++ source.now.outputs) }
    requires inputs { length source.now.inputs ≡ source.now.machine.table.inputs }
    requires outputs { length source.now.outputs ≡ source.now.machine.table.outputs }
    ensures secure { IfOk result (λ s. IsSelfChecking (States source.now.machine.table) s.net.circuit s.plan) }
    ensures exact { IfOk result (λ s. IsMachineNetlist source.now.machine.table source.now.inputs source.now.outputs s.net s.plan) }
    ensures code { IfOk result (λ s. s.plan.code ≡ code_of code) }
    ensures covers { IfOk result (λ s. length s.net.circuit.nodes ≤ machine_bound source.now.machine.table (code_of code)) }
    ensures fits { OnOk result (limits_refusal (code_of code) source.now.machine.table ≡ None) }
    ensures refused { IfErr result (IsRefusedBy (limits_refusal (code_of code) source.now.machine.table)) }
{
    match synth_machine(
        alloc,
        &source.machine,
        &source.inputs,
        &source.outputs,
        key,
        code.code(),
    ) {
        Ok(made) => Ok(made),
        Err(SynthError::TooManyStates) => Err(Refusal::Text(TextRefusal::TooMany(Limit::States))),
        Err(SynthError::TooLarge) => Err(Refusal::Text(TextRefusal::TooMany(Limit::Covers))),
        Err(SynthError::Memory(error)) => Err(Refusal::Memory(error)),
    }
}
