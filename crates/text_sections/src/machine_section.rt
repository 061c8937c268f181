//! Reading a text as a machine.
ghost use Rattle.std.specs.Prelude.{◌≡◌, ◌++◌, None, length, All, IfOk, IfErr, OnOk};
ghost use Rattle.tsc_net.specs.Names.{IsNumbering};
ghost use Rattle.table_lines.specs.Denotes.{HasWords, IsName, IsShort};
ghost use Rattle.kiss_read.specs.NamesText.{input_names, output_names};
ghost use Rattle.kiss_read.specs.Refusal.{refusal};
ghost use Rattle.kiss_read.specs.TableText.{machine_text};
ghost use Rattle.text_sections.specs.Denoted.{machine_lines};
ghost use Rattle.text_sections.specs.Refused.{IsRefusedBy, as_machine_refusal, machine_lines_refusal, machine_refusal};

use kiss_read::{KissError, KissText, read_kiss};
use refusals::{Refusal, TextRefusal};
use std::alloc::Global;
use tsc_text::{End, Lines};

/// The machine that the lines denote, all of which belong to it.
///
/// # Errors
///
/// The first refusal of the lines, or want of memory.
pub fn machine_alone(alloc: Global, lines: &Lines) -> Result<KissText, Refusal>
    ensures machine { IfOk result (λ text. text.machine ≡ machine_text (machine_lines lines.now)) }
    ensures inputs { IfOk result (λ text. text.inputs ≡ input_names (machine_lines lines.now)) }
    ensures outputs { IfOk result (λ text. text.outputs ≡ output_names (machine_lines lines.now)) }
    ensures distinct { IfOk result (λ text. IsNumbering (text.inputs ++ text.outputs)) }
    ensures count_inputs { IfOk result (λ text. length text.inputs ≡ text.machine.table.inputs) }
    ensures count_outputs { IfOk result (λ text. length text.outputs ≡ text.machine.table.outputs) }
    ensures short { IfOk result (λ text. All IsShort (text.inputs ++ text.outputs)) }
    ensures words { All HasWords lines.now → IfOk result (λ text. All IsName (text.inputs ++ text.outputs)) }
    ensures allowed { OnOk result (machine_lines_refusal lines.now ≡ None) }
    ensures refused { IfErr result (IsRefusedBy (machine_lines_refusal lines.now)) }
{
    let text = match first_machine(alloc, lines) {
        Ok(text) => text,
        Err(refusal) => return Err(refusal),
    };
    let next = lines.section(0, End::Kiss).next;
    if next < lines.len() {
        return Err(Refusal::Text(TextRefusal::AfterTheEnd {
            line: lines.number(next),
        }));
    }
    Ok(text)
}

/// The machine that the first section of the lines denotes.
///
/// # Errors
///
/// The first refusal of the lines, or want of memory.
pub fn first_machine(alloc: Global, lines: &Lines) -> Result<KissText, Refusal>
    ensures machine { IfOk result (λ text. text.machine ≡ machine_text (machine_lines lines.now)) }
    ensures inputs { IfOk result (λ text. text.inputs ≡ input_names (machine_lines lines.now)) }
    ensures outputs { IfOk result (λ text. text.outputs ≡ output_names (machine_lines lines.now)) }
    ensures distinct { IfOk result (λ text. IsNumbering (text.inputs ++ text.outputs)) }
    ensures count_inputs { IfOk result (λ text. length text.inputs ≡ text.machine.table.inputs) }
    ensures count_outputs { IfOk result (λ text. length text.outputs ≡ text.machine.table.outputs) }
    ensures short { IfOk result (λ text. All IsShort (text.inputs ++ text.outputs)) }
    ensures words { All HasWords lines.now → IfOk result (λ text. All IsName (text.inputs ++ text.outputs)) }
    ensures allowed { OnOk result (machine_refusal (refusal (machine_lines lines.now)) ≡ None) }
    ensures refused { IfErr result (IsRefusedBy (machine_refusal (refusal (machine_lines lines.now)))) }
{
    match read_kiss(alloc, lines, lines.section(0, End::Kiss)) {
        Ok(text) => Ok(text),
        Err(error) => Err(as_machine_refusal(error)),
    }
}

/// The refusal of a machine with this error.
fn as_machine_refusal(error: KissError) -> Refusal
    ensures refusal { result ≡ as_machine_refusal error }
{
    match error {
        KissError::Memory(error) => Refusal::Memory(error),
        error => Refusal::Text(TextRefusal::Kiss(error)),
    }
}
