//! Reading a text as a table of a network with free bits.
ghost use Rattle.std.specs.Prelude.{◌≡◌, ◌++◌, ◌≤◌, None, length, All, IfOk, IfErr, OnOk};
ghost use Rattle.fault_secure.specs.Circuit.{nets};
ghost use Rattle.tsc_net.specs.Names.{IsNumbering};
ghost use Rattle.tsc_net.specs.SourceView.{IsLooseSource};
ghost use Rattle.table_lines.specs.Denotes.{HasWords, IsName, IsShort};
ghost use Rattle.pla_read.specs.Loose.{IsFreeNet};
ghost use Rattle.pla_read.specs.Networks.{AnswersAs, input_names, output_names};
ghost use Rattle.pla_read.specs.TableText.{is_one, AreWide};
ghost use Rattle.text_sections.specs.Denoted.{frees_of, machine_lines, table_of, values_of};
ghost use Rattle.text_sections.specs.Refused.{IsRefusedBy, as_pla_refusal, first_table_refusal, pla_lines_refusal};

use pla_read::{PlaError, PlaText, read_pla};
use refusals::{Refusal, TextRefusal};
use std::alloc::Global;
use tsc_text::{End, Lines};

/// The source with free bits that the lines denote, all of which belong to it.
///
/// # Errors
///
/// The first refusal of the lines, or want of memory.
pub fn table_alone(alloc: Global, lines: &Lines) -> Result<PlaText, Refusal>
    ensures value { IfOk result (λ text. text.loose.value ≡ values_of lines.now) }
    ensures values { IfOk result (λ text. AnswersAs (is_one (table_of lines.now)) text.loose.value.circuit) }
    ensures free { IfOk result (λ text. text.loose.free ≡ frees_of lines.now) }
    ensures frees { IfOk result (λ text. IsFreeNet text.inputs text.outputs (table_of lines.now) text.loose.free) }
    ensures loose { IfOk result (λ text. IsLooseSource text.loose.value.circuit text.loose.free.circuit) }
    ensures wide { OnOk result (AreWide (table_of lines.now)) }
    ensures table_inputs { IfOk result (λ text. length text.inputs ≡ (table_of lines.now).inputs) }
    ensures table_outputs { IfOk result (λ text. length text.outputs ≡ (table_of lines.now).outputs) }
    ensures inputs { IfOk result (λ text. text.inputs ≡ input_names (machine_lines lines.now)) }
    ensures outputs { IfOk result (λ text. text.outputs ≡ output_names (machine_lines lines.now)) }
    ensures distinct { IfOk result (λ text. IsNumbering (text.inputs ++ text.outputs)) }
    ensures count_inputs { IfOk result (λ text. length text.inputs ≡ text.loose.value.circuit.inputs) }
    ensures count_outputs { IfOk result (λ text. length text.outputs ≡ length text.loose.value.circuit.outputs) }
    ensures few_inputs { IfOk result (λ text. length text.inputs ≤ 64) }
    ensures few_outputs { IfOk result (λ text. length text.outputs ≤ 64) }
    ensures few_nets { IfOk result (λ text. nets text.loose.value.circuit ≤ 128) }
    ensures short { IfOk result (λ text. All IsShort (text.inputs ++ text.outputs)) }
    ensures words { All HasWords lines.now → IfOk result (λ text. All IsName (text.inputs ++ text.outputs)) }
    ensures allowed { OnOk result (pla_lines_refusal lines.now ≡ None) }
    ensures refused { IfErr result (IsRefusedBy (pla_lines_refusal lines.now)) }
{
    let text = match first_table(alloc, lines) {
        Ok(text) => text,
        Err(refusal) => return Err(refusal),
    };
    let next = lines.section(0, End::Kiss).next;
    if next < lines.len() {
        return Err(Refusal::Text(TextRefusal::AfterTheEnd {
            line: lines.number(next),
        }));
    }
    Ok(text)
}

/// The source with free bits that the first section of the lines denotes.
///
/// # Errors
///
/// The first refusal of the lines, or want of memory.
pub fn first_table(alloc: Global, lines: &Lines) -> Result<PlaText, Refusal>
    ensures value { IfOk result (λ text. text.loose.value ≡ values_of lines.now) }
    ensures values { IfOk result (λ text. AnswersAs (is_one (table_of lines.now)) text.loose.value.circuit) }
    ensures free { IfOk result (λ text. text.loose.free ≡ frees_of lines.now) }
    ensures frees { IfOk result (λ text. IsFreeNet text.inputs text.outputs (table_of lines.now) text.loose.free) }
    ensures loose { IfOk result (λ text. IsLooseSource text.loose.value.circuit text.loose.free.circuit) }
    ensures wide { OnOk result (AreWide (table_of lines.now)) }
    ensures table_inputs { IfOk result (λ text. length text.inputs ≡ (table_of lines.now).inputs) }
    ensures table_outputs { IfOk result (λ text. length text.outputs ≡ (table_of lines.now).outputs) }
    ensures inputs { IfOk result (λ text. text.inputs ≡ input_names (machine_lines lines.now)) }
    ensures outputs { IfOk result (λ text. text.outputs ≡ output_names (machine_lines lines.now)) }
    ensures distinct { IfOk result (λ text. IsNumbering (text.inputs ++ text.outputs)) }
    ensures count_inputs { IfOk result (λ text. length text.inputs ≡ text.loose.value.circuit.inputs) }
    ensures count_outputs { IfOk result (λ text. length text.outputs ≡ length text.loose.value.circuit.outputs) }
    ensures few_inputs { IfOk result (λ text. length text.inputs ≤ 64) }
    ensures few_outputs { IfOk result (λ text. length text.outputs ≤ 64) }
    ensures few_nets { IfOk result (λ text. nets text.loose.value.circuit ≤ 128) }
    ensures short { IfOk result (λ text. All IsShort (text.inputs ++ text.outputs)) }
    ensures words { All HasWords lines.now → IfOk result (λ text. All IsName (text.inputs ++ text.outputs)) }
    ensures allowed { OnOk result (first_table_refusal lines.now ≡ None) }
    ensures refused { IfErr result (IsRefusedBy (first_table_refusal lines.now)) }
{
    match read_pla(alloc, lines, lines.section(0, End::Kiss)) {
        Ok(text) => Ok(text),
        Err(error) => Err(as_pla_refusal(error)),
    }
}

/// The refusal of a table with this error.
fn as_pla_refusal(error: PlaError) -> Refusal
    ensures refusal { result ≡ as_pla_refusal error }
{
    match error {
        PlaError::Memory(error) => Refusal::Memory(error),
        error => Refusal::Text(TextRefusal::Pla(error)),
    }
}
