//! Reading a state machine.
ghost use Rattle.std.specs.Prelude.{◌≡◌, ◌≤◌, ◌++◌, length, Some, None, All, IfOk, IfErr, OnOk};
ghost use Rattle.tsc_net.specs.Names.{IsNumbering};
ghost use Rattle.kiss_read.specs.Selections.{count_in, states_of_lines};
ghost use Rattle.kiss_read.specs.TableText.{machine_text};
ghost use Rattle.kiss_read.specs.NamesText.{input_names, output_names};
ghost use Rattle.kiss_read.specs.Faults.{first_fault};
ghost use Rattle.kiss_read.specs.Refusal.{refusal, IsRefusedBy};
ghost use Rattle.table_lines.specs.Denotes.{HasWords, IsName, IsShort};
ghost use Rattle.tsc_text.specs.Section.{section_lines, IsSectionOf};
ghost use Rattle.kiss_read.specs.declared.kinds.LineKind.TheVariants.{Inputs, Outputs};

use crate::error::KissError;
use crate::machines::read_machine;
use crate::names::names_in;
use crate::survey::survey_of;
use std::alloc::Global;
use table_lines::Names;
use tsc_net::{Machine, NameTable, NameTexts};
use tsc_text::{Lines, Section, SectionLines};

/// What a section denotes.
#[derive(Drop)]
pub struct KissText {
    /// The machine.
    pub machine: Machine,
    /// The names of its inputs, in order.
    pub inputs: NameTexts,
    /// The names of its outputs, in order.
    pub outputs: NameTexts,
}

/// What the lines of a section denote, none of which has a fault, over so many inputs and outputs and with these states.
fn read_text(
    alloc: Global,
    section: &SectionLines,
    states: &NameTable,
    inputs: usize,
    outputs: usize,
) -> Result<KissText, KissError>
    requires clean { first_fault section.now ≡ None }
    requires states { states.now ≡ states_of_lines section.now }
    requires few_states { length states.now ≤ 4096 }
    requires inputs { count_in Inputs section.now ≡ Some inputs }
    requires some_inputs { 1 ≤ inputs }
    requires few_inputs { inputs ≤ 64 }
    requires outputs { count_in Outputs section.now ≡ Some outputs }
    requires some_outputs { 1 ≤ outputs }
    requires few_outputs { outputs ≤ 64 }
    ensures machine { IfOk result (λ text. text.machine ≡ machine_text section.now) }
    ensures inputs { IfOk result (λ text. text.inputs ≡ input_names section.now) }
    ensures outputs { IfOk result (λ text. text.outputs ≡ output_names section.now) }
    ensures distinct { IfOk result (λ text. IsNumbering (text.inputs ++ text.outputs)) }
    ensures count_inputs { IfOk result (λ text. length text.inputs ≡ text.machine.table.inputs) }
    ensures count_outputs { IfOk result (λ text. length text.outputs ≡ text.machine.table.outputs) }
    ensures short { IfOk result (λ text. All IsShort (text.inputs ++ text.outputs)) }
    ensures words { All HasWords section.now → IfOk result (λ text. All IsName (text.inputs ++ text.outputs)) }
    ensures sound { OnOk result (refusal section.now ≡ None) }
    ensures refused { IfErr result (IsRefusedBy (refusal section.now)) }
{
    let names = match names_in(alloc, section, inputs, outputs) {
        Ok(names) => names,
        Err(error) => return Err(error),
    };
    let machine = match read_machine(alloc, section, states, inputs, outputs) {
        Ok(machine) => machine,
        Err(error) => return Err(error),
    };
    let Names { inputs, outputs } = names;
    Ok(KissText {
        machine,
        inputs,
        outputs,
    })
}

/// What a section denotes, with a name for each input and each output. The names are all different, and each has at most 255 bytes.
///
/// # Errors
///
/// In this order: the first line with a fault, and there the first fault in the order of `KissError`; names that don't fit; no
/// row that names a state; a reset state that no row names; the first row that conflicts with an earlier one. Want of memory
/// may come at any place.
pub fn read_kiss(alloc: Global, lines: &Lines, section: Section) -> Result<KissText, KissError>
    requires section { IsSectionOf lines.now section }
    ensures machine { IfOk result (λ text. text.machine ≡ machine_text (section_lines lines.now section)) }
    ensures inputs { IfOk result (λ text. text.inputs ≡ input_names (section_lines lines.now section)) }
    ensures outputs { IfOk result (λ text. text.outputs ≡ output_names (section_lines lines.now section)) }
    ensures distinct { IfOk result (λ text. IsNumbering (text.inputs ++ text.outputs)) }
    ensures count_inputs { IfOk result (λ text. length text.inputs ≡ text.machine.table.inputs) }
    ensures count_outputs { IfOk result (λ text. length text.outputs ≡ text.machine.table.outputs) }
    ensures short { IfOk result (λ text. All IsShort (text.inputs ++ text.outputs)) }
    ensures words { All HasWords lines.now → IfOk result (λ text. All IsName (text.inputs ++ text.outputs)) }
    ensures sound { OnOk result (refusal (section_lines lines.now section) ≡ None) }
    ensures refused { IfErr result (IsRefusedBy (refusal (section_lines lines.now section))) }
{
    let section = SectionLines::of(lines, section);
    let survey = match survey_of(alloc, &section) {
        Ok(survey) => survey,
        Err(error) => return Err(error),
    };
    let inputs = match survey.inputs {
        Some(inputs) => inputs,
        None => return Err(KissError::NoRows),
    };
    let outputs = match survey.outputs {
        Some(outputs) => outputs,
        None => return Err(KissError::NoRows),
    };
    read_text(alloc, &section, &survey.states, inputs, outputs)
}
