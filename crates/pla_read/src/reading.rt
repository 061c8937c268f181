//! Reading a table as a source with free bits.
ghost use Rattle.std.specs.Prelude.{◌≡◌, ℕ, ◌≤◌, ◌++◌, length, Option, Some, None, All, IfOk, IfErr, OnOk};
ghost use Rattle.std.specs.Option.{option_map};
ghost use Rattle.fault_secure.specs.Circuit.{nets};
ghost use Rattle.tsc_net.specs.Names.{IsNumbering};
ghost use Rattle.tsc_net.specs.NetlistOf.{netlist_of};
ghost use Rattle.tsc_net.specs.SourceView.{IsLooseSource};
ghost use Rattle.tsc_text.specs.Section.{section_lines, IsSectionOf};
ghost use Rattle.table_lines.specs.NamesText.{IsWrongBy};
ghost use Rattle.table_lines.specs.Denotes.{HasWords, IsName, IsShort};
ghost use Rattle.pla_read.specs.Selections.{count_in, frees_of};
ghost use Rattle.pla_read.specs.TableText.{is_one, table_text, AreWide};
ghost use Rattle.pla_read.specs.Networks.{input_names, output_names, value_text, AnswersAs};
ghost use Rattle.pla_read.specs.Loose.{free_text, IsFreeNet};
ghost use Rattle.pla_read.specs.Faults.{first_fault};
ghost use Rattle.pla_read.specs.Refusal.{last_number, refusal, wrong_names_in, IsRefusedBy};
ghost use Rattle.pla_read.specs.Shaped.{table_as, AreShaped, IsTable};
ghost use Rattle.pla_read.specs.declared.kinds.LineKind.TheVariants.{Inputs, Outputs};
ghost use Rattle.pla_read.specs.declared.error.PlaError.TheVariants.{Header};

use crate::directives::{last_number, line_of};
use crate::error::{PlaError, line_refusal};
use crate::kinds::LineKind;
use crate::networks::loose_of;
use crate::rows::{Heading, read_rows};
use crate::survey::survey_of;
use crate::table::Table;
use std::alloc::{AllocError, Global};
use table_lines::{NameLines, Names, NamesError, is_word, read_names, word_or_empty};
use tsc_net::{Loose, NameTexts};
use tsc_text::{Lines, Section, SectionLines};

/// What a section denotes.
#[derive(Drop)]
pub struct PlaText {
    /// The network of the values, and the one that tells which are free.
    pub loose: Loose,
    /// The names of its inputs, in order.
    pub inputs: NameTexts,
    /// The names of its outputs, in order.
    pub outputs: NameTexts,
}

/// Whether `-` among the outputs leaves them free.
fn frees(section: &SectionLines) -> bool
    ensures frees { result ≡ frees_of section.now }
{
    match line_of(LineKind::CoverType, section) {
        None => true,
        Some(line) => is_word(word_or_empty(&line, 1), b"fd"),
    }
}

/// The table of a section, over so many inputs and outputs.
fn read_table(
    alloc: Global,
    section: &SectionLines,
    inputs: usize,
    outputs: usize,
) -> Result<Table, AllocError>
    requires inputs { count_in Inputs section.now ≡ Some inputs }
    requires outputs { count_in Outputs section.now ≡ Some outputs }
    requires few_inputs { inputs ≤ 64 }
    requires few_outputs { outputs ≤ 64 }
    requires shaped { AreShaped inputs outputs section.now }
    ensures table { IfOk result (λ table. table_as table ≡ table_text section.now) }
    ensures fit { IfOk result IsTable }
    ensures inputs { IfOk result (λ table. table.inputs ≡ inputs) }
    ensures outputs { IfOk result (λ table. table.outputs ≡ outputs) }
{
    let heading = Heading {
        inputs,
        outputs,
        frees: frees(section),
    };
    let rows = read_rows(alloc, heading, section)?;
    Ok(Table {
        inputs,
        outputs,
        rows,
    })
}

/// The refusal of names.
fn names_refusal(error: NamesError) -> PlaError
    ensures refused { (wrong : Option ℕ) → IsWrongBy wrong error → IsRefusedBy (option_map Header wrong) result }
{
    match error {
        NamesError::Wrong { line } => PlaError::Header { line },
        NamesError::Memory(error) => PlaError::Memory(error),
    }
}

/// The names that the lines of a section give to so many inputs and outputs.
fn names_in(
    alloc: Global,
    section: &SectionLines,
    inputs: usize,
    outputs: usize,
) -> Result<Names, PlaError>
    requires inputs { count_in Inputs section.now ≡ Some inputs }
    requires outputs { count_in Outputs section.now ≡ Some outputs }
    requires few_inputs { inputs ≤ 64 }
    requires few_outputs { outputs ≤ 64 }
    ensures inputs { IfOk result (λ names. names.inputs ≡ input_names section.now) }
    ensures outputs { IfOk result (λ names. names.outputs ≡ output_names section.now) }
    ensures distinct { IfOk result (λ names. IsNumbering (names.inputs ++ names.outputs)) }
    ensures count_inputs { IfOk result (λ names. length names.inputs ≡ inputs) }
    ensures count_outputs { IfOk result (λ names. length names.outputs ≡ outputs) }
    ensures sound { OnOk result (wrong_names_in section.now ≡ None) }
    ensures refused { IfErr result (IsRefusedBy (option_map Header (wrong_names_in section.now))) }
{
    let at = NameLines {
        inputs: line_of(LineKind::InputNames, section),
        outputs: line_of(LineKind::OutputNames, section),
    };
    match read_names(alloc, &at, inputs, outputs) {
        Ok(names) => Ok(names),
        Err(error) => Err(names_refusal(error)),
    }
}

/// What the lines of a section denote, none of which has a fault, over so many inputs and outputs.
fn read_text(
    alloc: Global,
    section: &SectionLines,
    inputs: usize,
    outputs: usize,
) -> Result<PlaText, PlaError>
    requires clean { first_fault section.now ≡ None }
    requires inputs { count_in Inputs section.now ≡ Some inputs }
    requires some_inputs { 1 ≤ inputs }
    requires few_inputs { inputs ≤ 64 }
    requires outputs { count_in Outputs section.now ≡ Some outputs }
    requires some_outputs { 1 ≤ outputs }
    requires few_outputs { outputs ≤ 64 }
    ensures value { IfOk result (λ text. text.loose.value ≡ netlist_of (value_text section.now)) }
    ensures values { IfOk result (λ text. AnswersAs (is_one (table_text section.now)) text.loose.value.circuit) }
    ensures free { IfOk result (λ text. text.loose.free ≡ netlist_of (free_text section.now)) }
    ensures frees { IfOk result (λ text. IsFreeNet text.inputs text.outputs (table_text section.now) text.loose.free) }
    ensures inputs { IfOk result (λ text. text.inputs ≡ input_names section.now) }
    ensures outputs { IfOk result (λ text. text.outputs ≡ output_names section.now) }
    ensures distinct { IfOk result (λ text. IsNumbering (text.inputs ++ text.outputs)) }
    ensures loose { IfOk result (λ text. IsLooseSource text.loose.value.circuit text.loose.free.circuit) }
    ensures wide { OnOk result (AreWide (table_text section.now)) }
    ensures table_inputs { IfOk result (λ text. length text.inputs ≡ (table_text section.now).inputs) }
    ensures table_outputs { IfOk result (λ text. length text.outputs ≡ (table_text section.now).outputs) }
    ensures count_inputs { IfOk result (λ text. length text.inputs ≡ text.loose.value.circuit.inputs) }
    ensures count_outputs { IfOk result (λ text. length text.outputs ≡ length text.loose.value.circuit.outputs) }
    ensures few_inputs { IfOk result (λ text. length text.inputs ≤ 64) }
    ensures few_outputs { IfOk result (λ text. length text.outputs ≤ 64) }
    ensures few_nets { IfOk result (λ text. nets text.loose.value.circuit ≤ 128) }
    ensures short { IfOk result (λ text. All IsShort (text.inputs ++ text.outputs)) }
    ensures words { All HasWords section.now → IfOk result (λ text. All IsName (text.inputs ++ text.outputs)) }
    ensures sound { OnOk result (refusal section.now ≡ None) }
    ensures refused { IfErr result (IsRefusedBy (refusal section.now)) }
{
    let names = match names_in(alloc, section, inputs, outputs) {
        Ok(names) => names,
        Err(error) => return Err(error),
    };
    let table = match read_table(alloc, section, inputs, outputs) {
        Ok(table) => table,
        Err(error) => return Err(PlaError::Memory(error)),
    };
    let loose = match loose_of(alloc, section.key(), &names, &table) {
        Ok(loose) => loose,
        Err(error) => return Err(PlaError::Memory(error)),
    };
    let Names { inputs, outputs } = names;
    Ok(PlaText {
        loose,
        inputs,
        outputs,
    })
}

/// The refusal of a section without `.i` or `.o`.
fn no_heading(section: &SectionLines) -> PlaError
    ensures refusal { result ≡ Header (last_number section.now) }
{
    PlaError::Header {
        line: last_number(section),
    }
}

/// What a section denotes, with a name for each of its inputs and outputs, at most 64 of each. The names are all different, and each has
/// at most 255 bytes.
///
/// # Errors
///
/// In this order: the first line with a fault, and there the first fault in the order of `PlaError`; no `.i` or no `.o`, at the
/// last line; names that don't fit. Want of memory may come at any place.
pub fn read_pla(alloc: Global, lines: &Lines, section: Section) -> Result<PlaText, PlaError>
    requires section { IsSectionOf lines.now section }
    ensures value { IfOk result (λ text. text.loose.value ≡ netlist_of (value_text (section_lines lines.now section))) }
    ensures values { IfOk result (λ text. AnswersAs (is_one (table_text (section_lines lines.now section))) text.loose.value.circuit) }
    ensures free { IfOk result (λ text. text.loose.free ≡ netlist_of (free_text (section_lines lines.now section))) }
    ensures frees { IfOk result (λ text. IsFreeNet text.inputs text.outputs (table_text (section_lines lines.now section)) text.loose.free) }
    ensures loose { IfOk result (λ text. IsLooseSource text.loose.value.circuit text.loose.free.circuit) }
    ensures wide { OnOk result (AreWide (table_text (section_lines lines.now section))) }
    ensures table_inputs { IfOk result (λ text. length text.inputs ≡ (table_text (section_lines lines.now section)).inputs) }
    ensures table_outputs { IfOk result (λ text. length text.outputs ≡ (table_text (section_lines lines.now section)).outputs) }
    ensures inputs { IfOk result (λ text. text.inputs ≡ input_names (section_lines lines.now section)) }
    ensures outputs { IfOk result (λ text. text.outputs ≡ output_names (section_lines lines.now section)) }
    ensures distinct { IfOk result (λ text. IsNumbering (text.inputs ++ text.outputs)) }
    ensures count_inputs { IfOk result (λ text. length text.inputs ≡ text.loose.value.circuit.inputs) }
    ensures count_outputs { IfOk result (λ text. length text.outputs ≡ length text.loose.value.circuit.outputs) }
    ensures few_inputs { IfOk result (λ text. length text.inputs ≤ 64) }
    ensures few_outputs { IfOk result (λ text. length text.outputs ≤ 64) }
    ensures few_nets { IfOk result (λ text. nets text.loose.value.circuit ≤ 128) }
    ensures short { IfOk result (λ text. All IsShort (text.inputs ++ text.outputs)) }
    ensures words { All HasWords lines.now → IfOk result (λ text. All IsName (text.inputs ++ text.outputs)) }
    ensures sound { OnOk result (refusal (section_lines lines.now section) ≡ None) }
    ensures refused { IfErr result (IsRefusedBy (refusal (section_lines lines.now section))) }
{
    let section = SectionLines::of(lines, section);
    let survey = match survey_of(&section) {
        Ok(survey) => survey,
        Err(fault) => return Err(line_refusal(fault)),
    };
    let inputs = match survey.inputs {
        Some(inputs) => inputs,
        None => return Err(no_heading(&section)),
    };
    let outputs = match survey.outputs {
        Some(outputs) => outputs,
        None => return Err(no_heading(&section)),
    };
    read_text(alloc, &section, inputs, outputs)
}
