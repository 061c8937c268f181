//! The names of the inputs and of the outputs.
ghost use Rattle.std.specs.Prelude.{◌≡◌, ℕ, ◌≤◌, ◌++◌, length, Option, Some, None, IfOk, IfErr, OnOk};
ghost use Rattle.std.specs.Option.{option_map};
ghost use Rattle.tsc_net.specs.Names.{IsNumbering};
ghost use Rattle.table_lines.specs.NamesText.{names_or, wrong_names, IsWrongBy};
ghost use Rattle.kiss_read.specs.Selections.{count_in};
ghost use Rattle.kiss_read.specs.NamesText.{input_names, output_names};
ghost use Rattle.kiss_read.specs.Refusal.{names_refusal, IsRefusedBy};
ghost use Rattle.kiss_read.specs.declared.kinds.LineKind.TheVariants.{Inputs, Outputs};
ghost use Rattle.kiss_read.specs.declared.error.KissError.TheVariants.{Header};

use crate::directives::line_of;
use crate::error::KissError;
use crate::kinds::LineKind;
use std::alloc::Global;
use table_lines::{NameLines, Names, NamesError, read_names};
use tsc_text::SectionLines;

/// The refusal of names.
fn refusal_of_names(error: NamesError) -> KissError
    ensures refused { (wrong : Option ℕ) → IsWrongBy wrong error → IsRefusedBy (option_map Header wrong) result }
{
    match error {
        NamesError::Wrong { line } => KissError::Header { line },
        NamesError::Memory(error) => KissError::Memory(error),
    }
}

/// The names that these lines give to so many inputs and outputs.
fn names_by(
    alloc: Global,
    at: &NameLines,
    inputs: usize,
    outputs: usize,
) -> Result<Names, KissError>
    requires few_inputs { inputs ≤ 64 }
    requires few_outputs { outputs ≤ 64 }
    ensures inputs { IfOk result (λ names. names.inputs ≡ names_or at.now.inputs 105 inputs) }
    ensures outputs { IfOk result (λ names. names.outputs ≡ names_or at.now.outputs 111 outputs) }
    ensures distinct { IfOk result (λ names. IsNumbering (names.inputs ++ names.outputs)) }
    ensures count_inputs { IfOk result (λ names. length names.inputs ≡ inputs) }
    ensures count_outputs { IfOk result (λ names. length names.outputs ≡ outputs) }
    ensures sound { OnOk result (option_map Header (wrong_names at.now.inputs inputs at.now.outputs outputs) ≡ None) }
    ensures refused { IfErr result (IsRefusedBy (option_map Header (wrong_names at.now.inputs inputs at.now.outputs outputs))) }
{
    match read_names(alloc, at, inputs, outputs) {
        Ok(names) => Ok(names),
        Err(error) => Err(refusal_of_names(error)),
    }
}

/// The names that the lines of a section give to so many inputs and outputs.
pub fn names_in(
    alloc: Global,
    section: &SectionLines,
    inputs: usize,
    outputs: usize,
) -> Result<Names, KissError>
    requires inputs { count_in Inputs section.now ≡ Some inputs }
    requires outputs { count_in Outputs section.now ≡ Some outputs }
    requires few_inputs { inputs ≤ 64 }
    requires few_outputs { outputs ≤ 64 }
    ensures inputs { IfOk result (λ names. names.inputs ≡ input_names section.now) }
    ensures outputs { IfOk result (λ names. names.outputs ≡ output_names section.now) }
    ensures distinct { IfOk result (λ names. IsNumbering (names.inputs ++ names.outputs)) }
    ensures count_inputs { IfOk result (λ names. length names.inputs ≡ inputs) }
    ensures count_outputs { IfOk result (λ names. length names.outputs ≡ outputs) }
    ensures sound { OnOk result (names_refusal section.now ≡ None) }
    ensures refused { IfErr result (IsRefusedBy (names_refusal section.now)) }
{
    let at = NameLines {
        inputs: line_of(LineKind::InputNames, section),
        outputs: line_of(LineKind::OutputNames, section),
    };
    names_by(alloc, &at, inputs, outputs)
}
