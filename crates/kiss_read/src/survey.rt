//! What matters of the lines before a row.
ghost use Rattle.std.specs.Prelude.{◌≡◌, ◌≤◌, [], IfOk, IfErr, OnOk, None};
ghost use Rattle.kiss_read.specs.LineKind.{kind_of};
ghost use Rattle.kiss_read.specs.Selections.{with_state};
ghost use Rattle.kiss_read.specs.Faults.{first_fault};
ghost use Rattle.kiss_read.specs.Refusal.{refusal_of_line, IsRefusedBy};
ghost use Rattle.kiss_read.specs.Survey.{survey_behind, survey_of, IsWithin};

use crate::error::{KissError, line_refusal};
use crate::faults::{fault_at, names_state};
use crate::kinds::{LineKind, kind_of};
use std::alloc::{AllocError, Global};
use table_lines::{LineFault, number_in, word_or_empty};
use tsc_io::TextKey;
use tsc_net::NameTable;
use tsc_text::{SectionLines, TextLine};

/// What matters of the lines before a row.
#[derive(Drop)]
pub struct Survey {
    /// The number of inputs, once it is stated.
    pub inputs: Option<usize>,
    /// The number of outputs, once it is stated.
    pub outputs: Option<usize>,
    /// The number of rows.
    pub rows: usize,
    /// The states, in the order in which they first stand in the rows.
    pub states: NameTable,
}

impl Survey {
    /// Before the first line.
    pub fn new(alloc: Global, key: TextKey) -> Survey
        ensures empty { result ≡ survey_of [] }
    {
        Survey {
            inputs: None,
            outputs: None,
            rows: 0,
            states: NameTable::new(alloc, key),
        }
    }

    /// Adds what a line gives.
    pub fn line(&mut self, line: &TextLine) -> Result<(), AllocError>
        requires room { self.old.rows ≤ 16384 }
        ensures behind { OnOk result (self.new ≡ survey_behind self.old (kind_of line.now) line.now) }
    {
        match kind_of(line) {
            LineKind::Inputs => self.inputs = Some(number_in(line)),
            LineKind::Outputs => self.outputs = Some(number_in(line)),
            LineKind::Row => {
                add_state(&mut self.states, word_or_empty(line, 1))?;
                add_state(&mut self.states, word_or_empty(line, 2))?;
                self.rows += 1;
            }
            LineKind::PlanLine
            | LineKind::Products
            | LineKind::StateCount
            | LineKind::Reset
            | LineKind::InputNames
            | LineKind::OutputNames
            | LineKind::OtherDirective => {}
        }
        Ok(())
    }
}

/// Adds the state that a word names.
fn add_state(states: &mut NameTable, word: &[u8]) -> Result<(), AllocError>
    ensures ok { OnOk result (states.new ≡ with_state states.old word.now) }
{
    if names_state(word) {
        states.add(word)?;
    }
    Ok(())
}

/// What is seen of the lines of a section, or the first line with a fault.
pub fn survey_of(alloc: Global, section: &SectionLines) -> Result<Survey, KissError>
    ensures survey { IfOk result (λ survey. survey ≡ survey_of section.now) }
    ensures limits { IfOk result IsWithin }
    ensures sound { OnOk result (first_fault section.now ≡ None) }
    ensures refused { IfErr result (IsRefusedBy (refusal_of_line (first_fault section.now))) }
{
    let mut survey = Survey::new(alloc, section.key());
    for place in 0..section.len() {
        let line = section.line(place);
        match fault_at(&survey, section, place) {
            Some(cause) => {
                let line = line.number();
                return Err(line_refusal(LineFault { line, cause }));
            }
            None => {}
        }
        match survey.line(&line) {
            Ok(()) => {}
            Err(error) => return Err(KissError::Memory(error)),
        }
    }
    Ok(survey)
}
