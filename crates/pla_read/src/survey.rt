//! What matters of the lines before a row.
ghost use Rattle.std.specs.Prelude.{◌≡◌, ◌≤◌, [], IfOk, IfErr, OnOk, Some, None};
ghost use Rattle.pla_read.specs.LineKind.{kind_of};
ghost use Rattle.pla_read.specs.Faults.{first_fault};
ghost use Rattle.pla_read.specs.Survey.{survey_behind, survey_of, IsWithin};

use crate::faults::fault_at;
use crate::kinds::{LineKind, kind_of};
use table_lines::{LineFault, number_in};
use tsc_text::{SectionLines, TextLine};

/// What matters of the lines before a row.
#[derive(Clone, Copy)]
pub struct Survey {
    /// The number of inputs, once it is stated.
    pub inputs: Option<usize>,
    /// The number of outputs, once it is stated.
    pub outputs: Option<usize>,
    /// The number of rows.
    pub rows: usize,
}

impl Survey {
    /// Before the first line.
    pub fn new() -> Survey
        ensures empty { result ≡ survey_of [] }
    {
        Survey {
            inputs: None,
            outputs: None,
            rows: 0,
        }
    }

    /// With what a line gives.
    pub fn behind(self, line: &TextLine) -> Survey
        requires room { self.rows ≤ 16384 }
        ensures behind { result ≡ survey_behind self (kind_of line.now) line.now }
    {
        let mut survey = self;
        match kind_of(line) {
            LineKind::Inputs => survey.inputs = Some(number_in(line)),
            LineKind::Outputs => survey.outputs = Some(number_in(line)),
            LineKind::Row => survey.rows += 1,
            LineKind::PlanLine
            | LineKind::Products
            | LineKind::CoverType
            | LineKind::InputNames
            | LineKind::OutputNames
            | LineKind::OtherDirective => {}
        }
        survey
    }
}

/// What is seen of the lines of a section, or the first line with a fault. It takes no memory.
pub fn survey_of(section: &SectionLines) -> Result<Survey, LineFault>
    ensures survey { IfOk result (λ survey. survey ≡ survey_of section.now) }
    ensures limits { IfOk result IsWithin }
    ensures sound { OnOk result (first_fault section.now ≡ None) }
    ensures refused { IfErr result (λ fault. first_fault section.now ≡ Some fault) }
{
    let mut survey = Survey::new();
    for place in 0..section.len() {
        let line = section.line(place);
        match fault_at(&survey, section, place) {
            Some(cause) => {
                let line = line.number();
                return Err(LineFault { line, cause });
            }
            None => {}
        }
        survey = survey.behind(&line);
    }
    Ok(survey)
}
