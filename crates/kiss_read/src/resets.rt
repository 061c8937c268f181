//! The reset state.
ghost use Rattle.std.specs.Prelude.{◌≡◌, ◌<◌, ◌≤◌, length, None, IfOk, IfErr, OnOk};
ghost use Rattle.kiss_read.specs.Selections.{line_of, rows_of};
ghost use Rattle.kiss_read.specs.TableText.{first_state, reset_at};
ghost use Rattle.kiss_read.specs.Refusal.{reset_refusal, IsRefusedBy};
ghost use Rattle.kiss_read.specs.declared.kinds.LineKind.TheVariants.{Reset};

use crate::directives::line_of;
use crate::error::KissError;
use crate::kinds::LineKind;
use crate::rows::state_named;
use table_lines::word_or_empty;
use tsc_net::NameTable;
use tsc_text::SectionLines;

/// The first row's current state, or state 0 where it names none.
#[tactic(auto, using(crate::proofs::FirstRow::first_of_rows, crate::proofs::FirstRow::first_of_none))]
fn first_state(states: &NameTable, section: &SectionLines) -> u32
    requires some { 0 < length states.now }
    requires few { length states.now ≤ 4096 }
    ensures state { result ≡ first_state states.now (rows_of section.now) }
    ensures within { result < length states.now }
{
    match line_of(LineKind::Row, section) {
        None => 0,
        Some(row) => match state_named(states, word_or_empty(&row, 1)) {
            None => 0,
            Some(state) => state,
        },
    }
}

/// The reset state of these states: that of `.r`, and without one the first row's.
pub fn reset_state(states: &NameTable, section: &SectionLines) -> Result<u32, KissError>
    requires some { 0 < length states.now }
    requires few { length states.now ≤ 4096 }
    ensures reset { IfOk result (λ reset. reset ≡ reset_at (line_of Reset section.now) states.now (rows_of section.now)) }
    ensures within { IfOk result (λ reset. reset < length states.now) }
    ensures sound { OnOk result (reset_refusal states.now (line_of Reset section.now) ≡ None) }
    ensures refused { IfErr result (IsRefusedBy (reset_refusal states.now (line_of Reset section.now))) }
{
    match line_of(LineKind::Reset, section) {
        None => Ok(first_state(states, section)),
        Some(line) => match state_named(states, word_or_empty(&line, 1)) {
            Some(state) => Ok(state),
            None => Err(KissError::NoReset {
                line: line.number(),
            }),
        },
    }
}
