//! The states of a plan.
ghost use Rattle.std.specs.Prelude.{◌≡◌, ◌≤◌, ◌++◌, true, length, map, IfOk, OnOk};
ghost use Rattle.tsc_bits.specs.Bits.{bits_of};
ghost use Rattle.blif_read.specs.PlanLines.{is_bits};
ghost use Rattle.blif_read.specs.Planned.{AreWide};
ghost use Rattle.blif_read.specs.Planned.{ArePlanned, IsPlannedAt};
ghost use Rattle.blif_read.specs.PlanText.{bits_of_word, kind_in_plan, state_at, state_words};

use crate::kinds::word_or_empty;
use crate::plan_lines::PlanKind;
use crate::plan_names::kind_in_plan;
use std::alloc::{AllocError, Global};
use tsc_cover::row_of;
use tsc_net::StateList;
use tsc_text::{SectionLines, TextLine};

/// The number that a state's word stands for.
#[tactic(auto, using(crate::proofs::StateBits::bits_are_row, crate::proofs::StateBits::bits_kept))]
fn value_of(word: &[u8]) -> u64
    requires few { length word.now ≤ 64 }
    requires bits { is_bits word.now ≡ true }
    ensures bits { bits_of (length word.now) result ≡ bits_of_word word.now }
{
    row_of(word).unwrap().value
}

/// Adds the word of a line, if it is one of a state.
fn add_state(states: &mut StateList, line: &TextLine) -> Result<(), AllocError>
    requires few { states.old.width ≤ 64 }
    requires planned { IsPlannedAt (kind_in_plan line.now) line.now }
    requires sized { AreWide states.old.width (state_at (kind_in_plan line.now) line.now) }
    ensures width { OnOk result (states.new.width ≡ states.old.width) }
    ensures words { OnOk result (map (bits_of states.old.width) states.new.words ≡ map (bits_of states.old.width) states.old.words ++ map bits_of_word (state_at (kind_in_plan line.now) line.now)) }
{
    match kind_in_plan(line) {
        PlanKind::StateLine => {
            states.push(value_of(word_or_empty(line, 1)))?;
            Ok(())
        }
        _ => Ok(()),
    }
}

/// The states of a section.
pub fn states(
    alloc: Global,
    latches: usize,
    section: &SectionLines,
) -> Result<StateList, AllocError>
    requires few { latches ≤ 64 }
    requires planned { ArePlanned section.now }
    requires sized { AreWide latches (state_words section.now) }
    ensures width { IfOk result (λ states. states.width ≡ latches) }
    ensures words { IfOk result (λ states. map (bits_of latches) states.words ≡ map bits_of_word (state_words section.now)) }
{
    let mut states = StateList::new(alloc, latches);
    for place in 0..section.len() {
        let line = section.line(place);
        add_state(&mut states, &line)?;
    }
    Ok(states)
}
