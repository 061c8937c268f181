//! The choice among cases.
ghost use Rattle.std.specs.Prelude.{◌≡◌, ◌+◌, ◌*◌, ◌^◌, ◌<◌, ◌≤◌, false, map, filter, length, count_by, IfOk};
ghost use Rattle.std.specs.List.{range_with_len};
ghost use Rattle.gate_net.specs.Growth.{Computes, ComputesAll};
ghost use Rattle.gate_net.specs.Negations.{is_negation};
ghost use Rattle.state_code.specs.Lines.{GrowsWithout};
ghost use Rattle.machine_lines.specs.Cases.{AreCases, has_one, some_case, choices_before};

use crate::cases::{Case, has_one};
use crate::widths::Widths;
use gate_net::{Gates, Line, LineList};
use state_code::select;
use std::alloc::{AllocError, Global};

/// The cases that answer with a 1 at a place.
fn cases_at(
    alloc: Global,
    cases: &[Case],
    widths: Widths,
    place: usize,
) -> Result<Vec<Case>, AllocError>
    requires outputs { widths.outputs ≤ 64 }
    requires checks { widths.checks ≤ 64 }
    requires bits { widths.bits ≤ 64 }
    requires within { place < widths.outputs + widths.checks + widths.bits }
    ensures cases { IfOk result (λ list. list.items ≡ filter (has_one widths place) cases.now) }
{
    cases
        .iter()
        .filter(|case| has_one(case, widths, place))
        .copied()
        .collect(alloc)
}

/// The lines of the states of cases.
fn decoded_of(alloc: Global, cases: &[Case]) -> Result<LineList, AllocError>
    ensures lines { IfOk result (λ lines. lines ≡ map (λ case. case.decoded) cases.now) }
{
    let mut lines = LineList::new(alloc);
    for case in cases {
        lines.push(case.decoded)?;
    }
    Ok(lines)
}

/// The lines of the rows of cases.
fn lines_of(alloc: Global, cases: &[Case]) -> Result<LineList, AllocError>
    ensures lines { IfOk result (λ lines. lines ≡ map (λ case. case.line) cases.now) }
{
    let mut lines = LineList::new(alloc);
    for case in cases {
        lines.push(case.line)?;
    }
    Ok(lines)
}

/// Adds the line that is 1 where some case stands that answers with a 1 at a place: the constant 0 where none answers so.
fn choice(
    alloc: Global,
    gates: &mut Gates,
    cases: &[Case],
    widths: Widths,
    place: usize,
    zero: Line,
) -> Result<Line, AllocError>
    requires outputs { widths.outputs ≤ 64 }
    requires checks { widths.checks ≤ 64 }
    requires bits { widths.bits ≤ 64 }
    requires within { place < widths.outputs + widths.checks + widths.bits }
    requires cases { AreCases gates.old cases.now }
    requires zero { Computes gates.old gates.old (λ x s. false) zero }
    requires room { length gates.old.gates + (2 * count_by (has_one widths place) cases.now + 1) < 2 ^ 32 }
    ensures computes { IfOk result (Computes gates.old gates.new (λ x s. some_case widths gates.old x s place cases.now)) }
    ensures grown { GrowsWithout is_negation gates.old gates.new }
    ensures few { length gates.new.gates ≤ length gates.old.gates + 2 * count_by (has_one widths place) cases.now }
{
    let held = cases_at(alloc, cases, widths, place)?;
    let chosen = held.as_slice();
    if chosen.is_empty() {
        return Ok(zero);
    }
    let decoded = decoded_of(alloc, chosen)?;
    let lines = lines_of(alloc, chosen)?;
    let line = select(alloc, gates, &decoded, &lines)?;
    Ok(line)
}

/// Adds the line of each place of the word.
pub fn word_lines(
    alloc: Global,
    gates: &mut Gates,
    cases: &[Case],
    widths: Widths,
    zero: Line,
) -> Result<LineList, AllocError>
    requires outputs { widths.outputs ≤ 64 }
    requires checks { widths.checks ≤ 64 }
    requires bits { widths.bits ≤ 64 }
    requires cases { AreCases gates.old cases.now }
    requires zero { Computes gates.old gates.old (λ x s. false) zero }
    requires room { length gates.old.gates + (choices_before widths cases.now (widths.outputs + widths.checks + widths.bits) + 1) < 2 ^ 32 }
    ensures lines { IfOk result (ComputesAll gates.old gates.new (λ x s. map (λ place. some_case widths gates.old x s place cases.now) (range_with_len 0 (widths.outputs + widths.checks + widths.bits)))) }
    ensures grown { GrowsWithout is_negation gates.old gates.new }
    ensures few { length gates.new.gates ≤ length gates.old.gates + choices_before widths cases.now (widths.outputs + widths.checks + widths.bits) }
{
    let mut word = LineList::new(alloc);
    for place in 0..widths.outputs + widths.checks + widths.bits {
        let line = choice(alloc, gates, cases, widths, place, zero)?;
        word.push(line)?;
    }
    Ok(word)
}
