//! The rules of a plan.
ghost use Rattle.std.specs.Prelude.{◌≡◌, ◌==◌, ◌&&◌, ◌≤◌, length, count_by, map, nat_lt, IfOk};
ghost use Rattle.std.specs.List.{list_all};
ghost use Rattle.blif_read.specs.PlanFault.{are_alike, are_parts, each_once, has_checks_for, has_lines_for, is_empty, is_none, is_width, fits_latches};
ghost use Rattle.fault_secure.specs.CodePlan.{concat_places};
ghost use Rattle.tsc_net.specs.NetFault.{first_repeat};
ghost use Rattle.blif_read.specs.PlanText.{check_lines, code_named, group_lines, is_check_line, is_group_line, kind_in_plan, ones_of_word, state_words, weight_of};

use crate::kinds::{is_word, word_or_empty};
use crate::plan_lines::PlanKind;
use crate::plan_names::kind_in_plan;
use std::alloc::{AllocError, Global};
use tsc_io::Items;
use tsc_net::{Code, Group, NameTable, PlaceList};
use tsc_text::{SectionLines, TextLine};

/// The number of ones in a state's word.
pub fn ones_of_word(word: &[u8]) -> usize
    ensures ones { result ≡ ones_of_word word.now }
{
    word.iter().filter(|character| **character == b'1').count()
}

/// Whether a line is one of a group.
fn is_group_line(line: &TextLine) -> bool
    ensures group { result ≡ is_group_line (kind_in_plan line.now) }
{
    match kind_in_plan(line) {
        PlanKind::GroupLine => true,
        _ => false,
    }
}

/// Whether a line is one of checks.
fn is_check_line(line: &TextLine) -> bool
    ensures check { result ≡ is_check_line (kind_in_plan line.now) }
{
    match kind_in_plan(line) {
        PlanKind::CheckLine => true,
        _ => false,
    }
}

/// The number of group lines.
#[tactic(auto, using(crate::proofs::RuleWalk::group_line_here, crate::proofs::RuleWalk::group_line_not, crate::proofs::RuleWalk::group_line_end))]
fn group_lines(section: &SectionLines) -> usize
    ensures count { result ≡ group_lines section.now }
{
    let mut count = 0;
    for place in 0..section.len() {
        let line = section.line(place);
        if is_group_line(&line) {
            count += 1;
        }
    }
    count
}

/// The number of check lines.
#[tactic(auto, using(crate::proofs::RuleWalk::check_line_here, crate::proofs::RuleWalk::check_line_not, crate::proofs::RuleWalk::check_line_end))]
fn check_lines(section: &SectionLines) -> usize
    ensures count { result ≡ check_lines section.now }
{
    let mut count = 0;
    for place in 0..section.len() {
        let line = section.line(place);
        if is_check_line(&line) {
            count += 1;
        }
    }
    count
}

/// Whether the lines of a section are those of the code.
pub fn has_lines_for(code: Code, section: &SectionLines) -> bool
    ensures lines { result ≡ has_lines_for code section.now }
{
    match code {
        Code::Parity => check_lines(section) == 0,
        Code::Berger | Code::MOutOfN => { group_lines(section) == 0 && check_lines(section) == 1 }
    }
}

/// The code that a word names.
pub fn code_named(word: &[u8]) -> Code
    ensures code { result ≡ code_named word.now }
{
    if is_word(word, b"parity") {
        Code::Parity
    } else if is_word(word, b"berger") {
        Code::Berger
    } else {
        Code::MOutOfN
    }
}

/// The number of ones of the first state; 0 without states.
#[tactic(auto, using(crate::proofs::RuleWalk::state_here, crate::proofs::RuleWalk::state_not, crate::proofs::RuleWalk::state_end))]
pub fn weight(section: &SectionLines) -> usize
    ensures weight { result ≡ weight_of (state_words section.now) }
{
    for place in 0..section.len() {
        let line = section.line(place);
        if let PlanKind::StateLine = kind_in_plan(&line) {
            return ones_of_word(word_or_empty(&line, 1));
        }
    }
    0
}

/// Whether a state's word has that many bits, of which that many are 1.
fn is_alike(word: &[u8], latches: usize, weight: usize) -> bool
    ensures alike { result ≡ (length word.now == latches && ones_of_word word.now == weight) }
{
    word.len() == latches && ones_of_word(word) == weight
}

/// Whether the words of the states have one bit a latch and all the same number of ones.
#[tactic(auto, using(crate::proofs::RuleWalk::state_here, crate::proofs::RuleWalk::state_not, crate::proofs::RuleWalk::state_end))]
fn are_alike(latches: usize, weight: usize, section: &SectionLines) -> bool
    ensures alike { result ≡ are_alike latches weight (state_words section.now) }
{
    for place in 0..section.len() {
        let line = section.line(place);
        if let PlanKind::StateLine = kind_in_plan(&line) {
            if !is_alike(word_or_empty(&line, 1), latches, weight) {
                return false;
            }
        }
    }
    true
}

/// Whether there is no state.
#[tactic(auto, using(crate::proofs::RuleWalk::state_here, crate::proofs::RuleWalk::state_not, crate::proofs::RuleWalk::state_end, crate::proofs::RuleWalk::some_state))]
pub fn has_no_state(section: &SectionLines) -> bool
    ensures none { result ≡ is_empty (state_words section.now) }
{
    for place in 0..section.len() {
        let line = section.line(place);
        if let PlanKind::StateLine = kind_in_plan(&line) {
            return false;
        }
    }
    true
}

/// Whether the words of the states are different.
#[tactic(auto, using(crate::proofs::RuleWalk::state_here, crate::proofs::RuleWalk::state_not, crate::proofs::RuleWalk::state_end))]
fn are_distinct(alloc: Global, section: &SectionLines) -> Result<bool, AllocError>
    ensures distinct { IfOk result (λ distinct. distinct ≡ is_none (first_repeat (state_words section.now))) }
{
    let mut table = NameTable::new(alloc, section.key());
    for place in 0..section.len() {
        let line = section.line(place);
        if let PlanKind::StateLine = kind_in_plan(&line) {
            let word = word_or_empty(&line, 1);
            if table.find(word).is_some() {
                return Ok(false);
            }
            table.add(word)?;
        }
    }
    Ok(true)
}

/// Whether the states fit the latches.
pub fn fits_latches(
    alloc: Global,
    latches: usize,
    section: &SectionLines,
) -> Result<bool, AllocError>
    ensures fits { IfOk result (λ fits. fits ≡ fits_latches latches (state_words section.now)) }
{
    if latches == 0 {
        return Ok(has_no_state(section));
    }
    let weight = weight(section);
    if weight == 0 || weight >= latches || !are_alike(latches, weight, section) {
        return Ok(false);
    }
    are_distinct(alloc, section)
}

/// Whether that many checks are the least that count to that many outputs.
#[tactic(auto, using(crate::proofs::RuleWalk::width_is, crate::proofs::RuleWalk::width_too_great))]
fn is_width(outputs: usize, checks: usize) -> bool
    requires { outputs ≤ 64 }
    ensures width { result ≡ is_width outputs checks }
{
    if checks == 0 || checks > 7 {
        return false;
    }
    let least = 1usize << (checks - 1);
    least <= outputs && outputs < 2 * least
}

/// How often a place stands in the list.
fn occurrences(places: &[usize], place: usize) -> usize
    ensures count { result ≡ count_by (λ other. place == other) places.now }
{
    let mut count = 0;
    for other in places {
        if place == *other {
            count += 1;
        }
    }
    count
}

/// Whether each place below `count` stands in the list once.
#[tactic(auto, using(crate::proofs::Shares::not_once))]
fn each_once(places: &[usize], count: usize) -> bool
    ensures once { result ≡ each_once places.now count }
{
    for place in 0..count {
        if occurrences(places, place) != 1 {
            return false;
        }
    }
    true
}

/// Whether each place is below `count`.
fn are_below(places: &[usize], count: usize) -> bool
    ensures below { result ≡ list_all (λ place. nat_lt place count) places.now }
{
    places.iter().all(|place| *place < count)
}

/// All places of the groups.
fn concat_places(alloc: Global, groups: &[Group]) -> Result<PlaceList, AllocError>
    ensures places { IfOk result (λ places. places ≡ concat_places (map (λ group. group.places) groups.now)) }
{
    let mut places = Items::new(alloc);
    for group in groups {
        places.append(group.places.as_slice())?;
    }
    Ok(places)
}

/// Whether the groups share out that many outputs.
fn are_parts(alloc: Global, outputs: usize, groups: &[Group]) -> Result<bool, AllocError>
    ensures parts { IfOk result (λ parts. parts ≡ are_parts outputs (map (λ group. group.places) groups.now)) }
{
    let list = concat_places(alloc, groups)?;
    let places = list.as_slice();
    Ok(places.len() == outputs && are_below(places, outputs) && each_once(places, outputs))
}

/// Whether the groups or the number of checks are those of the code.
pub fn has_checks_for(
    alloc: Global,
    code: Code,
    outputs: usize,
    groups: &[Group],
    checks: usize,
) -> Result<bool, AllocError>
    requires few { outputs ≤ 64 }
    ensures checks { IfOk result (λ fits. fits ≡ has_checks_for code outputs (map (λ group. group.places) groups.now) checks) }
{
    match code {
        Code::Parity => are_parts(alloc, outputs, groups),
        Code::Berger => Ok(is_width(outputs, checks)),
        Code::MOutOfN => Ok(checks == outputs),
    }
}
