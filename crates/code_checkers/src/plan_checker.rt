//! The checker of a word, and so of a plan.
ghost use Rattle.std.specs.Prelude.{◌≡◌, ◌+◌, ◌<◌, ◌≤◌, ◌^◌, map, length, All, IfOk};
ghost use Rattle.code_checkers.specs.Checker.{group_pairs as group_pairs_of, code_pairs_over, state_pairs as state_pairs_of, pairs_over};
ghost use Rattle.code_checkers.specs.Draft.{PairsAreAdded};
ghost use Rattle.code_checkers.specs.GateList.{IsCheckerOf, IsGroupChecker, IsWordChecker};
ghost use Rattle.code_checkers.specs.Within.{ReadsWord};
ghost use Rattle.code_checkers.specs.Size.{checker_size};
ghost use Rattle.code_checkers.specs.SizedWords.{HasPlan};

use crate::check_gates::CheckGates;
use crate::draft::Draft;
use crate::pair_places::PairPlaces;
use crate::pairs::{berger_pairs, group_pair, stretch_pair};
use crate::shared::share;
use crate::two_rail::tree_rails;
use crate::word_sizes::WordSizes;
use std::alloc::{AllocError, Global};
use tsc_net::{Code, Group, Plan};

/// Adds the pairs of parity groups, the checks standing from place `check` on.
fn group_pairs(
    alloc: Global,
    draft: &mut Draft,
    groups: &[Group],
    check: usize,
) -> Result<Vec<PairPlaces>, AllocError>
    requires filled { All (λ group. 0 < length group.places) groups.now }
    requires fits { check + length groups.now < 2 ^ 64 }
    ensures added { IfOk result (λ pairs. PairsAreAdded draft.old draft.new (group_pairs_of check (map (λ group. group.places) groups.now)) pairs.items) }
{
    let mut pairs = Vec::new(alloc);
    let mut place = check;
    for group in groups {
        let made = group_pair(alloc, draft, group.places.as_slice(), place)?;
        pairs.push(made)?;
        place += 1;
    }
    Ok(pairs)
}

/// Adds the pairs of a word's code.
fn code_pairs(
    alloc: Global,
    draft: &mut Draft,
    sizes: WordSizes,
    groups: &[Group],
) -> Result<Vec<PairPlaces>, AllocError>
    requires plan { HasPlan sizes (map (λ group. group.places) groups.now) }
    ensures added { IfOk result (λ pairs. PairsAreAdded draft.old draft.new (code_pairs_over sizes.code sizes (map (λ group. group.places) groups.now)) pairs.items) }
{
    match sizes.code {
        Code::Parity => {
            let pairs = group_pairs(alloc, draft, groups, sizes.outputs)?;
            Ok(pairs)
        }
        Code::Berger => {
            let pairs = berger_pairs(alloc, draft, sizes.outputs)?;
            Ok(pairs)
        }
        Code::MOutOfN => {
            let pair = stretch_pair(alloc, draft, 0, sizes.outputs, sizes.checks, sizes.outputs)?;
            let mut pairs = Vec::new(alloc);
            pairs.push(pair)?;
            Ok(pairs)
        }
    }
}

/// Adds the pair of the next state's places, where there are latches.
fn state_pairs(
    alloc: Global,
    draft: &mut Draft,
    place: usize,
    latches: usize,
    weight: usize,
) -> Result<Vec<PairPlaces>, AllocError>
    requires none { latches ≡ 0 → weight ≡ 0 }
    requires some { 0 < latches → (0 < weight) × (weight < latches) }
    requires limit { latches ≤ 64 }
    requires fits { place + 64 < 2 ^ 64 }
    ensures added { IfOk result (λ pairs. PairsAreAdded draft.old draft.new (state_pairs_of place latches weight) pairs.items) }
{
    let mut pairs = Vec::new(alloc);
    if latches == 0 {
        return Ok(pairs);
    }
    let half = latches / 2;
    let pair = stretch_pair(alloc, draft, place, half, latches - half, weight)?;
    pairs.push(pair)?;
    Ok(pairs)
}

/// Adds the pairs of a word.
fn pairs(
    alloc: Global,
    draft: &mut Draft,
    sizes: WordSizes,
    groups: &[Group],
) -> Result<Vec<PairPlaces>, AllocError>
    requires plan { HasPlan sizes (map (λ group. group.places) groups.now) }
    requires checks { sizes.checks < 2 ^ 63 }
    requires latches { sizes.latches ≤ 64 }
    ensures added { IfOk result (λ pairs. PairsAreAdded draft.old draft.new (pairs_over sizes (map (λ group. group.places) groups.now)) pairs.items) }
    ensures some { IfOk result (λ pairs. 0 < length pairs.items) }
{
    let mut pairs = code_pairs(alloc, draft, sizes, groups)?;
    let place = sizes.outputs + sizes.checks;
    let more = state_pairs(alloc, draft, place, sizes.latches, sizes.weight)?;
    pairs.extend_from_slice(&more)?;
    Ok(pairs)
}

/// The checker of each plan whose word has these sizes, and whose groups are these: it doesn't depend on which nets they are. Its
/// gates are over the places of a word, and their rails differ exactly where the word is a codeword.
///
/// # Errors
///
/// Want of memory.
pub fn word_checker(
    alloc: Global,
    sizes: WordSizes,
    groups: &[Group],
) -> Result<CheckGates, AllocError>
    requires plan { HasPlan sizes (map (λ group. group.places) groups.now) }
    requires checks { sizes.checks < 2 ^ 63 }
    requires latches { sizes.latches ≤ 64 }
    ensures made { IfOk result (IsWordChecker sizes (map (λ group. group.places) groups.now)) }
{
    let mut draft = Draft::new(alloc);
    let pairs = pairs(alloc, &mut draft, sizes, groups)?;
    let rails = tree_rails(alloc, &mut draft, pairs)?;
    let made = share(alloc, draft.gates(), rails)?;
    Ok(made)
}

/// The checker of parity groups alone, however many places they have, whose checks stand from place `check` of a word on. Its rails differ
/// exactly where each group with its check is odd.
///
/// # Errors
///
/// Want of memory.
pub fn group_checker(
    alloc: Global,
    groups: &[Group],
    check: usize,
) -> Result<CheckGates, AllocError>
    requires some { 0 < length groups.now }
    requires filled { All (λ group. 0 < length group.places) groups.now }
    requires fits { check + length groups.now < 2 ^ 64 }
    ensures made { IfOk result (IsGroupChecker check (map (λ group. group.places) groups.now)) }
{
    let mut draft = Draft::new(alloc);
    let pairs = group_pairs(alloc, &mut draft, groups, check)?;
    let rails = tree_rails(alloc, &mut draft, pairs)?;
    let made = share(alloc, draft.gates(), rails)?;
    Ok(made)
}

/// The checker of a plan: gates over the places of a word, whose rails differ exactly where the word is a codeword.
///
/// # Errors
///
/// Want of memory.
pub fn checker(alloc: Global, plan: &Plan) -> Result<CheckGates, AllocError>
    ensures made { IfOk result (λ made. IsCheckerOf plan.now made) }
    ensures words { IfOk result (λ made. ReadsWord plan.now made) }
    ensures few { IfOk result (λ made. length made.gates ≤ checker_size plan.now) }
{
    let sizes = WordSizes {
        code: plan.code,
        outputs: plan.outputs,
        checks: plan.checks.as_slice().len(),
        latches: plan.states.width(),
        weight: plan.weight,
    };
    let made = word_checker(alloc, sizes, plan.groups.as_slice())?;
    Ok(made)
}
