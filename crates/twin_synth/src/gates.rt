//! The gates of a twin's checker.
ghost use Rattle.std.specs.Prelude.{◌≡◌, ◌+◌, ◌*◌, ◌<◌, ◌≤◌, ◌^◌, map, length, All, IfOk};
ghost use Rattle.std.specs.List.{range_with_len};
ghost use Rattle.fault_secure.specs.Circuit.{Circuit};
ghost use Rattle.fault_secure.specs.CodePlan.{concat_places};
ghost use Rattle.code_checkers.specs.GateList.{IsCheckerOf};
ghost use Rattle.register_synth.specs.TwinCircuit.{with_watch, watched_word};
ghost use Rattle.twin_synth.specs.TwinGates.{StandWithin};

use code_checkers::{CheckGates, group_checker};
use parity_code::Grouping;
use std::alloc::{AllocError, Global};
use tsc_io::Items;
use tsc_net::{Group, GroupList, NetId, PlaceList};

/// The gates of the checker of a twin, which don't depend on its nets: those of its groups, and, where registers are watched, of one group
/// more, which has the places after the outputs.
///
/// # Errors
///
/// Want of memory.
pub fn twin_gates(
    alloc: Global,
    outputs: usize,
    grouping: &Grouping,
    watched: usize,
) -> Result<CheckGates, AllocError>
    requires some { 0 < length grouping.now }
    requires filled { All (λ group. 0 < length group) grouping.now }
    requires few { outputs + watched + length grouping.now < 2 ^ 63 }
    ensures made { (T : Circuit) → length T.outputs ≡ outputs → IfOk result (IsCheckerOf (watched_word watched T grouping.now)) }
    ensures words { All (λ place. place < outputs) (concat_places grouping.now) → IfOk result (StandWithin (outputs + watched + length (with_watch outputs watched grouping.now))) }
    ensures few { IfOk result (λ made. length made.gates ≤ 2 * (length (concat_places grouping.now) + watched) + 7 * length grouping.now + 19) }
{
    let groups = twin_groups(alloc, outputs, grouping, watched)?;
    let gates = group_checker(alloc, groups.as_slice(), outputs + watched)?;
    Ok(gates)
}

/// The groups that a twin checks. Only their places are looked at: the checks are not known yet.
fn twin_groups(
    alloc: Global,
    outputs: usize,
    grouping: &Grouping,
    watched: usize,
) -> Result<GroupList, AllocError>
    requires few { outputs + watched < 2 ^ 63 }
    ensures places { IfOk result (λ groups. map (λ group. group.places) groups ≡ with_watch outputs watched grouping.now) }
{
    let mut groups = group_list(alloc, grouping)?;
    if watched > 0 {
        let places = stretch(alloc, outputs, watched)?;
        groups.push(group_of(places))?;
    }
    Ok(groups)
}

/// The groups of a grouping.
fn group_list(alloc: Global, grouping: &Grouping) -> Result<GroupList, AllocError>
    ensures places { IfOk result (λ groups. map (λ group. group.places) groups ≡ grouping.now) }
{
    let mut groups = Items::new(alloc);
    for places in grouping.as_slice() {
        let places = Items::from_slice(alloc, places.as_slice())?;
        groups.push(group_of(places))?;
    }
    Ok(groups)
}

/// The group with these places.
fn group_of(places: PlaceList) -> Group
    ensures places { result.places ≡ places }
{
    Group {
        places,
        check: NetId { number: 0 },
    }
}

/// So many places, from the first on.
fn stretch(alloc: Global, first: usize, count: usize) -> Result<PlaceList, AllocError>
    requires few { first + count < 2 ^ 63 }
    ensures places { IfOk result (λ places. places ≡ range_with_len first count) }
{
    let mut places = Items::new(alloc);
    for place in 0..count {
        places.push(first + place)?;
    }
    Ok(places)
}
