//! The clauses of what may be wrong.
ghost use Rattle.std.specs.Prelude.{◌≡◌, ◌+◌, ◌<◌, ◌≤◌, ◌^◌, [], ◌∷◌, ◌++◌, length, slice_index, IfOk, OnOk};
ghost use Rattle.tsc_net.specs.PlanView.{net_numbers};
ghost use Rattle.question_text.specs.Gates.{after_clauses};
ghost use Rattle.question_text.specs.Failing.{differs_of};
ghost use Rattle.question_text.specs.Reasons.{chain_end, chain_gates, group_end, group_even, group_gates, groups_end, groups_even, groups_gates, nets_of, one_at, ones_from, outputs_gates, rails_gates, unheard_gates};

use crate::cells::Cell;
use crate::clauses::{Clauses, Literals, turned};
use crate::covers::number_at;
use crate::failing::push_differs;
use crate::gates::{one, push_xor, zero};
use refutations::Literal;
use std::alloc::{AllocError, Global};
use tsc_io::Items;
use tsc_net::{Group, NetId, Nets};

/// That a net is 1, by its number.
fn one_at(numbers: &[u32], net: NetId) -> Literal
    ensures one { result ≡ one_at numbers.now net.number }
{
    one(number_at(numbers, net.number as usize))
}

/// The net at a place, and net 0 past the end.
fn net_at(nets: &[NetId], place: usize) -> NetId
    ensures net { result.number ≡ slice_index (net_numbers nets.now) place }
{
    match nets.get(place) {
        Some(net) => *net,
        None => NetId { number: 0 },
    }
}

/// Adds that outputs differ from the source's, whose nets these are, with variables from `first` on.
pub(crate) fn push_outputs(
    out: &mut Clauses,
    source: &[u32],
    right: &[u32],
    shown: &[NetId],
    first: u32,
    nets: &[NetId],
) -> Result<(), AllocError>
    requires room { first + length nets.now < 2 ^ 32 }
    ensures clauses { OnOk result (out.new ≡ after_clauses out.old (outputs_gates source.now right.now (net_numbers shown.now) 0 first (net_numbers nets.now))) }
{
    let mut at = first;
    for (place, net) in nets.iter().enumerate() {
        push_xor(
            out,
            at,
            one_at(source, *net),
            one_at(right, net_at(shown, place)),
        )?;
        at += 1;
    }
    Ok(())
}

/// Adds as many variables as there are nets, from `first` on, each 1.
pub(crate) fn push_ones(list: &mut Literals, first: u32, nets: &[NetId]) -> Result<(), AllocError>
    requires room { first + length nets.now < 2 ^ 32 }
    ensures literals { OnOk result (list.new ≡ list.old ++ ones_from first (net_numbers nets.now)) }
{
    let mut at = first;
    for _net in nets {
        list.push(one(at))?;
        at += 1;
    }
    Ok(())
}

/// Adds a chain from a literal over nets, and answers whether an odd number of them is 1.
fn push_chain(
    out: &mut Clauses,
    right: &[u32],
    first: u32,
    start: Literal,
    nets: &[NetId],
) -> Result<Literal, AllocError>
    requires room { first + length nets.now < 2 ^ 32 }
    ensures clauses { OnOk result (out.new ≡ after_clauses out.old (chain_gates right.now first start (net_numbers nets.now))) }
    ensures odd { IfOk result (λ odd. odd ≡ chain_end first start (net_numbers nets.now)) }
{
    let mut at = first;
    let mut odd = start;
    for net in nets {
        push_xor(out, at, odd, one_at(right, *net))?;
        odd = one(at);
        at += 1;
    }
    Ok(odd)
}

/// Adds a group of nets, and to the literals that it has an even number of ones.
fn push_group(
    out: &mut Clauses,
    wrong: &mut Literals,
    right: &[u32],
    first: u32,
    nets: &[NetId],
) -> Result<(), AllocError>
    requires room { first + length nets.now ≤ 2 ^ 32 }
    ensures clauses { OnOk result (out.new ≡ after_clauses out.old (group_gates right.now first (net_numbers nets.now))) }
    ensures even { OnOk result (wrong.new ≡ wrong.old ++ group_even right.now first (net_numbers nets.now)) }
{
    match nets {
        [] => Ok(()),
        [net, rest @ ..] => {
            let odd = push_chain(out, right, first, one_at(right, *net), rest)?;
            wrong.push(turned(odd))
        }
    }
}

/// The nets of a group of a plan.
fn nets_of(alloc: Global, shown: &[NetId], group: &Group) -> Result<Nets, AllocError>
    ensures nets { IfOk result (λ nets. net_numbers nets ≡ nets_of (net_numbers shown.now) group.now) }
    ensures count { IfOk result (λ nets. length nets ≡ length group.now.places + 1) }
{
    let mut nets = Items::new(alloc);
    for place in group.places.as_slice() {
        nets.push(net_at(shown, *place))?;
    }
    nets.push(group.check)?;
    Ok(nets)
}

/// The number behind the variables of a group.
fn group_end(at: u32, group: &Group) -> u32
    requires room { group_end at group.now < 2 ^ 32 }
    ensures end { result ≡ group_end at group.now }
{
    at + group.places.len() as u32
}

/// Adds a group of a plan, and to the literals that it has an even number of ones.
fn push_members(
    out: &mut Clauses,
    wrong: &mut Literals,
    right: &[u32],
    shown: &[NetId],
    at: u32,
    group: &Group,
) -> Result<(), AllocError>
    requires room { group_end at group.now < 2 ^ 32 }
    ensures clauses { OnOk result (out.new ≡ after_clauses out.old (group_gates right.now at (nets_of (net_numbers shown.now) group.now))) }
    ensures even { OnOk result (wrong.new ≡ wrong.old ++ group_even right.now at (nets_of (net_numbers shown.now) group.now)) }
{
    let nets = nets_of(out.alloc(), shown, group)?;
    push_group(out, wrong, right, at, nets.as_slice())
}

/// Adds the groups of a plan, with variables from `first` on, and to the literals that one has an even number of ones.
pub(crate) fn push_groups(
    out: &mut Clauses,
    wrong: &mut Literals,
    right: &[u32],
    shown: &[NetId],
    first: u32,
    groups: &[Group],
) -> Result<(), AllocError>
    requires room { groups_end first groups.now < 2 ^ 32 }
    ensures clauses { OnOk result (out.new ≡ after_clauses out.old (groups_gates right.now (net_numbers shown.now) first groups.now)) }
    ensures even { OnOk result (wrong.new ≡ wrong.old ++ groups_even right.now (net_numbers shown.now) first groups.now) }
{
    let mut at = first;
    for group in groups {
        push_members(out, wrong, right, shown, at, group)?;
        at = group_end(at, group);
    }
    Ok(())
}

/// The number behind the variables of groups.
pub(crate) fn groups_end(first: u32, groups: &[Group]) -> u32
    requires room { groups_end first groups.now < 2 ^ 32 }
    ensures end { result ≡ groups_end first groups.now }
{
    let mut at = first;
    for group in groups {
        at = group_end(at, group);
    }
    at
}

/// Adds that rails differ.
pub(crate) fn push_rails(
    out: &mut Clauses,
    numbers: &[u32],
    at: u32,
    rail1: NetId,
    rail2: NetId,
) -> Result<(), AllocError>
    ensures clauses { OnOk result (out.new ≡ after_clauses out.old (rails_gates numbers.now at rail1.number rail2.number)) }
{
    push_xor(out, at, one_at(numbers, rail1), one_at(numbers, rail2))
}

/// Adds that a failing cell is unheard only where the rails differ and one of the outputs does.
pub(crate) fn push_unheard(
    out: &mut Clauses,
    rails: u32,
    unheard: u32,
    inputs: usize,
    cells: &[Cell],
    shown: &[NetId],
) -> Result<(), AllocError>
    ensures clauses { OnOk result (out.new ≡ after_clauses out.old (unheard_gates rails unheard inputs cells.now (net_numbers shown.now))) }
{
    out.push(&[zero(unheard), one(rails)])?;
    let mut clause = Items::from_slice(out.alloc(), &[zero(unheard)])?;
    push_differs(&mut clause, inputs, cells, shown)?;
    out.push(clause.as_slice())
}
