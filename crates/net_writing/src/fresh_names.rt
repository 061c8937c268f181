//! Fresh names: their number over a source, and the nets that have them.
ghost use Rattle.std.specs.Prelude.{◌≡◌, ℕ, ◌+◌, ◌<◌, ◌^◌, true, map, IfOk};
ghost use Rattle.std.specs.List.{list_any, range_with_len};
ghost use Rattle.tsc_net.specs.Names.{has_text, place_of_text};
ghost use Rattle.tsc_net.specs.PlanView.{net_numbers};
ghost use Rattle.tsc_net.specs.Parts.{fresh_text, begins_with, is_taken, free_number};

use std::alloc::{AllocError, Global};
use tsc_io::Items;
use tsc_net::{NetId, Netlist, Nets};

/// The nets of a netlist that have the fresh names with a number, so many from the count `first` on.
///
/// # Errors
///
/// Want of memory.
pub fn fresh_nets(
    alloc: Global,
    net: &Netlist,
    number: usize,
    first: usize,
    count: usize,
) -> Result<Nets, AllocError>
    requires named { (k : ℕ) → k < count → has_text net.now.names (fresh_text number (first + k)) ≡ true }
    requires few { first + count < 2 ^ 32 }
    ensures nets { IfOk result (λ nets. net_numbers nets ≡ map (λ k. place_of_text net.now.names (fresh_text number k)) (range_with_len first count)) }
{
    let mut nets = Items::new(alloc);
    for place in 0..count {
        let named = fresh_net(alloc, net, number, first + place)?;
        nets.push(named)?;
    }
    Ok(nets)
}

/// The net of a netlist whose name is `t`, the number, `_` and the count.
fn fresh_net(alloc: Global, net: &Netlist, number: usize, count: usize) -> Result<NetId, AllocError>
    requires named { has_text net.now.names (fresh_text number count) ≡ true }
    ensures net { IfOk result (λ found. found.number ≡ place_of_text net.now.names (fresh_text number count)) }
{
    let fresh = format!(in alloc; "t{number}_{count}")?;
    Ok(net_of(net, fresh.as_bytes()))
}

/// The net with a name that some net has.
fn net_of(net: &Netlist, name: &[u8]) -> NetId
    requires named { has_text net.now.names name.now ≡ true }
    ensures net { result.number ≡ place_of_text net.now.names name.now }
{
    match net.net(name) {
        Some(found) => found,
        None => unreachable!(),
    }
}

/// The number of the fresh names: the least such that no name of the source begins with `t`, the number and `_`.
///
/// # Errors
///
/// Want of memory.
pub fn fresh_number(alloc: Global, source: &Netlist) -> Result<usize, AllocError>
    ensures number { IfOk result (λ number. number ≡ free_number source.now.names) }
{
    let count = source.nets();
    for number in 0..count {
        if !is_taken(alloc, source, number)? {
            return Ok(number);
        }
    }
    Ok(count)
}

/// Whether some name of the source begins with `t`, the number and `_`.
fn is_taken(alloc: Global, source: &Netlist, number: usize) -> Result<bool, AllocError>
    ensures taken { IfOk result (λ taken. taken ≡ is_taken source.now.names number) }
{
    let prefix = format!(in alloc; "t{number}_")?;
    Ok(some_begins_with(source, prefix.as_bytes()))
}

/// Whether some name of the source begins with `prefix`.
fn some_begins_with(source: &Netlist, prefix: &[u8]) -> bool
    ensures begins { result ≡ list_any (begins_with prefix.now) source.now.names }
{
    for place in 0..source.nets() {
        let net = NetId {
            number: place as u32,
        };
        if source.name(net).starts_with(prefix) {
            return true;
        }
    }
    false
}
