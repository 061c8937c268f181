//! The different nets of a list.
ghost use Rattle.std.specs.Prelude.{◌≡◌, ◌==◌, [], OnOk, IfOk};
ghost use Rattle.std.specs.List.{list_any};
ghost use Rattle.tsc_net.specs.PlanView.{net_numbers};
ghost use Rattle.checker_audit.specs.Misjudged.{with_net, with_nets};

use std::alloc::{AllocError, Global};
use tsc_net::NetId;

/// The nets of a list, each once, in the order of its first place.
pub fn distinct_nets(alloc: Global, word: &[NetId]) -> Result<Vec<NetId>, AllocError>
    ensures nets { IfOk result (λ nets. net_numbers nets.items ≡ with_nets [] (net_numbers word.now)) }
{
    let mut nets = Vec::new(alloc);
    for net in word {
        add_net(&mut nets, *net)?;
    }
    Ok(nets)
}

/// Adds a net at the end, where it isn't there.
fn add_net(nets: &mut Vec<NetId>, net: NetId) -> Result<(), AllocError>
    ensures added { OnOk result (net_numbers nets.new.items ≡ with_net (net_numbers nets.old.items) net.number) }
{
    if !has_net(nets, net) {
        nets.push(net)?;
    }
    Ok(())
}

/// Whether a net stands in a list.
fn has_net(nets: &[NetId], net: NetId) -> bool
    ensures has { result ≡ list_any (λ other. other.number == net.number) nets.now }
{
    nets.iter().any(|other| other.number == net.number)
}
