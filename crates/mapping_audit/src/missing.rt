//! The first node whose net's name isn't that of a net that a gate drives.
ghost use Rattle.std.specs.Prelude.{◌≡◌, ◌↔◌, ℕ, ◌<◌, length, IsTrue, MatchOption};
ghost use Rattle.mapping_reading.specs.NamedMapping.{moved_by_name, IsGateNet, IsFirstMissing};

use tsc_net::Netlist;

/// The first node whose net's name isn't that of a net that a gate drives, if there is one.
pub fn first_missing(plain: &Netlist, mapped: &Netlist, moved: &[usize]) -> Option<usize>
    requires moved { moved.now ≡ moved_by_name plain.now mapped.now }
    ensures first { MatchOption result ((j : ℕ) → j < length plain.now.circuit.nodes → IsGateNet plain.now mapped.now j) (IsFirstMissing plain.now mapped.now) }
{
    for node in 0..plain.nodes() {
        if !is_gate_net(plain, mapped, moved, node) {
            return Some(node);
        }
    }
    None
}

/// Whether the name of a node's net is that of a net that a gate drives.
fn is_gate_net(plain: &Netlist, mapped: &Netlist, moved: &[usize], node: usize) -> bool
    requires moved { moved.now ≡ moved_by_name plain.now mapped.now }
    requires node { node < length plain.now.circuit.nodes }
    ensures gate { IsTrue result ↔ IsGateNet plain.now mapped.now node }
{
    // What the netlist keeps is known from here on.
    let _nets = plain.nets();
    let all = mapped.nets();
    let net = moved[plain.node_net(node).number as usize];
    if net < all - mapped.nodes() {
        return false;
    }
    net < all
}
