//! Whether a net fits a gate of the checker.
ghost use Rattle.std.specs.Prelude.{◌≡◌, ℕ, ◌<◌, ◌↔◌, List, length, slice_index, IsTrue, IfSome, None};
ghost use Rattle.tsc_net.specs.PlanView.{net_numbers};
ghost use Rattle.code_checkers.specs.Block.{IsGateNode};
ghost use Rattle.code_checkers.specs.Nodes.{cover_of, reads_of};
ghost use Rattle.monitored_nets.specs.Marks.{MarksFunction};

use code_checkers::CheckGate;
use tsc_cover::{Cover, is_and, is_buf, is_not, is_or, is_xor};
use tsc_net::{NetId, Netlist, Plan};

/// Whether this is exactly the cover of the gate, which is no place of the word.
fn has_cover(cover: &Cover, gate: CheckGate) -> bool
    requires some { 0 < length (reads_of gate) }
    ensures same { IsTrue result ↔ (cover.now ≡ cover_of gate) }
{
    match gate {
        CheckGate::Word { .. } => false,
        CheckGate::Buf { .. } => is_buf(cover),
        CheckGate::Not { .. } => is_not(cover),
        CheckGate::And { .. } => is_and(cover),
        CheckGate::Or { .. } => is_or(cover),
        CheckGate::Xor { .. } => is_xor(cover),
    }
}

/// The nets at the pins of the node that drives a net, where that node stands outside the function and is the gate.
pub fn gate_pins<'a>(
    net: &'a Netlist,
    plan: &Plan,
    function: &[bool],
    gate: CheckGate,
    at: NetId,
) -> Option<&'a [NetId]>
    requires some { 0 < length (reads_of gate) }
    requires function { MarksFunction net.now.circuit plan.now function.now }
    ensures fits { IfSome result (λ pins. IsGateNode net.now.circuit plan.now at.number (cover_of gate) (net_numbers pins.now)) }
    ensures misfit { result ≡ None → (reads : List ℕ) → IsGateNode net.now.circuit plan.now at.number (cover_of gate) reads → ⊥ }
    ensures sized { IfSome result (λ pins. length pins.now ≡ length (reads_of gate)) }
{
    let first = net.nets() - net.nodes();
    let number = at.number as usize;
    if number < first || number - first >= function.len() {
        return None;
    }
    let place = number - first;
    if function[place] || !has_cover(net.node_cover(place), gate) {
        return None;
    }
    Some(net.node_reads(place))
}

/// Whether a net is that at a place of the word.
pub fn is_monitored_at(word: &[NetId], place: usize, at: NetId) -> bool
    ensures same { IsTrue result ↔ ((place < length word.now) × (at.number ≡ slice_index (net_numbers word.now) place)) }
{
    place < word.len() && word[place].number == at.number
}
