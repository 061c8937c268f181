//! The first pin that breaks a rule: of the checker, one that reads what it may not; of the function, one with the wrong sign.
ghost use Rattle.std.specs.Prelude.{◌≡◌, ◌+◌, ◌<◌, length};
ghost use Rattle.fault_secure.specs.Circuit.{nets};
ghost use Rattle.structure_audit.specs.Marks.{ReadsUnmarked, HasMarkedSign, IsPinOf, IsPinSearch, is_readable};

use tsc_net::{NetId, Netlist};

/// A pin of a node.
#[derive(Clone, Copy)]
pub struct PinAt {
    /// The net that the node drives.
    pub node: NetId,
    /// The pin's place, counted from 0.
    pub pin: usize,
}

/// The first pin of the checker that reads neither the checker nor a monitored net, if there is one.
pub fn first_foreign_pin(net: &Netlist, checker: &[bool], word: &[bool]) -> Option<PinAt>
    requires checker { length checker.now ≡ length net.now.circuit.nodes }
    requires word { length word.now ≡ nets net.now.circuit }
    ensures first { IsPinSearch net.now.circuit (ReadsUnmarked net.now.circuit checker.now word.now) result }
{
    for place in 0..net.nodes() {
        if let Some(pin) = foreign_pin(net, checker, word, place) {
            let node = net.node_net(place);
            return Some(PinAt { node, pin });
        }
    }
    None
}

/// The first such pin of one node.
fn foreign_pin(net: &Netlist, checker: &[bool], word: &[bool], place: usize) -> Option<usize>
    requires checker { length checker.now ≡ length net.now.circuit.nodes }
    requires word { length word.now ≡ nets net.now.circuit }
    requires place { place < length net.now.circuit.nodes }
    ensures first { IsPinOf (ReadsUnmarked net.now.circuit checker.now word.now) place result }
{
    if !checker[place] {
        return None;
    }
    let first = net.nets() - net.nodes();
    for (pin, read) in net.node_reads(place).iter().enumerate() {
        if !is_readable(first, checker, word, read.number as usize) {
            return Some(pin);
        }
    }
    None
}

/// Whether the net is monitored, or driven by a node of the checker; the node at place 0 drives the net `first`.
fn is_readable(first: usize, checker: &[bool], word: &[bool], net: usize) -> bool
    requires within { net < first + length checker.now }
    requires word { net < length word.now }
    ensures readable { result ≡ is_readable first checker.now word.now net }
{
    word[net] || net >= first && checker[net - first]
}

/// The first pin of the function that reads another net than an input with the wrong sign, if there is one.
pub fn first_wrong_sign(net: &Netlist, function: &[bool]) -> Option<PinAt>
    requires function { length function.now ≡ length net.now.circuit.nodes }
    ensures first { IsPinSearch net.now.circuit (HasMarkedSign net.now.circuit function.now) result }
{
    for place in 0..net.nodes() {
        if let Some(pin) = wrong_pin(net, function, place) {
            let node = net.node_net(place);
            return Some(PinAt { node, pin });
        }
    }
    None
}

/// The first such pin of one node.
fn wrong_pin(net: &Netlist, function: &[bool], place: usize) -> Option<usize>
    requires function { length function.now ≡ length net.now.circuit.nodes }
    requires place { place < length net.now.circuit.nodes }
    ensures first { IsPinOf (HasMarkedSign net.now.circuit function.now) place result }
{
    if !function[place] {
        return None;
    }
    // What the netlist keeps is known from here on.
    let _nets = net.nets();
    let inputs = net.inputs();
    let cover = net.node_cover(place);
    for (pin, read) in net.node_reads(place).iter().enumerate() {
        if read.number as usize >= inputs && cover.wrong_sign(pin) {
            return Some(pin);
        }
    }
    None
}
