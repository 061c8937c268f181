//! Whether a gate is the very node: its cover over the nets to which the node's went.
ghost use Rattle.std.specs.Prelude.{◌≡◌, ◌↔◌, ◌<◌, length, map, slice_index, All, IsTrue};
ghost use Rattle.tsc_net.specs.PlanView.{net_numbers};
ghost use Rattle.mapping_reading.specs.ReadMapping.{IsSameGate};
ghost use Rattle.mapping_reading.specs.Pins.{at_of};
ghost use Rattle.mapping_reading.specs.MovedNets.{HaveMoved};

use tsc_cover::{Cover, Row01};
use tsc_net::{NetId, Netlist};

/// Whether the gate that drives a node's net is the very node.
pub fn is_same_gate(plain: &Netlist, mapped: &Netlist, moved: &[usize], node: usize) -> bool
    requires moved { HaveMoved plain.now.circuit mapped.now.circuit moved.now }
    requires node { node < length plain.now.circuit.nodes }
    ensures same { IsTrue result ↔ IsSameGate plain.now.circuit mapped.now.circuit (at_of mapped.now.circuit moved.now) node }
{
    // What the netlists keep is known from here on.
    let _nets = plain.nets();
    let first = mapped.nets() - mapped.nodes();
    let gate = moved[plain.node_net(node).number as usize] - first;
    if !are_moved(moved, plain.node_reads(node), mapped.node_reads(gate)) {
        return false;
    }
    same_cover(plain.node_cover(node), mapped.node_cover(gate))
}

/// Whether the nets went to these pins, one by one.
fn are_moved(moved: &[usize], reads: &[NetId], pins: &[NetId]) -> bool
    requires within { All (λ read. read.number < length moved.now) reads.now }
    ensures same { IsTrue result ↔ (net_numbers pins.now ≡ map (slice_index moved.now) (net_numbers reads.now)) }
{
    if reads.len() != pins.len() {
        return false;
    }
    for (pin, read) in reads.iter().enumerate() {
        if moved[read.number as usize] != pins[pin].number as usize {
            return false;
        }
    }
    true
}

/// Whether two covers have the same pins and rows.
fn same_cover(a: &Cover, b: &Cover) -> bool
    ensures same { IsTrue result ↔ (a.now ≡ b.now) }
{
    if a.width() != b.width() {
        return false;
    }
    if a.on() != b.on() {
        return false;
    }
    same_rows(a.rows(), b.rows())
}

/// Whether two lists have the same rows.
fn same_rows(a: &[Row01], b: &[Row01]) -> bool
    ensures same { IsTrue result ↔ (a.now ≡ b.now) }
{
    a == b
}
