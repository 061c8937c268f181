//! Whether two netlists have the same inputs, latches and outputs, by names.
ghost use Rattle.std.specs.Prelude.{◌≡◌, ◌↔◌, ◌+◌, ◌<◌, length, IsTrue};
ghost use Rattle.fault_secure.specs.Circuit.{latch};
ghost use Rattle.tsc_net.specs.NetlistOf.{named_of};
ghost use Rattle.mapping_reading.specs.NamedMapping.{named_latch};

use crate::moved::name_at;
use tsc_net::Netlist;

/// Whether the inputs have the same names.
pub fn have_same_inputs(plain: &Netlist, mapped: &Netlist) -> bool
    ensures same { IsTrue result ↔ ((named_of plain.now).inputs ≡ (named_of mapped.now).inputs) }
{
    // What the netlists keep is known from here on.
    let _nets = plain.nets();
    let _mapped = mapped.nets();
    let count = plain.inputs();
    if count != mapped.inputs() {
        return false;
    }
    for net in 0..count {
        if !is_same_text(name_at(plain, net), name_at(mapped, net)) {
            return false;
        }
    }
    true
}

/// Whether the latches read and give nets of the same names, and begin with the same bits.
pub fn have_same_latches(plain: &Netlist, mapped: &Netlist) -> bool
    ensures same { IsTrue result ↔ ((named_of plain.now).latches ≡ (named_of mapped.now).latches) }
{
    let count = plain.latches();
    if count != mapped.latches() {
        return false;
    }
    for place in 0..count {
        if !is_same_latch(plain, mapped, place) {
            return false;
        }
    }
    true
}

/// Whether two latches at the same place read and give nets of the same names, and begin with the same bit.
fn is_same_latch(plain: &Netlist, mapped: &Netlist, place: usize) -> bool
    requires plain { place < length plain.now.circuit.latches }
    requires mapped { place < length mapped.now.circuit.latches }
    ensures same { IsTrue result ↔ (named_latch plain.now.names (plain.now.circuit.inputs + place) (latch plain.now.circuit place) ≡ named_latch mapped.now.names (mapped.now.circuit.inputs + place) (latch mapped.now.circuit place)) }
{
    // What the netlists keep is known from here on.
    let _nets = plain.nets();
    let _mapped = mapped.nets();
    let first = plain.latch(place);
    let second = mapped.latch(place);
    if first.init != second.init {
        return false;
    }
    if !is_same_text(plain.name(first.reads), mapped.name(second.reads)) {
        return false;
    }
    is_same_text(plain.name(first.out), mapped.name(second.out))
}

/// Whether the outputs have the same names.
pub fn have_same_outputs(plain: &Netlist, mapped: &Netlist) -> bool
    ensures same { IsTrue result ↔ ((named_of plain.now).outputs ≡ (named_of mapped.now).outputs) }
{
    // What the netlists keep is known from here on.
    let _nets = plain.nets();
    let _mapped = mapped.nets();
    let outputs = plain.outputs();
    let others = mapped.outputs();
    if outputs.len() != others.len() {
        return false;
    }
    for (place, net) in outputs.iter().enumerate() {
        if !is_same_text(plain.name(*net), mapped.name(others[place])) {
            return false;
        }
    }
    true
}

/// Whether two texts are the same.
fn is_same_text(a: &[u8], b: &[u8]) -> bool
    ensures same { IsTrue result ↔ (a.now ≡ b.now) }
{
    a == b
}
