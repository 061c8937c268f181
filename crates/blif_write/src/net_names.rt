//! Names of nets, as words of a line.
ghost use Rattle.std.specs.Prelude.{◌≡◌, ◌<◌, OnOk, All, length, map, take};
ghost use Rattle.tsc_net.specs.NetlistOf.{IsBuilt, names_of};
ghost use Rattle.tsc_net.specs.PlanView.{net_numbers};
ghost use Rattle.blif_write.specs.NamedPlan.{output_name};
ghost use Rattle.blif_write.specs.NetLines.{AreNets};
ghost use Rattle.blif_write.specs.Steps.{after_word, after_words};

use crate::words::push_word;
use std::alloc::AllocError;
use tsc_io::Bytes;
use tsc_net::{NetId, Netlist};

/// Adds the names of these nets.
pub fn push_names(out: &mut Bytes, net: &Netlist, list: &[NetId]) -> Result<(), AllocError>
    requires known { AreNets net.now.circuit (net_numbers list.now) }
    ensures names { OnOk result (out.new ≡ after_words out.old (names_of net.now.names (net_numbers list.now))) }
{
    for id in list {
        push_word(out, net.name(*id))?;
    }
    Ok(())
}

/// Adds the names of the inputs.
pub fn push_inputs(out: &mut Bytes, net: &Netlist) -> Result<(), AllocError>
    requires checked { IsBuilt net.now }
    ensures names { OnOk result (out.new ≡ after_words out.old (take net.now.circuit.inputs net.now.names)) }
{
    for number in 0..net.inputs() {
        let id = NetId {
            number: number as u32,
        };
        push_word(out, net.name(id))?;
    }
    Ok(())
}

/// Adds the name of the output at a place.
pub fn push_output(out: &mut Bytes, net: &Netlist, place: usize) -> Result<(), AllocError>
    requires checked { IsBuilt net.now }
    requires within { place < length net.now.circuit.outputs }
    ensures name { OnOk result (out.new ≡ after_word out.old (output_name net.now place)) }
{
    let id = net.outputs()[place];
    push_word(out, net.name(id))
}

/// Adds the names of the outputs at these places.
pub fn push_places(out: &mut Bytes, net: &Netlist, places: &[usize]) -> Result<(), AllocError>
    requires checked { IsBuilt net.now }
    requires within { All (λ place. place < length net.now.circuit.outputs) places.now }
    ensures names { OnOk result (out.new ≡ after_words out.old (map (output_name net.now) places.now)) }
{
    for place in places {
        push_output(out, net, *place)?;
    }
    Ok(())
}
