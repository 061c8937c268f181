//! The beginning of the parts of a netlist over a source: the model, the names of the source's nets, and its inputs.
ghost use Rattle.std.specs.Prelude.{◌≡◌, ◌+◌, ◌<◌, IfOk, OnOk};
ghost use Rattle.fault_secure.specs.Circuit.{nets};
ghost use Rattle.tsc_net.specs.Parts.{no_parts};
ghost use Rattle.net_writing.specs.Begun.{begun_to, AreOwnNames};

use std::alloc::{AllocError, Global};
use tsc_io::Items;
use tsc_net::{Name, NameList, NetId, Netlist, Parts};

/// Gives the model its name and adds the inputs of a source, and answers the names of its nets, in order.
///
/// # Errors
///
/// Want of memory.
pub fn begin(alloc: Global, source: &Netlist, parts: &mut Parts) -> Result<NameList, AllocError>
    requires empty { parts.old ≡ no_parts }
    ensures begun { OnOk result (parts.new ≡ begun_to source.now (nets source.now.circuit)) }
    ensures names { IfOk result (AreOwnNames (nets source.now.circuit)) }
{
    parts.model(source.model_name())?;
    let mut names = Items::new(alloc);
    for place in 0..source.nets() {
        let name = begin_net(source, place, parts)?;
        names.push(name)?;
    }
    Ok(names)
}

/// Names the net at `place`, and adds it where it is an input.
fn begin_net(source: &Netlist, place: usize, parts: &mut Parts) -> Result<Name, AllocError>
    requires begun { parts.old ≡ begun_to source.now place }
    requires net { place < nets source.now.circuit }
    ensures begun { OnOk result (parts.new ≡ begun_to source.now (place + 1)) }
    ensures number { IfOk result (λ name. name.number ≡ place) }
{
    // What the source keeps is known from here on.
    let _nets = source.nets();
    let net = NetId {
        number: place as u32,
    };
    let name = parts.name(source.name(net))?;
    if place < source.inputs() {
        parts.input(name)?;
    }
    Ok(name)
}
