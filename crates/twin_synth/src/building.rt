//! The checked netlist of one by numbers.
ghost use Rattle.std.specs.Prelude.{◌≡◌, ◌+◌, ◌<◌, ◌^◌, map, length, All, IfOk, OnOk};
ghost use Rattle.tsc_bits.specs.Lists.{AreApart};
ghost use Rattle.tsc_net.specs.NetlistOf.{IsBuilt, named_of};
ghost use Rattle.net_building.specs.Names.{numbered as name_with};
ghost use Rattle.twin_synth.specs.inner.Built.{named_to, parts_to};

use crate::numbered::Numbered;
use net_building::built;
use std::alloc::{AllocError, Global};
use tsc_io::{Items, TextKey};
use tsc_net::{Name, NameList, Netlist, Parts};

/// The checked netlist of one by numbers, whose names are kept under a key.
///
/// # Errors
///
/// Want of memory.
pub fn net_of_numbers(
    alloc: Global,
    key: TextKey,
    numbered: &Numbered,
) -> Result<Netlist, AllocError>
    requires built { IsBuilt numbered.now }
    requires once { AreApart numbered.now.circuit.outputs }
    ensures exact { IfOk result (λ net. net ≡ numbered.now) }
{
    let parts = parts_of_numbers(alloc, key, numbered)?;
    built(alloc, parts)
}

/// The parts of a netlist by numbers: the name of net n has the number n.
fn parts_of_numbers(alloc: Global, key: TextKey, numbered: &Numbered) -> Result<Parts, AllocError>
    requires built { IsBuilt numbered.now }
    ensures named { IfOk result (λ parts. parts.named ≡ named_of numbered.now) }
{
    let mut parts = Parts::keyed(alloc, key);
    parts.model(numbered.model())?;
    add_names(numbered, &mut parts)?;
    add_inputs(numbered, &mut parts)?;
    add_latches(numbered, &mut parts)?;
    add_nodes(alloc, numbered, &mut parts)?;
    add_outputs(numbered, &mut parts)?;
    Ok(parts)
}

/// The name with a number.
fn name_of(number: usize) -> Name
    requires few { number < 2 ^ 32 }
    ensures name { result ≡ name_with number }
{
    Name {
        number: number as u32,
    }
}

/// Names every net, in order.
fn add_names(numbered: &Numbered, parts: &mut Parts) -> Result<(), AllocError>
    requires built { IsBuilt numbered.now }
    requires empty { parts.old ≡ named_to numbered.now 0 }
    ensures names { OnOk result (parts.new ≡ parts_to numbered.now 0 0 0 0) }
{
    for place in 0..numbered.names() {
        add_name(numbered, place, parts)?;
    }
    Ok(())
}

/// Names the net `place`.
fn add_name(numbered: &Numbered, place: usize, parts: &mut Parts) -> Result<(), AllocError>
    requires built { IsBuilt numbered.now }
    requires within { place < length numbered.now.names }
    requires begun { parts.old ≡ named_to numbered.now place }
    ensures named { OnOk result (parts.new ≡ named_to numbered.now (place + 1)) }
{
    parts.name(numbered.name(place))?;
    Ok(())
}

/// Adds the inputs.
fn add_inputs(numbered: &Numbered, parts: &mut Parts) -> Result<(), AllocError>
    requires built { IsBuilt numbered.now }
    requires begun { parts.old ≡ parts_to numbered.now 0 0 0 0 }
    ensures added { OnOk result (parts.new ≡ parts_to numbered.now numbered.now.circuit.inputs 0 0 0) }
{
    for place in 0..numbered.inputs() {
        add_input(numbered, place, parts)?;
    }
    Ok(())
}

/// Adds the input at `place`.
fn add_input(numbered: &Numbered, place: usize, parts: &mut Parts) -> Result<(), AllocError>
    requires built { IsBuilt numbered.now }
    requires within { place < numbered.now.circuit.inputs }
    requires begun { parts.old ≡ parts_to numbered.now place 0 0 0 }
    ensures added { OnOk result (parts.new ≡ parts_to numbered.now (place + 1) 0 0 0) }
{
    parts.input(name_of(place))
}

/// Adds the latches.
fn add_latches(numbered: &Numbered, parts: &mut Parts) -> Result<(), AllocError>
    requires built { IsBuilt numbered.now }
    requires begun { parts.old ≡ parts_to numbered.now numbered.now.circuit.inputs 0 0 0 }
    ensures added { OnOk result (parts.new ≡ parts_to numbered.now numbered.now.circuit.inputs (length numbered.now.circuit.latches) 0 0) }
{
    for place in 0..numbered.latches() {
        add_latch(numbered, place, parts)?;
    }
    Ok(())
}

/// Adds the latch at `place`.
fn add_latch(numbered: &Numbered, place: usize, parts: &mut Parts) -> Result<(), AllocError>
    requires built { IsBuilt numbered.now }
    requires within { place < length numbered.now.circuit.latches }
    requires begun { parts.old ≡ parts_to numbered.now numbered.now.circuit.inputs place 0 0 }
    ensures added { OnOk result (parts.new ≡ parts_to numbered.now numbered.now.circuit.inputs (place + 1) 0 0) }
{
    let latch = numbered.latch(place);
    let reads = name_of(latch.reads());
    let out = name_of(numbered.inputs() + place);
    parts.latch(reads, out, latch.init())
}

/// Adds the nodes.
fn add_nodes(alloc: Global, numbered: &Numbered, parts: &mut Parts) -> Result<(), AllocError>
    requires built { IsBuilt numbered.now }
    requires begun { parts.old ≡ parts_to numbered.now numbered.now.circuit.inputs (length numbered.now.circuit.latches) 0 0 }
    ensures added { OnOk result (parts.new ≡ parts_to numbered.now numbered.now.circuit.inputs (length numbered.now.circuit.latches) (length numbered.now.circuit.nodes) 0) }
{
    for place in 0..numbered.nodes() {
        add_node(alloc, numbered, place, parts)?;
    }
    Ok(())
}

/// Adds the node at `place`.
fn add_node(
    alloc: Global,
    numbered: &Numbered,
    place: usize,
    parts: &mut Parts,
) -> Result<(), AllocError>
    requires built { IsBuilt numbered.now }
    requires within { place < length numbered.now.circuit.nodes }
    requires begun { parts.old ≡ parts_to numbered.now numbered.now.circuit.inputs (length numbered.now.circuit.latches) place 0 }
    ensures added { OnOk result (parts.new ≡ parts_to numbered.now numbered.now.circuit.inputs (length numbered.now.circuit.latches) (place + 1) 0) }
{
    let node = numbered.node(place);
    let reads = pin_names(alloc, node.reads())?;
    let out = name_of(numbered.inputs() + numbered.latches() + place);
    let cover = node.cover().copy_of()?;
    parts.node(reads, out, cover)
}

/// The names with these numbers.
fn pin_names(alloc: Global, nets: &[usize]) -> Result<NameList, AllocError>
    requires few { All (λ net. net < 2 ^ 32) nets.now }
    ensures names { IfOk result (λ names. names ≡ map name_with nets.now) }
{
    let mut names = Items::new(alloc);
    for net in nets {
        names.push(name_of(*net))?;
    }
    Ok(names)
}

/// Adds the outputs.
fn add_outputs(numbered: &Numbered, parts: &mut Parts) -> Result<(), AllocError>
    requires built { IsBuilt numbered.now }
    requires begun { parts.old ≡ parts_to numbered.now numbered.now.circuit.inputs (length numbered.now.circuit.latches) (length numbered.now.circuit.nodes) 0 }
    ensures added { OnOk result (parts.new.named ≡ named_of numbered.now) }
{
    for place in 0..numbered.outputs().len() {
        add_output(numbered, place, parts)?;
    }
    Ok(())
}

/// Adds the output at `place`.
fn add_output(numbered: &Numbered, place: usize, parts: &mut Parts) -> Result<(), AllocError>
    requires built { IsBuilt numbered.now }
    requires within { place < length numbered.now.circuit.outputs }
    requires begun { parts.old ≡ parts_to numbered.now numbered.now.circuit.inputs (length numbered.now.circuit.latches) (length numbered.now.circuit.nodes) place }
    ensures added { OnOk result (parts.new ≡ parts_to numbered.now numbered.now.circuit.inputs (length numbered.now.circuit.latches) (length numbered.now.circuit.nodes) (place + 1)) }
{
    parts.output(name_of(numbered.outputs()[place]))
}
