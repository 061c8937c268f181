//! How the parts of a machine's netlist begin: the model, the names of inputs and outputs, fresh names, and the latches.
ghost use Rattle.std.specs.Prelude.{◌≡◌, ◌+◌, ◌-◌, ◌*◌, ◌<◌, ◌≤◌, ◌^◌, ◌++◌, [], None, length, OnOk};
ghost use Rattle.tsc_bits.specs.Bits.{bit_worth};
ghost use Rattle.tsc_net.specs.Names.{text_at, IsNumbering};
ghost use Rattle.tsc_net.specs.Parts.{no_parts, with_latch};
ghost use Rattle.machine_synth.specs.MachineParts.{with_names, with_inputs, with_latches, machine_parts};

use net_building::add_fresh_names;
use std::alloc::{AllocError, Global};
use tsc_cover::bit_at;
use tsc_net::{Name, NameTexts, Parts};

/// The latches of a machine's netlist.
#[derive(Clone, Copy)]
pub struct Latches {
    /// How many there are, at most 64.
    pub count: usize,
    /// The word that they hold first; its most significant bit is the first latch's.
    pub word: u64,
}

/// Gives the model its name, adds the inputs, names the outputs, and adds fresh names. The latches give the first of these, and
/// read the next ones.
pub fn begin(
    alloc: Global,
    parts: &mut Parts,
    inputs: &NameTexts,
    outputs: &NameTexts,
    latches: Latches,
    fresh: usize,
) -> Result<(), AllocError>
    requires empty { parts.old ≡ no_parts }
    requires distinct { IsNumbering (inputs.now ++ outputs.now) }
    requires few { latches.count ≤ 64 }
    requires fresh { 2 * latches.count ≤ fresh }
    requires room { length inputs.now + length outputs.now + fresh < 2 ^ 32 }
    ensures parts { OnOk result (parts.new ≡ machine_parts inputs.now outputs.now latches.count latches.word fresh) }
    ensures distinct { OnOk result (IsNumbering parts.new.names) }
{
    parts.model(b"machine")?;
    add_names(parts, inputs)?;
    add_names(parts, outputs)?;
    add_inputs(parts, inputs.len())?;
    add_fresh_names(alloc, parts, fresh)?;
    add_latches(parts, inputs.len() + outputs.len(), latches)
}

/// Adds names that are new.
fn add_names(parts: &mut Parts, texts: &NameTexts) -> Result<(), AllocError>
    requires early { parts.old.fresh ≡ None }
    requires distinct { IsNumbering (parts.old.names ++ texts.now) }
    requires room { length parts.old.names + length texts.now < 2 ^ 32 }
    ensures added { OnOk result (parts.new ≡ with_names parts.old texts.now) }
{
    for place in 0..texts.len() {
        parts.name(texts.get(place).as_slice())?;
    }
    Ok(())
}

/// Adds the first names, so many of them, as inputs.
fn add_inputs(parts: &mut Parts, count: usize) -> Result<(), AllocError>
    requires none { parts.old.named.inputs ≡ [] }
    requires names { count ≤ length parts.old.names }
    requires few { length parts.old.names < 2 ^ 32 }
    ensures added { OnOk result (parts.new ≡ with_inputs parts.old count) }
{
    for place in 0..count {
        parts.input(Name {
            number: place as u32,
        })?;
    }
    Ok(())
}

/// Adds latches: they give names from number `first` on, and read as many after these.
fn add_latches(parts: &mut Parts, first: usize, latches: Latches) -> Result<(), AllocError>
    requires few { latches.count ≤ 64 }
    requires names { first + 2 * latches.count ≤ length parts.old.names }
    requires room { length parts.old.names < 2 ^ 32 }
    ensures added { OnOk result (parts.new ≡ with_latches parts.old first latches.count latches.word latches.count) }
{
    for place in 0..latches.count {
        add_latch(parts, first, latches, place)?;
    }
    Ok(())
}

/// Adds the latch at a place.
fn add_latch(
    parts: &mut Parts,
    first: usize,
    latches: Latches,
    place: usize,
) -> Result<(), AllocError>
    requires place { place < latches.count }
    requires few { latches.count ≤ 64 }
    requires names { first + 2 * latches.count ≤ length parts.old.names }
    requires room { length parts.old.names < 2 ^ 32 }
    ensures added { OnOk result (parts.new ≡ with_latch parts.old (text_at parts.old.names (first + latches.count + place)) (text_at parts.old.names (first + place)) (bit_worth (latches.count - 1 - place) latches.word)) }
{
    let reads = Name {
        number: (first + latches.count + place) as u32,
    };
    let out = Name {
        number: (first + place) as u32,
    };
    parts.latch(reads, out, bit_at(latches.word, latches.count - 1 - place))
}
