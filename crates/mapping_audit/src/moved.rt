//! Where nets went, by their names.
ghost use Rattle.std.specs.Prelude.{◌≡◌, ◌<◌, IfOk};
ghost use Rattle.fault_secure.specs.Circuit.{nets};
ghost use Rattle.tsc_net.specs.Names.{text_at, place_of_text};
ghost use Rattle.mapping_reading.specs.NamedMapping.{moved_by_name};
ghost use Rattle.mapping_audit.specs.NamesFound.{HasPlaces};

use std::alloc::{AllocError, Global};
use std::collections::HashMap;
use tsc_io::TextKey;
use tsc_net::{NetId, Netlist};

/// For each net the net of `mapped` with its name, and the number of its nets where there is none.
///
/// # Errors
///
/// Want of memory.
pub fn moved_nets(
    alloc: Global,
    plain: &Netlist,
    mapped: &Netlist,
) -> Result<Vec<usize>, AllocError>
    ensures moved { IfOk result (λ moved. moved.items ≡ moved_by_name plain.now mapped.now) }
{
    let places = places_of(alloc, mapped)?;
    moved_among(alloc, plain, mapped, &places)
}

/// The number of each net by its name, in a table that has room for all from the start.
fn places_of<'a>(
    alloc: Global,
    net: &'a Netlist,
) -> Result<HashMap<&'a [u8], usize, TextKey>, AllocError>
    ensures places { IfOk result (HasPlaces net.now.names) }
{
    let count = net.nets();
    let mut places = HashMap::with_capacity_and_hasher(alloc, count, net.key())?;
    for number in 0..count {
        places.insert(name_at(net, number), number)?;
    }
    Ok(places)
}

/// For each net the place of its name among those of `mapped`, and the number of these where it isn't there.
fn moved_among(
    alloc: Global,
    plain: &Netlist,
    mapped: &Netlist,
    places: &HashMap<&[u8], usize, TextKey>,
) -> Result<Vec<usize>, AllocError>
    requires places { HasPlaces mapped.now.names places.now }
    ensures moved { IfOk result (λ moved. moved.items ≡ moved_by_name plain.now mapped.now) }
{
    let count = plain.nets();
    let mut moved = Vec::with_capacity(alloc, count)?;
    for net in 0..count {
        moved.push(place_of(mapped, places, name_at(plain, net)))?;
    }
    Ok(moved)
}

/// The number of the net of `mapped` with this name, and that of all its nets where there is none.
fn place_of(mapped: &Netlist, places: &HashMap<&[u8], usize, TextKey>, name: &[u8]) -> usize
    requires places { HasPlaces mapped.now.names places.now }
    ensures place { result ≡ place_of_text mapped.now.names name.now }
{
    match places.get(name).copied() {
        Some(place) => place,
        None => mapped.nets(),
    }
}

/// The name of the net with this number.
pub fn name_at(net: &Netlist, number: usize) -> &[u8]
    requires within { number < nets net.now.circuit }
    ensures name { result.now ≡ text_at net.now.names number }
{
    // What the netlist keeps is known from here on.
    let _nets = net.nets();
    net.name(NetId {
        number: number as u32,
    })
}
