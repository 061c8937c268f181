//! What of a source its netlist keeps: the registers and covers that some output depends on, through registers.
ghost use Rattle.std.specs.Prelude.{◌≡◌, ◌+◌, ◌≤◌, if◌then◌else◌, [], ◌∷◌, ◌++◌, length, IfOk, OnOk};
ghost use Rattle.register_synth.specs.Kept.{AreKept};
ghost use Rattle.register_synth.specs.inner.Marked.{AreMarked};

use crate::search::reaching_marks;
use std::alloc::{AllocError, Global};
use tsc_io::Items;
use tsc_net::{Netlist, PlaceList};

/// The registers and covers that are kept, by their places, rising.
#[derive(Drop)]
pub struct KeptPlaces {
    /// The places of the registers.
    pub registers: PlaceList,
    /// The places of the covers.
    pub covers: PlaceList,
}

/// The registers and covers that some output depends on, through registers.
///
/// # Errors
///
/// Want of memory.
pub fn kept_places(alloc: Global, net: &Netlist) -> Result<KeptPlaces, AllocError>
    ensures kept { IfOk result (λ kept. AreKept net.now.circuit kept.registers kept.covers) }
{
    // What the netlist keeps is known from here on.
    let _nets = net.nets();
    let marks = reaching_marks(alloc, net, net.outputs())?;
    let inputs = net.inputs();
    let latches = net.latches();
    let registers = places_of(alloc, &marks, inputs, latches)?;
    let covers = places_of(alloc, &marks, inputs + latches, net.nodes())?;
    Ok(KeptPlaces { registers, covers })
}

/// The marked places of a stretch of marks, counted from its begin.
fn places_of(
    alloc: Global,
    marks: &[bool],
    first: usize,
    count: usize,
) -> Result<PlaceList, AllocError>
    requires within { first + count ≤ length marks.now }
    ensures places { IfOk result (AreMarked marks.now first count) }
{
    let mut places = Items::new(alloc);
    for place in 0..count {
        push_if(&mut places, place, marks[first + place])?;
    }
    Ok(places)
}

/// Adds a place to the list where it is marked.
fn push_if(places: &mut PlaceList, place: usize, mark: bool) -> Result<(), AllocError>
    ensures pushed { OnOk result (places.new ≡ (if mark then places.old ++ place ∷ [] else places.old)) }
{
    if mark {
        return places.push(place);
    }
    Ok(())
}
