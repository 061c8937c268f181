//! What of a source its netlist has: the covers that are kept.
ghost use Rattle.std.specs.Prelude.{◌≡◌, IfOk};
ghost use Rattle.net_cones.specs.Cones.{IsCone};
ghost use Rattle.parity_synth.specs.CheckedNet.{kept_places};

use net_cones::cone_places;
use std::alloc::{AllocError, Global};
use tsc_net::{Netlist, PlaceList};

/// The places of the nodes that some output depends on, rising.
///
/// # Errors
///
/// Want of memory.
pub fn kept_places(alloc: Global, source: &Netlist) -> Result<PlaceList, AllocError>
    ensures cone { IfOk result (IsCone source.now.circuit source.now.circuit.outputs) }
    ensures computed { IfOk result (λ places. places ≡ kept_places source.now.circuit) }
{
    // What the source keeps is known from here on.
    let _nets = source.nets();
    cone_places(alloc, source, source.outputs())
}
