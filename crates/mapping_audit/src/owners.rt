//! The node of each gate: that whose net went to the gate's.
ghost use Rattle.std.specs.Prelude.{IfOk};
ghost use Rattle.mapping_reading.specs.Pins.{at_of};
ghost use Rattle.mapping_reading.specs.Leads.{AreOwners};
ghost use Rattle.mapping_reading.specs.MovedNets.{HaveMoved};

use std::alloc::{AllocError, Global};
use tsc_net::Netlist;

/// For each gate the node whose net went to the gate's, and the number of nodes for any other gate.
///
/// # Errors
///
/// Want of memory.
pub fn gate_owners(
    alloc: Global,
    plain: &Netlist,
    mapped: &Netlist,
    moved: &[usize],
) -> Result<Vec<usize>, AllocError>
    requires moved { HaveMoved plain.now.circuit mapped.now.circuit moved.now }
    ensures owners { IfOk result (λ owners. AreOwners plain.now.circuit mapped.now.circuit (at_of mapped.now.circuit moved.now) owners.items) }
{
    // What the netlists keep is known from here on.
    let _nets = plain.nets();
    let none = plain.nodes();
    let first = mapped.nets() - mapped.nodes();
    let mut owners = vec![in alloc; none; mapped.nodes()]?;
    for node in 0..none {
        let net = moved[plain.node_net(node).number as usize];
        owners[net - first] = node;
    }
    Ok(owners)
}
