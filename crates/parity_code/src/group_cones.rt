//! Cones of groups: the nodes that the outputs of a group depend on.
ghost use Rattle.std.specs.Prelude.{◌≡◌, ◌<◌, length, All, IfOk};
ghost use Rattle.tsc_net.specs.PlanView.{net_numbers};
ghost use Rattle.net_cones.specs.ConeMarks.{cone_of};
ghost use Rattle.parity_code.specs.ParityFunction.{outputs_at};
ghost use Rattle.net_cones.specs.Cones.{IsCone};

use net_cones::cone_places;
use std::alloc::{AllocError, Global};
use tsc_io::Items;
use tsc_net::{Netlist, Nets, PlaceList};

/// The places of the nodes that some output of a group depends on, rising.
///
/// # Errors
///
/// Want of memory.
pub fn group_places(alloc: Global, net: &Netlist, group: &[usize]) -> Result<PlaceList, AllocError>
    requires within { All (λ place. place < length net.now.circuit.outputs) group.now }
    ensures cone { IfOk result (IsCone net.now.circuit (outputs_at net.now.circuit group.now)) }
    ensures computed { IfOk result (λ places. places ≡ cone_of net.now.circuit (outputs_at net.now.circuit group.now)) }
{
    // What the netlist keeps is known from here on.
    let _nets = net.nets();
    let roots = group_nets(alloc, net, group)?;
    cone_places(alloc, net, roots.as_slice())
}

/// The nets of the outputs of a group.
fn group_nets(alloc: Global, net: &Netlist, group: &[usize]) -> Result<Nets, AllocError>
    requires within { All (λ place. place < length net.now.circuit.outputs) group.now }
    ensures nets { IfOk result (λ roots. net_numbers roots ≡ outputs_at net.now.circuit group.now) }
{
    let outputs = net.outputs();
    let mut roots = Items::new(alloc);
    for place in group {
        roots.push(outputs[*place])?;
    }
    Ok(roots)
}
