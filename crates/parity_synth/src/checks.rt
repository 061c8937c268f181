//! The nets of the checks of a parity netlist.
ghost use Rattle.std.specs.Prelude.{◌≡◌, ◌+◌, ◌-◌, ◌<◌, ◌^◌, map, length, IfOk};
ghost use Rattle.tsc_net.specs.PlanView.{net_numbers};
ghost use Rattle.parity_code.specs.ParityCircuit.{check_nets, predictors_end};
ghost use Rattle.parity_synth.specs.ParityNet.{group_cone_of};
ghost use Rattle.parity_synth.specs.Planning.{AreGrouped};

use parity_code::{Grouping, group_places};
use std::alloc::{AllocError, Global};
use tsc_io::Items;
use tsc_net::{NetId, Netlist, Nets};

/// The nets of the checks: the last of each predictor, of which the first begins at the node place `base`.
pub fn check_nets(
    alloc: Global,
    source: &Netlist,
    grouping: &Grouping,
    base: usize,
) -> Result<Nets, AllocError>
    requires groups { AreGrouped (length source.now.circuit.outputs) grouping.now }
    requires room { source.now.circuit.inputs + predictors_end (map (group_cone_of source.now.circuit) grouping.now) base < 2 ^ 32 }
    ensures nets { IfOk result (λ nets. net_numbers nets ≡ check_nets source.now.circuit.inputs (map (group_cone_of source.now.circuit) grouping.now) base) }
{
    let inputs = source.inputs();
    let mut nets = Items::new(alloc);
    let mut end = base;
    for group in grouping.as_slice() {
        let cone = group_places(alloc, source, group.as_slice())?;
        end += cone.len() + group.len();
        nets.push(check_net(inputs, end))?;
    }
    Ok(nets)
}

/// The net that is driven by the node before `end`.
pub fn check_net(inputs: usize, end: usize) -> NetId
    requires some { 0 < end }
    requires room { inputs + end < 2 ^ 32 }
    ensures net { result.number ≡ inputs + (end - 1) }
{
    NetId {
        number: (inputs + (end - 1)) as u32,
    }
}
