//! The nets of the checks of a duplex netlist.
ghost use Rattle.std.specs.Prelude.{◌≡◌, ◌+◌, ◌<◌, ◌^◌, length, All, IfOk};
ghost use Rattle.fault_secure.specs.CodePlan.{concat_places};
ghost use Rattle.tsc_net.specs.PlanView.{net_numbers};
ghost use Rattle.parity_code.specs.GroupChecks.{group_check_nets};

use parity_code::Grouping;
use parity_synth::check_net;
use std::alloc::{AllocError, Global};
use tsc_io::Items;
use tsc_net::Nets;

/// The nets of the checks: the last of each group's nodes, of which the first group's begin at the node place `base`.
pub fn check_nets(
    alloc: Global,
    inputs: usize,
    grouping: &Grouping,
    base: usize,
) -> Result<Nets, AllocError>
    requires filled { All (λ group. 0 < length group) grouping.now }
    requires room { inputs + (base + length (concat_places grouping.now)) < 2 ^ 32 }
    ensures nets { IfOk result (λ nets. net_numbers nets ≡ group_check_nets inputs grouping.now base) }
{
    let mut nets = Items::new(alloc);
    let mut end = base;
    for group in grouping.as_slice() {
        end += group.len();
        nets.push(check_net(inputs, end))?;
    }
    Ok(nets)
}
