//! The plan of a twin, and the nets of its watch.
ghost use Rattle.std.specs.Prelude.{◌≡◌, ◌+◌, ◌<◌, ◌^◌, length, slice_index, All, IfOk};
ghost use Rattle.fault_secure.specs.CodePlan.{concat_places};
ghost use Rattle.tsc_net.specs.PlanView.{net_numbers};
ghost use Rattle.parity_code.specs.GroupChecks.{group_check_nets};
ghost use Rattle.parity_synth.specs.CheckedNet.{plan_over};
ghost use Rattle.parity_synth.specs.Planning.{AreGrouped};
ghost use Rattle.twin_synth.specs.inner.Planned.{watch_over};

use crate::checks::check_nets;
use crate::copies::push_range;
use net_writing::rails_of;
use parity_code::Grouping;
use parity_synth::parity_plan;
use std::alloc::{AllocError, Global};
use tsc_io::Items;
use tsc_net::{NetId, Netlist, Nets, PlaceList, Plan};

/// The nets with these numbers.
pub fn nets_of(alloc: Global, list: &[usize]) -> Result<Nets, AllocError>
    requires few { All (λ net. net < 2 ^ 32) list.now }
    ensures nets { IfOk result (λ nets. net_numbers nets ≡ list.now) }
{
    let mut nets = Items::new(alloc);
    for net in list {
        nets.push(NetId {
            number: *net as u32,
        })?;
    }
    Ok(nets)
}

/// How many places there are in some groups.
pub fn place_count(groups: &[PlaceList]) -> usize
    requires room { length (concat_places groups.now) < 2 ^ 32 }
    ensures count { result ≡ length (concat_places groups.now) }
{
    let mut count = 0;
    for group in groups {
        count += group.len();
    }
    count
}

/// What is watched: so many registers, the first of which has the net `first`, and the net before `after`; nothing where no register is.
pub fn watch_nets(
    alloc: Global,
    first: usize,
    watched: usize,
    after: usize,
) -> Result<Nets, AllocError>
    requires few { first + watched < 2 ^ 32 }
    requires within { watched < after + 1 }
    requires small { after < 2 ^ 32 }
    ensures nets { IfOk result (λ nets. net_numbers nets ≡ watch_over first watched after) }
{
    if watched == 0 {
        return Ok(Items::new(alloc));
    }
    let mut list = Items::new(alloc);
    push_range(first, watched, &mut list)?;
    list.push(after - 1)?;
    nets_of(alloc, list.as_slice())
}

/// The plan of a twin with these groups, whose checks' nodes begin at the node place `base`. The first node of all drives the net `first`, and the
/// rails are the two nets after the outputs.
pub fn twin_plan(
    alloc: Global,
    net: &Netlist,
    outputs: usize,
    groups: &Grouping,
    first: usize,
    base: usize,
) -> Result<Plan, AllocError>
    requires some { 0 < outputs }
    requires few { outputs < 65 }
    requires groups { AreGrouped outputs groups.now }
    requires room { first + (base + length (concat_places groups.now)) < 2 ^ 32 }
    requires sized { length net.now.circuit.outputs ≡ outputs + 2 }
    ensures plan { IfOk result (λ plan. plan ≡ plan_over outputs (group_check_nets first groups.now base) groups.now (slice_index net.now.circuit.outputs outputs) (slice_index net.now.circuit.outputs (outputs + 1))) }
{
    let checks = check_nets(alloc, first, groups.as_slice(), base)?;
    let checks = nets_of(alloc, checks.as_slice())?;
    let rails = rails_of(net, outputs);
    parity_plan(alloc, outputs, groups, checks.as_slice(), rails)
}
