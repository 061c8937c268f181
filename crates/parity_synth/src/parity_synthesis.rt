//! Parity synthesis: a netlist that is written, and its plan.
ghost use Rattle.std.specs.Prelude.{◌≡◌, ◌+◌, ◌*◌, ◌≤◌, ◌^◌, length, IfOk};
ghost use Rattle.fault_secure.specs.declared.code.Code.TheVariants.{Parity};
ghost use Rattle.fault_secure.specs.Logic.Logic.{Network};
ghost use Rattle.fault_secure.specs.Size.{network_size};
ghost use Rattle.parity_code.specs.FirstFit.{AreFirstFit, first_fit_groups};
ghost use Rattle.code_checkers.specs.SelfChecking.{IsSelfChecking};
ghost use Rattle.tsc_bits.specs.Lists.{AreApart};
ghost use Rattle.parity_synth.specs.ParityNet.{IsParityNetlist};

use crate::checks::check_nets;
use crate::composing::written;
use crate::outline::kept_places;
use crate::planning::{checker_gates, parity_plan};
use net_writing::rails_of;
use parity_code::Grouping;
use std::alloc::{AllocError, Global};
use tsc_net::{Netlist, PlannedNetlist};

/// The parity netlist of a network, whose outputs are different nets, and its plan.
///
/// # Errors
///
/// Want of memory.
pub fn parity_netlist(
    alloc: Global,
    source: &Netlist,
    grouping: &Grouping,
) -> Result<PlannedNetlist, AllocError>
    requires combinational { length source.now.circuit.latches ≡ 0 }
    requires few { length source.now.circuit.outputs ≤ 64 }
    requires once { AreApart source.now.circuit.outputs }
    requires small { source.now.circuit.inputs + (length grouping.now + 2) * network_size source.now.circuit ≤ 1048576 }
    requires fit { AreFirstFit source.now.circuit grouping.now }
    requires computed { grouping.now ≡ first_fit_groups source.now.circuit }
    ensures secure { IfOk result (λ s. IsSelfChecking (Network source.now.circuit) s.net.circuit s.plan) }
    ensures exact { IfOk result (λ s. IsParityNetlist source.now s.net s.plan) }
    ensures code { IfOk result (λ s. s.plan.code ≡ Parity) }
    ensures few { IfOk result (λ s. length s.net.circuit.nodes ≤ 4 * ((length grouping.now + 2) * network_size source.now.circuit + source.now.circuit.inputs + 16 * (length source.now.circuit.outputs + 1) ^ 2)) }
{
    // What the source keeps is known from here on.
    let _nets = source.nets();
    let _order = source.order();
    let outputs = source.outputs().len();
    let kept = kept_places(alloc, source)?;
    let checks = check_nets(alloc, source, grouping, kept.len())?;
    let gates = checker_gates(alloc, outputs, grouping, checks.as_slice())?;
    let net = written(alloc, source, grouping, kept.as_slice(), &gates)?;
    let rails = rails_of(&net, outputs);
    let plan = parity_plan(alloc, outputs, grouping, checks.as_slice(), rails)?;
    Ok(PlannedNetlist { net, plan })
}
