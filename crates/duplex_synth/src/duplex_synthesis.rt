//! Duplex synthesis: a netlist that is written, and its plan.
ghost use Rattle.std.specs.Prelude.{◌≡◌, ◌+◌, ◌*◌, ◌≤◌, length, IfOk};
ghost use Rattle.fault_secure.specs.declared.code.Code.TheVariants.{Parity};
ghost use Rattle.fault_secure.specs.Logic.Logic.{Network};
ghost use Rattle.fault_secure.specs.Size.{network_size};
ghost use Rattle.parity_code.specs.FirstFit.{AreFirstFit, first_fit_groups};
ghost use Rattle.code_checkers.specs.SelfChecking.{IsSelfChecking};
ghost use Rattle.tsc_bits.specs.Lists.{AreApart};
ghost use Rattle.duplex_synth.specs.DuplexNet.{IsDuplexNetlist, duplex_bound};

use crate::checks::check_nets;
use crate::composing::written;
use net_writing::rails_of;
use parity_code::Grouping;
use parity_synth::{checker_gates, kept_places, parity_plan};
use std::alloc::{AllocError, Global};
use tsc_net::{Netlist, PlannedNetlist};

/// The duplex netlist of a network, whose outputs are different nets, and its plan: one copy, which the checks of all groups share.
///
/// # Errors
///
/// Want of memory.
pub fn duplex_netlist(
    alloc: Global,
    source: &Netlist,
    grouping: &Grouping,
) -> Result<PlannedNetlist, AllocError>
    requires combinational { length source.now.circuit.latches ≡ 0 }
    requires few { length source.now.circuit.outputs ≤ 64 }
    requires once { AreApart source.now.circuit.outputs }
    requires small { source.now.circuit.inputs + 3 * network_size source.now.circuit ≤ 1048576 }
    requires fit { AreFirstFit source.now.circuit grouping.now }
    requires computed { grouping.now ≡ first_fit_groups source.now.circuit }
    ensures secure { IfOk result (λ s. IsSelfChecking (Network source.now.circuit) s.net.circuit s.plan) }
    ensures exact { IfOk result (λ s. IsDuplexNetlist source.now s.net s.plan) }
    ensures code { IfOk result (λ s. s.plan.code ≡ Parity) }
    ensures few { IfOk result (λ s. length s.net.circuit.nodes ≤ duplex_bound source.now.circuit) }
{
    // What the source keeps is known from here on.
    let _nets = source.nets();
    let _order = source.order();
    let outputs = source.outputs().len();
    let kept = kept_places(alloc, source)?;
    let covers = kept.len();
    let checks = check_nets(alloc, source.inputs(), grouping, covers + covers)?;
    let gates = checker_gates(alloc, outputs, grouping, checks.as_slice())?;
    let net = written(alloc, source, grouping, kept.as_slice(), &gates)?;
    let rails = rails_of(&net, outputs);
    let plan = parity_plan(alloc, outputs, grouping, checks.as_slice(), rails)?;
    Ok(PlannedNetlist { net, plan })
}
