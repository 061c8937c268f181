//! A duplex netlist, as it is composed of its parts.
ghost use Rattle.std.specs.Prelude.{◌≡◌, ◌+◌, ◌*◌, ◌<◌, ◌≤◌, ◌^◌, length, IfOk};
ghost use Rattle.fault_secure.specs.Circuit.{nets};
ghost use Rattle.fault_secure.specs.CodePlan.{concat_places};
ghost use Rattle.fault_secure.specs.Logic.Logic.{Network};
ghost use Rattle.fault_secure.specs.Size.{network_size};
ghost use Rattle.parity_code.specs.FirstFit.{AreFirstFit, first_fit_groups};
ghost use Rattle.net_cones.specs.Cones.{IsCone};
ghost use Rattle.code_checkers.specs.GateList.{IsCheckerOf};
ghost use Rattle.code_checkers.specs.Within.{ReadsWord};
ghost use Rattle.code_checkers.specs.SelfChecking.{IsSelfChecking};
ghost use Rattle.net_writing.specs.CheckerParts.{IsOver};
ghost use Rattle.tsc_bits.specs.Lists.{AreApart};
ghost use Rattle.parity_synth.specs.Planning.{AreGrouped};
ghost use Rattle.parity_synth.specs.CheckedNet.{kept_places, plan_of};
ghost use Rattle.duplex_synth.specs.DuplexNet.{duplex_checks, duplex_plan, duplex_netlist, duplex_bound};
ghost use Rattle.duplex_synth.specs.Composed.{duplex_parts};

use crate::shared::add_shared;
use code_checkers::CheckGates;
use net_building::built;
use net_writing::begin;
use parity_code::{Grouping, add_nodes};
use parity_synth::add_checked;
use std::alloc::{AllocError, Global};
use tsc_net::{Netlist, Parts};

/// The netlist of a source: its own covers, one copy of them, the checks of its groups over it, and the gates of a checker.
pub fn written(
    alloc: Global,
    source: &Netlist,
    grouping: &Grouping,
    kept: &[usize],
    gates: &CheckGates,
) -> Result<Netlist, AllocError>
    requires combinational { length source.now.circuit.latches ≡ 0 }
    requires few { length source.now.circuit.outputs ≤ 64 }
    requires once { AreApart source.now.circuit.outputs }
    requires fit { AreFirstFit source.now.circuit grouping.now }
    requires groups { grouping.now ≡ first_fit_groups source.now.circuit }
    requires cone { IsCone source.now.circuit source.now.circuit.outputs kept.now }
    requires kept { kept.now ≡ kept_places source.now.circuit }
    requires gates { IsCheckerOf (plan_of source.now.circuit (duplex_checks source.now.circuit) 0 0) gates.now }
    requires over { ReadsWord (plan_of source.now.circuit (duplex_checks source.now.circuit) 0 0) gates.now }
    requires small { source.now.circuit.inputs + 3 * network_size source.now.circuit ≤ 1048576 }
    ensures exact { IfOk result (λ net. net ≡ duplex_netlist source.now) }
    ensures secure { IfOk result (λ net. IsSelfChecking (Network source.now.circuit) net.circuit (duplex_plan source.now.circuit)) }
    ensures few { IfOk result (λ net. length net.circuit.nodes ≤ duplex_bound source.now.circuit) }
{
    // What the source keeps is known from here on.
    let _nets = source.nets();
    let _order = source.order();
    let parts = composed(alloc, source, grouping, kept, gates)?;
    let net = built(alloc, parts)?;
    // So is what the netlist that was made keeps.
    let _net = net.nets();
    Ok(net)
}

/// The parts of that netlist.
fn composed(
    alloc: Global,
    source: &Netlist,
    grouping: &Grouping,
    kept: &[usize],
    gates: &CheckGates,
) -> Result<Parts, AllocError>
    requires combinational { length source.now.circuit.latches ≡ 0 }
    requires groups { AreGrouped (length source.now.circuit.outputs) grouping.now }
    requires cone { IsCone source.now.circuit source.now.circuit.outputs kept.now }
    requires gates { IsOver (length source.now.circuit.outputs + length grouping.now) gates.now }
    requires room { nets source.now.circuit + (length kept.now + length (concat_places grouping.now)) + length gates.now.gates < 2 ^ 32 }
    ensures parts { IfOk result (λ parts. parts ≡ duplex_parts source.now kept.now grouping.now gates.now) }
{
    let mut parts = Parts::keyed(alloc, source.key());
    let names = begin(alloc, source, &mut parts)?;
    // What the source keeps is known from here on.
    let _nets = source.nets();
    add_nodes(alloc, source, kept, names.as_slice(), &mut parts)?;
    let checks = add_shared(alloc, source, kept, grouping, &mut parts)?;
    add_checked(
        alloc,
        &mut parts,
        source,
        names.as_slice(),
        checks.as_slice(),
        gates,
    )?;
    Ok(parts)
}
