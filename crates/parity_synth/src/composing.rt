//! A parity netlist, as it is composed of its parts.
ghost use Rattle.std.specs.Prelude.{◌≡◌, ◌+◌, ◌*◌, ◌<◌, ◌≤◌, ◌^◌, map, length, All, IfOk, OnOk};
ghost use Rattle.fault_secure.specs.Circuit.{nets};
ghost use Rattle.fault_secure.specs.Logic.Logic.{Network};
ghost use Rattle.fault_secure.specs.Size.{network_size};
ghost use Rattle.tsc_net.specs.PartsView.{IsName, text_of, texts_of};
ghost use Rattle.parity_code.specs.FirstFit.{AreFirstFit, first_fit_groups};
ghost use Rattle.net_cones.specs.Cones.{IsCone};
ghost use Rattle.parity_code.specs.Predictors.{predictors_size};
ghost use Rattle.code_checkers.specs.GateList.{IsCheckerOf};
ghost use Rattle.code_checkers.specs.Within.{ReadsWord};
ghost use Rattle.code_checkers.specs.SelfChecking.{IsSelfChecking};
ghost use Rattle.net_writing.specs.Names.{name_at};
ghost use Rattle.net_writing.specs.CheckerParts.{IsOver};
ghost use Rattle.tsc_bits.specs.Lists.{AreApart};
ghost use Rattle.parity_synth.specs.CheckedNet.{kept_places, plan_of};
ghost use Rattle.parity_synth.specs.ParityNet.{parity_checks, parity_netlist, parity_plan};
ghost use Rattle.parity_synth.specs.Planning.{AreGrouped};
ghost use Rattle.parity_synth.specs.Composed.{with_checked, composed_parts};

use code_checkers::CheckGates;
use net_building::built;
use net_writing::{add_checker, add_outputs, begin, output_names};
use parity_code::{Grouping, add_nodes, add_predictors};
use std::alloc::{AllocError, Global};
use tsc_net::{Name, Netlist, Parts};

/// The netlist of a source: its own covers, the predictors of its groups, and the gates of a checker.
pub fn written(
    alloc: Global,
    source: &Netlist,
    grouping: &Grouping,
    kept: &[usize],
    gates: &CheckGates,
) -> Result<Netlist, AllocError>
    requires combinational { length source.now.circuit.latches ≡ 0 }
    requires few { length source.now.circuit.outputs ≤ 64 }
    requires once { AreApart source.now.circuit.outputs }
    requires fit { AreFirstFit source.now.circuit grouping.now }
    requires groups { grouping.now ≡ first_fit_groups source.now.circuit }
    requires cone { IsCone source.now.circuit source.now.circuit.outputs kept.now }
    requires kept { kept.now ≡ kept_places source.now.circuit }
    requires gates { IsCheckerOf (plan_of source.now.circuit (parity_checks source.now.circuit) 0 0) gates.now }
    requires over { ReadsWord (plan_of source.now.circuit (parity_checks source.now.circuit) 0 0) gates.now }
    requires room { nets source.now.circuit + predictors_size source.now.circuit grouping.now + length gates.now.gates < 2 ^ 32 }
    ensures exact { IfOk result (λ net. net ≡ parity_netlist source.now) }
    ensures secure { IfOk result (λ net. IsSelfChecking (Network source.now.circuit) net.circuit (parity_plan source.now.circuit)) }
    ensures few { IfOk result (λ net. length net.circuit.nodes ≤ 4 * ((length grouping.now + 2) * network_size source.now.circuit + source.now.circuit.inputs + 16 * (length source.now.circuit.outputs + 1) ^ 2)) }
{
    // What the source keeps is known from here on.
    let _nets = source.nets();
    let _order = source.order();
    let parts = composed(alloc, source, grouping, kept, gates)?;
    let net = built(alloc, parts)?;
    // So is what the netlist that was made keeps.
    let _net = net.nets();
    Ok(net)
}

/// The parts of that netlist.
fn composed(
    alloc: Global,
    source: &Netlist,
    grouping: &Grouping,
    kept: &[usize],
    gates: &CheckGates,
) -> Result<Parts, AllocError>
    requires combinational { length source.now.circuit.latches ≡ 0 }
    requires groups { AreGrouped (length source.now.circuit.outputs) grouping.now }
    requires cone { IsCone source.now.circuit source.now.circuit.outputs kept.now }
    requires gates { IsOver (length source.now.circuit.outputs + length grouping.now) gates.now }
    requires room { nets source.now.circuit + predictors_size source.now.circuit grouping.now + length gates.now.gates < 2 ^ 32 }
    ensures parts { IfOk result (λ parts. parts ≡ composed_parts source.now kept.now grouping.now gates.now) }
{
    let mut parts = Parts::keyed(alloc, source.key());
    let names = begin(alloc, source, &mut parts)?;
    // What the source keeps is known from here on.
    let _nets = source.nets();
    add_nodes(alloc, source, kept, names.as_slice(), &mut parts)?;
    let checks = add_predictors(alloc, source, grouping, &mut parts)?;
    add_checked(
        alloc,
        &mut parts,
        source,
        names.as_slice(),
        checks.as_slice(),
        gates,
    )?;
    Ok(parts)
}

/// Adds the outputs, the checker over outputs and checks, and the rails after the outputs.
///
/// # Errors
///
/// Want of memory.
pub fn add_checked(
    alloc: Global,
    parts: &mut Parts,
    source: &Netlist,
    names: &[Name],
    checks: &[Name],
    gates: &CheckGates,
) -> Result<(), AllocError>
    requires sized { length names.now ≡ nets source.now.circuit }
    requires names { All (IsName parts.old.names) names.now }
    requires checks { All (IsName parts.old.names) checks.now }
    requires gates { IsOver (length source.now.circuit.outputs + length checks.now) gates.now }
    requires room { length parts.old.names + length gates.now.gates < 2 ^ 32 }
    ensures added { OnOk result (parts.new ≡ with_checked parts.old (map (λ net. text_of parts.old.names (name_at names.now net)) source.now.circuit.outputs) (texts_of parts.old.names checks.now) gates.now) }
{
    // What the source keeps is known from here on.
    let _nets = source.nets();
    let mut word = output_names(alloc, source, names)?;
    add_outputs(parts, word.as_slice())?;
    word.append(checks)?;
    let made = add_checker(alloc, parts, word.as_slice(), gates, None)?;
    let rails = [*made.get(gates.rail1()), *made.get(gates.rail2())];
    add_outputs(parts, &rails)
}
