//! Unate synthesis: the netlist of a network under an unordered code, and its plan.
ghost use Rattle.std.specs.Prelude.{◌≡◌, ◌+◌, ◌-◌, ◌*◌, ◌<◌, ◌≤◌, ℕ, true, map, take, length, IfOk};
ghost use Rattle.std.specs.List.{range_with_len};
ghost use Rattle.fault_secure.specs.CodePlan.{HasWidth, IsUnorderedCode, IsWellMade};
ghost use Rattle.fault_secure.specs.Logic.Logic.{Network};
ghost use Rattle.fault_secure.specs.Size.{network_size};
ghost use Rattle.gate_net.specs.Gates.{AreLines};
ghost use Rattle.gate_net.specs.NetLines.{MeanInputs};
ghost use Rattle.gate_net.specs.Size.{network_gates};
ghost use Rattle.tsc_bits.specs.Lists.{AreApart};
ghost use Rattle.net_writing.specs.Rails.{EndsInRails};
ghost use Rattle.tsc_net.specs.Names.{has_text, place_of_text};
ghost use Rattle.unate_synth.specs.Size.{unate_bound, word_gates};
ghost use Rattle.unate_synth.specs.UnateLines.{AreUnateLines};
ghost use Rattle.unate_synth.specs.UnateNetlist.{IsUnateNetlist, fresh_name};
ghost use Rattle.code_checkers.specs.SelfChecking.{IsSelfChecking};

use crate::checking::unordered_checker;
use crate::network::network_netlist;
use crate::planning::unate_plan;
use crate::unate_gates::unate_gates;
use code_checkers::WordSizes;
use gate_net::NetGates;
use net_writing::{fresh_nets, fresh_number, rails_of};
use std::alloc::{AllocError, Global};
use tsc_net::{Code, Netlist, Plan, PlannedNetlist};

/// A netlist for a network of at most 64 different outputs under a Berger or an m-out-of-n code. The network has a size that follows
/// where its bound on covers is kept. The outputs have their names, and one that is an input stays that input; the checks, then the rails and then
/// the inner nets have fresh names. No node reads more than two nets, and nothing stands in it except gates that an output or a check
/// needs, and the checker; of the inner gates no two are equal. There are at most as many nodes as the bound on covers says.
///
/// # Errors
///
/// Want of memory.
pub fn unate_netlist(
    alloc: Global,
    source: &Netlist,
    code: Code,
) -> Result<PlannedNetlist, AllocError>
    requires combinational { length source.now.circuit.latches ≡ 0 }
    requires few { length source.now.circuit.outputs ≤ 64 }
    requires once { AreApart source.now.circuit.outputs }
    requires unordered { IsUnorderedCode code }
    requires small { source.now.circuit.inputs + 2 * network_size source.now.circuit ≤ 1048576 }
    ensures secure { IfOk result (λ u. IsSelfChecking (Network source.now.circuit) u.net.circuit u.plan) }
    ensures exact { IfOk result (λ u. IsUnateNetlist source.now u.net u.plan) }
    ensures code { IfOk result (λ u. u.plan.code ≡ code) }
    ensures few { IfOk result (λ u. length u.net.circuit.nodes ≤ unate_bound source.now.circuit) }
{
    let made = unate_gates(alloc, source, code)?;
    planned(alloc, source, code, &made)
}

/// The netlist of the gates of a network and of its checks, and its plan.
fn planned(
    alloc: Global,
    source: &Netlist,
    code: Code,
    made: &NetGates,
) -> Result<PlannedNetlist, AllocError>
    requires combinational { length source.now.circuit.latches ≡ 0 }
    requires few { length source.now.circuit.outputs ≤ 64 }
    requires once { AreApart source.now.circuit.outputs }
    requires inputs { made.now.gates.inputs ≡ source.now.circuit.inputs }
    requires states { made.now.gates.states ≡ 0 }
    requires lines { AreLines made.now.gates made.now.outputs }
    requires longer { length source.now.circuit.outputs ≤ length made.now.outputs }
    requires means { MeanInputs source.now.circuit made.now.gates source.now.circuit.outputs (take (length source.now.circuit.outputs) made.now.outputs) }
    requires unate { AreUnateLines source.now.circuit code made.now.gates made.now.outputs }
    requires unordered { IsUnorderedCode code }
    requires small { network_gates source.now.circuit ≤ 1048576 }
    requires gates { length made.now.gates.gates ≤ word_gates source.now.circuit }
    requires width { HasWidth code (length source.now.circuit.outputs) (length made.now.outputs - length source.now.circuit.outputs) }
    ensures secure { IfOk result (λ u. IsSelfChecking (Network source.now.circuit) u.net.circuit u.plan) }
    ensures exact { IfOk result (λ u. IsUnateNetlist source.now u.net u.plan) }
    ensures code { IfOk result (λ u. u.plan.code ≡ code) }
    ensures few { IfOk result (λ u. length u.net.circuit.nodes ≤ unate_bound source.now.circuit) }
{
    // What the source keeps is known from here on.
    let _source = source.nets();
    let outputs = source.outputs().len();
    let count = made.outputs.len() - outputs;
    let sizes = WordSizes {
        code,
        outputs,
        checks: count,
        latches: 0,
        weight: 0,
    };
    let gates = unordered_checker(alloc, sizes)?;
    let net = network_netlist(alloc, source, count, made, &gates)?;
    let plan = plan_of(alloc, code, source, &net, count)?;
    Ok(PlannedNetlist { net, plan })
}

/// The plan of a network's netlist, whose checks have the first fresh names, so many of them, and whose rails are the last outputs.
fn plan_of(
    alloc: Global,
    code: Code,
    source: &Netlist,
    net: &Netlist,
    count: usize,
) -> Result<Plan, AllocError>
    requires some { 0 < length source.now.circuit.outputs }
    requires few { length source.now.circuit.outputs ≤ 64 }
    requires width { HasWidth code (length source.now.circuit.outputs) count }
    requires sized { length net.now.circuit.outputs ≡ length source.now.circuit.outputs + 2 }
    requires named { (k : ℕ) → k < count → has_text net.now.names (fresh_name source.now k) ≡ true }
    ensures code { IfOk result (λ plan. plan.code ≡ code) }
    ensures outputs { IfOk result (λ plan. plan.outputs ≡ length source.now.circuit.outputs) }
    ensures version { IfOk result (λ plan. plan.version ≡ 1) }
    ensures checks { IfOk result (λ plan. plan.checks ≡ map (λ k. place_of_text net.now.names (fresh_name source.now k)) (range_with_len 0 count)) }
    ensures rails { IfOk result (λ plan. EndsInRails net.now.circuit.outputs plan.outputs plan.rail1 plan.rail2) }
    ensures latchless { IfOk result (λ plan. plan.latches ≡ 0) }
    ensures weightless { IfOk result (λ plan. plan.weight ≡ 0) }
    ensures well_made { IfOk result IsWellMade }
{
    let number = fresh_number(alloc, source)?;
    let checks = fresh_nets(alloc, net, number, 0, count)?;
    let outputs = source.outputs().len();
    let rails = rails_of(net, outputs);
    let plan = unate_plan(alloc, code, outputs, checks.as_slice(), rails)?;
    Ok(plan)
}
