//! Synthesis of a machine: its netlist under an unordered code, and its plan.
ghost use Rattle.std.specs.Prelude.{◌≡◌, ℕ, ◌+◌, ◌*◌, ◌<◌, ◌≤◌, ◌++◌, true, map, length, IfOk};
ghost use Rattle.std.specs.List.{range_with_len};
ghost use Rattle.fault_secure.specs.CodePlan.{HasWidth, IsUnorderedCode, IsWellMade};
ghost use Rattle.fault_secure.specs.Logic.Logic.{States};
ghost use Rattle.tsc_net.specs.Names.{IsNumbering, has_text, place_of_text};
ghost use Rattle.tsc_net.specs.Parts.{fresh_text};
ghost use Rattle.net_writing.specs.Rails.{EndsInRails};
ghost use Rattle.code_checkers.specs.SelfChecking.{IsSelfChecking};
ghost use Rattle.gate_net.specs.Gates.{AreLines};
ghost use Rattle.machine_lines.specs.MachineLines.{AreMachineLines};
ghost use Rattle.machine_lines.specs.MachineSize.{machine_size};
ghost use Rattle.machine_synth.specs.MachineBound.{machine_bound};
ghost use Rattle.machine_synth.specs.MachineFunction.{IsMachinePlan};
ghost use Rattle.machine_synth.specs.MachineNetlist.{IsMachineNetlist};
ghost use Rattle.machine_synth.specs.MachineParts.{IsCodeOf};

use crate::beginning::Latches;
use crate::composing::machine_net;
use crate::fresh::fresh_number;
use crate::planning::machine_plan;
use code_checkers::WordSizes;
use gate_net::NetGates;
use machine_lines::{MachineLines, machine_lines};
use net_writing::{fresh_nets, rails_of};
use state_code::{CodeError, StateCode, codes};
use std::alloc::{AllocError, Global};
use tsc_io::TextKey;
use tsc_net::{Code, Machine, NameTexts, Netlist, Plan, PlannedNetlist};
use unate_synth::unordered_checker;

/// A netlist for a machine of at most 924 states under a Berger or an m-out-of-n code. The machine is one whose bound on covers is
/// kept. The inputs and outputs have the names that are given, which are different; `key` is the key of the text that they come
/// from. The latch outputs, the nets at the latch inputs, the checks, the rails and then the inner nets have fresh names, in this
/// order. Each place of the monitored word has a node of its own, and no node reads more than two nets. Nothing stands in it except
/// gates that the word needs, and the checker; of the inner gates no two are equal. There are at most as many nodes as the bound
/// on covers says.
///
/// # Errors
///
/// Want of memory.
pub fn machine_netlist(
    alloc: Global,
    machine: &Machine,
    inputs: &NameTexts,
    outputs: &NameTexts,
    key: TextKey,
    code: Code,
) -> Result<PlannedNetlist, AllocError>
    requires unordered { IsUnorderedCode code }
    requires few { machine.now.table.states ≤ 924 }
    requires inputs { length inputs.now ≡ machine.now.table.inputs }
    requires outputs { length outputs.now ≡ machine.now.table.outputs }
    requires distinct { IsNumbering (inputs.now ++ outputs.now) }
    requires small { machine_bound machine.now.table code ≤ 1048576 }
    ensures secure { IfOk result (λ u. IsSelfChecking (States machine.now.table) u.net.circuit u.plan) }
    ensures exact { IfOk result (λ u. IsMachineNetlist machine.now.table inputs.now outputs.now u.net u.plan) }
    ensures code { IfOk result (λ u. u.plan.code ≡ code) }
    ensures few { IfOk result (λ u. length u.net.circuit.nodes ≤ machine_bound machine.now.table code) }
{
    let codes = codes_of(alloc, machine)?;
    let MachineLines {
        gates,
        word,
        checks,
    } = lines_of(alloc, machine, &codes, code)?;
    let made = NetGates {
        gates,
        outputs: word,
    };
    planned(
        alloc, machine, inputs, outputs, key, code, &codes, checks, &made,
    )
}

/// The words of a machine's states.
fn codes_of(alloc: Global, machine: &Machine) -> Result<StateCode, AllocError>
    requires few { machine.now.table.states ≤ 924 }
    ensures codes { IfOk result (IsCodeOf machine.now.table.states) }
    ensures most { IfOk result (λ codes. codes.n ≤ 12) }
{
    // What the machine keeps is known from here on.
    let _reset = machine.reset();
    match codes(alloc, machine.states()) {
        Ok(codes) => Ok(codes),
        Err(CodeError::Memory(error)) => Err(error),
        Err(CodeError::TooMany) => unreachable!(),
    }
}

/// The gates of a machine's word, of which there are few.
fn lines_of(
    alloc: Global,
    machine: &Machine,
    codes: &StateCode,
    code: Code,
) -> Result<MachineLines, AllocError>
    requires unordered { IsUnorderedCode code }
    requires few { machine.now.table.states ≤ 924 }
    requires codes { IsCodeOf machine.now.table.states codes.now }
    requires most { codes.now.n ≤ 12 }
    requires small { machine_bound machine.now.table code ≤ 1048576 }
    ensures width { IfOk result (λ made. HasWidth code machine.now.table.outputs made.checks) }
    ensures inputs { IfOk result (λ made. made.gates.inputs ≡ machine.now.table.inputs) }
    ensures states { IfOk result (λ made. made.gates.states ≡ codes.now.n) }
    ensures lines { IfOk result (λ made. AreMachineLines code made.checks codes.now.n codes.now.words.words machine.now.table made.gates made.word) }
    ensures few { IfOk result (λ made. length made.gates.gates ≤ 1048576) }
    ensures size { IfOk result (λ made. length made.gates.gates ≤ 4 * machine_size machine.now.table made.checks codes.now.n) }
{
    // What the machine keeps is known from here on.
    let _outputs = machine.outputs();
    let made = machine_lines(alloc, machine, codes, code)?;
    Ok(made)
}

/// The netlist of the gates of a machine's word, and its plan.
fn planned(
    alloc: Global,
    machine: &Machine,
    inputs: &NameTexts,
    outputs: &NameTexts,
    key: TextKey,
    code: Code,
    codes: &StateCode,
    checks: usize,
    made: &NetGates,
) -> Result<PlannedNetlist, AllocError>
    requires unordered { IsUnorderedCode code }
    requires inputs { length inputs.now ≡ machine.now.table.inputs }
    requires outputs { length outputs.now ≡ machine.now.table.outputs }
    requires distinct { IsNumbering (inputs.now ++ outputs.now) }
    requires codes { IsCodeOf machine.now.table.states codes.now }
    requires most { codes.now.n ≤ 12 }
    requires width { HasWidth code machine.now.table.outputs checks }
    requires reads { made.now.gates.inputs ≡ machine.now.table.inputs }
    requires states { made.now.gates.states ≡ codes.now.n }
    requires lines { AreLines made.now.gates made.now.outputs }
    requires machine { AreMachineLines code checks codes.now.n codes.now.words.words machine.now.table made.now.gates made.now.outputs }
    requires word { length made.now.outputs ≡ machine.now.table.outputs + checks + codes.now.n }
    requires few { length made.now.gates.gates ≤ 1048576 }
    requires size { length made.now.gates.gates ≤ 4 * machine_size machine.now.table checks codes.now.n }
    requires coded { machine.now.table.states ≤ 924 }
    ensures secure { IfOk result (λ u. IsSelfChecking (States machine.now.table) u.net.circuit u.plan) }
    ensures exact { IfOk result (λ u. IsMachineNetlist machine.now.table inputs.now outputs.now u.net u.plan) }
    ensures code { IfOk result (λ u. u.plan.code ≡ code) }
    ensures few { IfOk result (λ u. length u.net.circuit.nodes ≤ machine_bound machine.now.table code) }
{
    // What the machine keeps is known from here on.
    let _inputs = machine.inputs();
    let _states = machine.states();
    let sizes = WordSizes {
        code,
        outputs: machine.outputs(),
        checks,
        latches: codes.n,
        weight: codes.m,
    };
    let gates = unordered_checker(alloc, sizes)?;
    let latches = Latches {
        count: codes.n,
        word: *codes.words.get(machine.reset() as usize),
    };
    let net = machine_net(alloc, inputs, outputs, key, latches, checks, made, &gates)?;
    let number = fresh_number(alloc, inputs, outputs)?;
    let plan = plan_of(alloc, machine, code, codes, &net, number, checks)?;
    Ok(PlannedNetlist { net, plan })
}

/// The plan of a machine's netlist, whose checks have the fresh names of this number after those of the latches, so many of them, and
/// whose rails are the last outputs.
fn plan_of(
    alloc: Global,
    machine: &Machine,
    code: Code,
    codes: &StateCode,
    net: &Netlist,
    number: usize,
    count: usize,
) -> Result<Plan, AllocError>
    requires unordered { IsUnorderedCode code }
    requires width { HasWidth code machine.now.table.outputs count }
    requires codes { IsCodeOf machine.now.table.states codes.now }
    requires most { codes.now.n ≤ 12 }
    requires few { count ≤ 64 }
    requires sized { length net.now.circuit.outputs ≡ machine.now.table.outputs + 2 }
    requires named { (k : ℕ) → k < count → has_text net.now.names (fresh_text number (2 * codes.now.n + k)) ≡ true }
    ensures plan { IfOk result (IsMachinePlan machine.now.table) }
    ensures code { IfOk result (λ plan. plan.code ≡ code) }
    ensures latches { IfOk result (λ plan. plan.latches ≡ codes.now.n) }
    ensures weight { IfOk result (λ plan. plan.weight ≡ codes.now.m) }
    ensures checks { IfOk result (λ plan. plan.checks ≡ map (λ k. place_of_text net.now.names (fresh_text number k)) (range_with_len (2 * codes.now.n) count)) }
    ensures rails { IfOk result (λ plan. EndsInRails net.now.circuit.outputs plan.outputs plan.rail1 plan.rail2) }
    ensures well_made { IfOk result IsWellMade }
{
    let checks = fresh_nets(alloc, net, number, 2 * codes.n, count)?;
    let rails = rails_of(net, machine.outputs());
    let plan = machine_plan(alloc, machine, code, codes, checks.as_slice(), rails)?;
    Ok(plan)
}
