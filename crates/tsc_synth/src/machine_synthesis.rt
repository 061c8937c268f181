//! Synthesis of a machine, within the bound on covers.
ghost use Rattle.std.specs.Prelude.{◌≡◌, ◌++◌, ◌≤◌, length, IfOk, IfErr, OnOk, IsFalse};
ghost use Rattle.fault_secure.specs.CodePlan.{IsUnorderedCode};
ghost use Rattle.fault_secure.specs.Logic.Logic.{States};
ghost use Rattle.tsc_net.specs.Names.{IsNumbering};
ghost use Rattle.code_checkers.specs.SelfChecking.{IsSelfChecking};
ghost use Rattle.machine_synth.specs.MachineBound.{machine_bound};
ghost use Rattle.machine_synth.specs.MachineNetlist.{IsMachineNetlist};
ghost use Rattle.tsc_synth.specs.MachineLimits.{RefusesMachine, has_too_many_states, takes_too_many_covers};

use crate::bound::MOST_COVERS;
use crate::machine_covers::machine_bound;
use crate::synthesis::SynthError;
use machine_synth::machine_netlist;
use std::alloc::Global;
use tsc_io::TextKey;
use tsc_net::{Code, Machine, NameTexts, PlannedNetlist};

/// The most states that have words.
const MOST_CODED_STATES: usize = 924;

/// A netlist with check bits of a Berger or an m-out-of-n code and a checker for a machine whose inputs and outputs have these names,
/// with its plan. The names are different, and are keyed under the key of the text that they come from.
///
/// # Errors
///
/// More than 924 states; the bound on the covers is above 1,048,576, which is tested before anything is written; or want of memory.
pub fn synth_machine(
    alloc: Global,
    machine: &Machine,
    inputs: &NameTexts,
    outputs: &NameTexts,
    key: TextKey,
    code: Code,
) -> Result<PlannedNetlist, SynthError>
    requires unordered { IsUnorderedCode code }
    requires inputs { length inputs.now ≡ machine.now.table.inputs }
    requires outputs { length outputs.now ≡ machine.now.table.outputs }
    requires distinct { IsNumbering (inputs.now ++ outputs.now) }
    ensures secure { IfOk result (λ s. IsSelfChecking (States machine.now.table) s.net.circuit s.plan) }
    ensures exact { IfOk result (λ s. IsMachineNetlist machine.now.table inputs.now outputs.now s.net s.plan) }
    ensures code { IfOk result (λ s. s.plan.code ≡ code) }
    ensures covers { IfOk result (λ s. length s.net.circuit.nodes ≤ machine_bound machine.now.table code) }
    ensures states { OnOk result (IsFalse (has_too_many_states machine.now.table)) }
    ensures fits { OnOk result (IsFalse (takes_too_many_covers code machine.now.table)) }
    ensures refused { IfErr result (RefusesMachine code machine.now.table) }
{
    if machine.states() > MOST_CODED_STATES {
        return Err(SynthError::TooManyStates);
    }
    let bound = machine_bound(machine, code);
    if bound > MOST_COVERS {
        return Err(SynthError::TooLarge);
    }
    match machine_netlist(alloc, machine, inputs, outputs, key, code) {
        Ok(made) => Ok(made),
        Err(error) => Err(SynthError::Memory(error)),
    }
}
