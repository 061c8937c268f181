//! The lines of a machine.
ghost use Rattle.std.specs.Prelude.{◌≡◌, ℕ, ◌*◌, ◌<◌, ◌≤◌, ◌^◌, map, length, IfOk};
ghost use Rattle.tsc_bits.specs.Bits.{bits_of};
ghost use Rattle.fault_secure.specs.CodePlan.{HasWidth, IsUnorderedCode};
ghost use Rattle.state_code.specs.Words.{AreStateWords};
ghost use Rattle.machine_lines.specs.MachineLines.{AreMachineLines};
ghost use Rattle.machine_lines.specs.MachineSize.{machine_size};

use crate::checks::checks_of;
use crate::choices::word_lines;
use crate::states::machine_cases;
use crate::widths::Widths;
use gate_net::{Gate, Gates, LineList};
use state_code::{StateCode, decode};
use std::alloc::{AllocError, Global};
use tsc_net::{Code, Machine};

/// Gates, and the lines of a machine's word: its outputs, after them the checks, and then the bits of the next state.
#[derive(Drop)]
pub struct MachineLines {
    /// The gates, which negate only inputs.
    pub gates: Gates,
    /// The line of each place of the word.
    pub word: LineList,
    /// How many of the lines are checks.
    pub checks: usize,
}

/// The gates of a machine under an unordered code, which negate only inputs, and a line for each place of its word. Each line
/// chooses by the decoded state words among the lines of those rows whose answer has a 1 there, and of no row where the
/// completed answer has one: the reset state, and all outputs 0.
///
/// # Errors
///
/// Want of memory.
pub fn machine_lines(
    alloc: Global,
    machine: &Machine,
    codes: &StateCode,
    code: Code,
) -> Result<MachineLines, AllocError>
    requires unordered { IsUnorderedCode code }
    requires width { codes.now.words.width ≡ codes.now.n }
    requires most { codes.now.n ≤ 12 }
    requires words { AreStateWords codes.now.n codes.now.m machine.now.table.states (map (bits_of codes.now.n) codes.now.words.words) }
    requires small { (checks : ℕ) → HasWidth code machine.now.table.outputs checks → 4 * machine_size machine.now.table checks codes.now.n < 2 ^ 32 }
    ensures width { IfOk result (λ made. HasWidth code machine.now.table.outputs made.checks) }
    ensures inputs { IfOk result (λ made. made.gates.inputs ≡ machine.now.table.inputs) }
    ensures states { IfOk result (λ made. made.gates.states ≡ codes.now.n) }
    ensures lines { IfOk result (λ made. AreMachineLines code made.checks codes.now.n codes.now.words.words machine.now.table made.gates made.word) }
    ensures few { IfOk result (λ made. length made.gates.gates ≤ 4 * machine_size machine.now.table made.checks codes.now.n) }
{
    // What the machine keeps is known from here on.
    let _states = machine.states();
    let outputs = machine.outputs();
    let checks = checks_of(code, outputs);
    let widths = Widths {
        outputs,
        checks,
        bits: codes.n,
    };
    let mut gates = Gates::new(alloc, machine.inputs(), codes.n);
    let zero = gates.add(Gate::Zero)?;
    let decoded = decode(alloc, &mut gates, codes)?;
    let cases = machine_cases(
        alloc,
        &mut gates,
        machine,
        decoded.as_slice(),
        codes,
        code,
        widths,
    )?;
    let word = word_lines(alloc, &mut gates, cases.as_slice(), widths, zero)?;
    Ok(MachineLines {
        gates,
        word,
        checks,
    })
}
