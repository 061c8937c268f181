//! The cases of all states.
ghost use Rattle.std.specs.Prelude.{◌≡◌, ℕ, ◌+◌, ◌*◌, ◌^◌, ◌<◌, ◌≤◌, List, Bool, length, count_by, IfOk};
ghost use Rattle.fault_secure.specs.Circuit.{bit};
ghost use Rattle.fault_secure.specs.CodePlan.{HasWidth, IsUnorderedCode};
ghost use Rattle.gate_net.specs.Gates.{AreLines, line_values};
ghost use Rattle.gate_net.specs.Growth.{Grows};
ghost use Rattle.gate_net.specs.Negations.{NegatesOnlyInputs};
ghost use Rattle.tsc_bits.specs.Counting.{some_both};
ghost use Rattle.machine_lines.specs.MachineLines.{bits_of_states};
ghost use Rattle.machine_lines.specs.MachineSize.{row_count};
ghost use Rattle.machine_lines.specs.Cases.{AreCases, has_one, some_case};

use crate::cases::CaseList;
use crate::rows::add_state;
use crate::widths::Widths;
use gate_net::{Gates, Line};
use state_code::StateCode;
use std::alloc::{AllocError, Global};
use tsc_net::{Code, Machine};

/// The cases of all states, whose lines in the gates are 1 where their words are decoded: some of them stands with a 1 at a
/// place exactly where some state whose line is 1 answers with a 1 there.
pub fn machine_cases(
    alloc: Global,
    gates: &mut Gates,
    machine: &Machine,
    decoded: &[Line],
    codes: &StateCode,
    code: Code,
    widths: Widths,
) -> Result<CaseList, AllocError>
    requires unordered { IsUnorderedCode code }
    requires outputs { widths.outputs ≡ machine.now.table.outputs }
    requires some { 0 < widths.outputs }
    requires most { widths.outputs ≤ 64 }
    requires checks { HasWidth code widths.outputs widths.checks }
    requires words { length codes.now.words.words ≡ machine.now.table.states }
    requires inputs { gates.old.inputs ≡ machine.now.table.inputs }
    requires decoded { AreLines gates.old decoded.now }
    requires sized { length decoded.now ≡ machine.now.table.states }
    requires room { length gates.old.gates + (row_count machine.now.table * (6 * machine.now.table.inputs + 3) + machine.now.table.states) < 2 ^ 32 }
    ensures within { IfOk result (AreCases gates.new) }
    ensures value { IfOk result (λ cases. (x : List Bool) (s : ℕ → Bool) (place : ℕ) → some_case widths gates.new (bit x) s place cases ≡ some_both (line_values gates.old (bit x) s decoded.now) (bits_of_states code widths.checks widths.bits codes.now.words.words machine.now.table x place)) }
    ensures count { IfOk result (λ cases. length cases ≡ row_count machine.now.table + machine.now.table.states) }
    ensures ones { IfOk result (λ cases. (place : ℕ) → place < widths.outputs → count_by (has_one widths place) cases ≤ row_count machine.now.table) }
    ensures grown { Grows gates.old gates.new }
    ensures signs { NegatesOnlyInputs gates.old → NegatesOnlyInputs gates.new }
    ensures few { length gates.new.gates ≤ length gates.old.gates + (row_count machine.now.table * (6 * machine.now.table.inputs + 3) + machine.now.table.states) }
{
    let mut cases = CaseList::new(alloc);
    for state in 0..machine.states() {
        add_state(
            alloc,
            gates,
            &mut cases,
            machine,
            state as u32,
            decoded[state],
            codes,
            code,
            widths,
        )?;
    }
    Ok(cases)
}
