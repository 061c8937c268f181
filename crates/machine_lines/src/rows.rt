//! The cases of a state.
ghost use Rattle.std.specs.Prelude.{◌≡◌, ◌+◌, ◌*◌, ◌^◌, ◌<◌, ◌≤◌, All, map, filter, length, IfOk, OnOk};
ghost use Rattle.fault_secure.specs.CodePlan.{HasWidth, IsUnorderedCode};
ghost use Rattle.fault_secure.specs.Logic.{IsStateTable};
ghost use Rattle.gate_net.specs.Gates.{IsLine};
ghost use Rattle.gate_net.specs.Growth.{Grows};
ghost use Rattle.gate_net.specs.Negations.{NegatesOnlyInputs};
ghost use Rattle.state_code.specs.Lines.{may_answer, rows_at};
ghost use Rattle.machine_lines.specs.Cases.{AreCases, AddsCases, AddsState, row_word};

use crate::cases::{CaseList, case_of};
use crate::widths::Widths;
use gate_net::{Gates, Line};
use state_code::{StateCode, row_lines};
use std::alloc::{AllocError, Global};
use tsc_net::{Code, Machine, MachineRow};

/// The rows that may answer at a state, in text order.
fn rows_at(alloc: Global, rows: &[MachineRow], state: u32) -> Result<Vec<MachineRow>, AllocError>
    ensures rows { IfOk result (λ list. list.items ≡ filter (may_answer state) rows.now) }
{
    rows.iter()
        .filter(|row| row.starts_at(state))
        .copied()
        .collect(alloc)
}

/// Adds the case of each row of a state, whose lines these are.
fn add_rows(
    cases: &mut CaseList,
    rows: &[MachineRow],
    lines: &[Line],
    decoded: Line,
    codes: &StateCode,
    code: Code,
    widths: Widths,
) -> Result<(), AllocError>
    requires unordered { IsUnorderedCode code }
    requires some { 0 < widths.outputs }
    requires most { widths.outputs ≤ 64 }
    requires checks { HasWidth code widths.outputs widths.checks }
    requires sized { length lines.now ≡ length rows.now }
    requires states { All (λ row. row.next < length codes.now.words.words) rows.now }
    ensures adds { OnOk result (AddsCases widths cases.old cases.new decoded lines.now (map (row_word code widths codes.now.words.words) rows.now)) }
{
    for place in 0..rows.len() {
        let row = rows[place];
        let case = case_of(
            decoded,
            lines[place],
            row.outputs,
            row.next,
            codes,
            code,
            widths,
        );
        cases.push(case)?;
    }
    Ok(())
}

/// Adds the cases of a state, whose line in the gates is 1 where its word is decoded: one for each of its rows, and one for
/// no row. At most the gates come that `row_lines` adds.
pub fn add_state(
    alloc: Global,
    gates: &mut Gates,
    cases: &mut CaseList,
    machine: &Machine,
    state: u32,
    decoded: Line,
    codes: &StateCode,
    code: Code,
    widths: Widths,
) -> Result<(), AllocError>
    requires unordered { IsUnorderedCode code }
    requires table { IsStateTable machine.now.table }
    requires outputs { widths.outputs ≡ machine.now.table.outputs }
    requires some { 0 < widths.outputs }
    requires most { widths.outputs ≤ 64 }
    requires checks { HasWidth code widths.outputs widths.checks }
    requires words { length codes.now.words.words ≡ machine.now.table.states }
    requires state { state < machine.now.table.states }
    requires inputs { gates.old.inputs ≡ machine.now.table.inputs }
    requires decoded { IsLine gates.old decoded }
    requires cases { AreCases gates.old cases.old }
    requires room { length gates.old.gates + (length (rows_at machine.now.table state) * (6 * machine.now.table.inputs + 3) + 1) < 2 ^ 32 }
    ensures adds { OnOk result (AddsState code widths codes.now.words.words machine.now.table state decoded gates.old gates.new cases.old cases.new) }
    ensures grown { Grows gates.old gates.new }
    ensures signs { NegatesOnlyInputs gates.old → NegatesOnlyInputs gates.new }
    ensures few { length gates.new.gates ≤ length gates.old.gates + (length (rows_at machine.now.table state) * (6 * machine.now.table.inputs + 3) + 1) }
{
    let lines = row_lines(alloc, machine, state, gates)?;
    let rows = rows_at(alloc, machine.rows(), state)?;
    add_rows(
        cases,
        &rows,
        lines.rows.as_slice(),
        decoded,
        codes,
        code,
        widths,
    )?;
    let other = case_of(
        decoded,
        lines.other,
        0,
        machine.reset(),
        codes,
        code,
        widths,
    );
    cases.push(other)?;
    Ok(())
}
