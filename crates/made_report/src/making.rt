//! The report on a machine that is made from a number: what it is, its netlist under the Berger code, and the audit of both.
ghost use Rattle.std.specs.Prelude.{◌≡◌, ◌*◌, ◌++◌, ◌≤◌, None, length, IfOk, IfErr, OnOk};
ghost use Rattle.audit.specs.Verdict.{audit_points};
ghost use Rattle.code_checkers.specs.SelfChecking.{IsSelfChecking};
ghost use Rattle.fault_secure.specs.Circuit.{nets};
ghost use Rattle.fault_secure.specs.Logic.{States};
ghost use Rattle.machine_synth.specs.MachineBound.{check_count, machine_bound, state_weight};
ghost use Rattle.machine_synth.specs.MachineNetlist.{IsMachineNetlist};
ghost use Rattle.tsc_net.specs.Names.{IsNumbering};
ghost use Rattle.tsc_net.specs.Limits.{most_nets};
ghost use Rattle.made_report.specs.Made.{figures_of, machine_limits_refusal, made_report, report_of};
ghost use Rattle.text_sections.specs.Refused.{IsRefusedBy};
ghost use Rattle.netlist_answers.specs.Refused.{audit_points_refusal, has_too_many_audit_points};

use answers::machine_synthesis_of;
use audit::{
    AuditError, SourceMeaning, Verdict, audit, self_checking_is_accepted, verdict_is_determined,
};
use commands::MachineCode;
use kiss_read::KissText;
use machine_maker::{Figures, counts_of, made_texts_are_machines, make_text, summary_text};
use netlist_answers::verdict_text;
use refusals::{Limit, Refusal, TextRefusal};
use std::alloc::{AllocError, Global};
use text_sections::{machine_alone, text_lines};
use tsc_io::{Bytes, TextKey};
use tsc_net::{Code, Machine, Netlist, Plan, PlannedNetlist};
use tsc_synth::machine_bound;

/// The report on the machine that is made from `number`: its text is read, synthesised and audited as those of the other commands
/// are. Nothing refuses it, so only memory may be missing.
///
/// # Errors
///
/// Want of memory.
pub fn make_report(alloc: Global, number: u64) -> Result<Bytes, Refusal>
    ensures report { IfOk result (λ bytes. bytes ≡ made_report number) }
    ensures memory { IfErr result (IsRefusedBy None) }
{
    made_texts_are_machines();
    let text = match make_text(alloc, number) {
        Ok(text) => text,
        Err(error) => return Err(Refusal::Memory(error)),
    };
    let lines = text_lines(alloc, &text)?;
    let source = machine_alone(alloc, &lines)?;
    let report = report_on(alloc, number, &source, lines.key())?;
    Ok(report)
}

/// The report on a machine.
fn report_on(alloc: Global, number: u64, source: &KissText, key: TextKey) -> Result<Bytes, Refusal>
    requires distinct { IsNumbering (source.now.inputs ++ source.now.outputs) }
    requires inputs { length source.now.inputs ≡ source.now.machine.table.inputs }
    requires outputs { length source.now.outputs ≡ source.now.machine.table.outputs }
    ensures report { IfOk result (λ bytes. bytes ≡ report_of number source.now.machine.table) }
    ensures allowed { OnOk result (machine_limits_refusal source.now.machine.table ≡ None) }
    ensures refused { IfErr result (IsRefusedBy (machine_limits_refusal source.now.machine.table)) }
{
    // What the machine keeps is known from here on.
    let _inputs = source.machine.inputs();
    let _outputs = source.machine.outputs();
    let made = machine_synthesis_of(alloc, MachineCode::Berger, source, key)?;
    let verdict = verdict_on(alloc, source, &made.net, &made.plan)?;
    match written_report(alloc, number, source, &made, verdict) {
        Ok(bytes) => Ok(bytes),
        Err(error) => Err(Refusal::Memory(error)),
    }
}

/// The verdict on a netlist that is self-checking for a machine, which is yes.
fn verdict_on(
    alloc: Global,
    source: &KissText,
    net: &Netlist,
    plan: &Plan,
) -> Result<Verdict, Refusal>
    requires secure { IsSelfChecking (States source.now.machine.table) net.now.circuit plan.now }
    requires exact { IsMachineNetlist source.now.machine.table source.now.inputs source.now.outputs net.now plan.now }
    requires latches { length net.now.circuit.latches ≤ 64 }
    requires nets { nets net.now.circuit ≤ most_nets }
    ensures yes { IfOk result (λ verdict. verdict ≡ Verdict.Yes) }
    ensures few { OnOk result (audit_points_refusal (has_too_many_audit_points (States source.now.machine.table)) ≡ None) }
    ensures refused { IfErr result (IsRefusedBy (audit_points_refusal (has_too_many_audit_points (States source.now.machine.table)))) }
{
    self_checking_is_accepted();
    verdict_is_determined();
    let meaning = SourceMeaning::Machine(&source.machine);
    match audit(alloc, &meaning, net, plan) {
        Ok(verdict) => Ok(verdict),
        Err(AuditError::TooManyPoints) => Err(Refusal::Text(TextRefusal::TooMany(
            Limit::AuditPoints,
        ))),
        Err(AuditError::Memory(error)) => Err(Refusal::Memory(error)),
    }
}

/// The report on a machine and its netlist with the verdict on both, which is yes.
fn written_report(
    alloc: Global,
    number: u64,
    source: &KissText,
    made: &PlannedNetlist,
    verdict: Verdict,
) -> Result<Bytes, AllocError>
    requires checks { length made.now.plan.checks ≡ check_count Code.Berger source.now.machine.table.outputs }
    requires latches { length made.now.net.circuit.latches ≡ 2 * state_weight source.now.machine.table.states }
    requires bound { machine_bound source.now.machine.table Code.Berger ≤ 1048576 }
    requires points { audit_points (States source.now.machine.table) ≤ 1048576 }
    requires yes { verdict ≡ Verdict.Yes }
    ensures report { IfOk result (λ bytes. bytes ≡ report_of number source.now.machine.table) }
{
    let mut bytes = summary_text(alloc, number, &figures_of(&source.machine, made))?;
    bytes.append(b"audit ")?;
    let line = verdict_text(alloc, &made.net, verdict)?;
    bytes.append(line.as_slice())?;
    Ok(bytes)
}

/// The figures of a machine and of its netlist under the Berger code.
fn figures_of(machine: &Machine, made: &PlannedNetlist) -> Figures
    requires bound { machine_bound machine.now.table Code.Berger ≤ 1048576 }
    requires points { audit_points (States machine.now.table) ≤ 1048576 }
    requires checks { length made.now.plan.checks ≡ check_count Code.Berger machine.now.table.outputs }
    requires latches { length made.now.net.circuit.latches ≡ 2 * state_weight machine.now.table.states }
    ensures figures { result ≡ figures_of machine.now.table }
{
    let counts = counts_of(machine);
    let checks = made.plan.checks.len();
    let latches = made.net.latches();
    let outputs = machine.outputs();
    Figures {
        states: machine.states() as u64,
        rows: machine.rows().len() as u64,
        inputs: machine.inputs() as u64,
        outputs: outputs as u64,
        checks: checks as u64,
        latches: latches as u64,
        word: (outputs + checks + latches) as u64,
        bound: machine_bound(machine, Code::Berger) as u64,
        points: (machine.states() as u64) << machine.inputs(),
        ones: counts.ones,
        resets: counts.resets,
    }
}
