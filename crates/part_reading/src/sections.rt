//! Reading a section of a text as a part of a joint.
ghost use Rattle.std.specs.Prelude.{◌≡◌, ◌≤◌, None, length, IfOk, IfErr, OnOk};
ghost use Rattle.fault_secure.specs.CodePlan.{IsPlanOf};
ghost use Rattle.blif_read.specs.Denotes.{plan_circuit};
ghost use Rattle.blif_read.specs.declared.kinds.Kind.TheVariants.{AnyPlan};
ghost use Rattle.module_join.specs.JoinParts.{parts_as};
ghost use Rattle.module_join.specs.JointNet.{joint_clock};
ghost use Rattle.text_sections.specs.Denoted.{lines_from};
ghost use Rattle.text_sections.specs.Refused.{IsRefusedBy, refusal_from};
ghost use Rattle.part_reading.specs.PartRefusal.{part_refusal};
ghost use Rattle.part_reading.specs.Parts.{IsPartOf, planned_of};

use crate::clocks::clock_line;
use blif_read::{BlifError, BlifText, Kind};
use module_join::Part;
use refusals::{Refusal, TextRefusal};
use std::alloc::Global;
use text_sections::text_from;
use tsc_text::{End, Lines, SectionLines};

/// The netlist with its plan and its clock that the section of the lines from the place `from` on denotes.
fn planned_from(alloc: Global, lines: &Lines, from: usize) -> Result<Part, Refusal>
    requires within { from ≤ length lines.now }
    ensures exact { IfOk result (λ part. part ≡ planned_of (lines_from lines.now from)) }
    ensures of_net { IfOk result (λ part. IsPlanOf (plan_circuit AnyPlan (lines_from lines.now from) part.net) part.plan) }
    ensures allowed { OnOk result (refusal_from AnyPlan lines.now from ≡ None) }
    ensures refused { IfErr result (IsRefusedBy (refusal_from AnyPlan lines.now from)) }
{
    let BlifText { net, plan, clock } = match text_from(alloc, lines, from, Kind::AnyPlan) {
        Ok(text) => text,
        Err(refusal) => return Err(refusal),
    };
    match plan {
        Some(plan) => Ok(Part { net, plan, clock }),
        None => Err(Refusal::Text(TextRefusal::Blif {
            kind: Kind::AnyPlan,
            error: BlifError::NoPlan,
        })),
    }
}

/// The part that the section of the lines from the place `from` on denotes, after these parts: its clock is none, or theirs.
pub fn part_after(
    alloc: Global,
    lines: &Lines,
    from: usize,
    parts: &[Part],
) -> Result<Part, Refusal>
    requires within { from ≤ length lines.now }
    ensures exact { IfOk result (λ part. part ≡ planned_of (lines_from lines.now from)) }
    ensures planned { IfOk result (IsPartOf lines.now) }
    ensures allowed { OnOk result (part_refusal (joint_clock (parts_as parts.now)) (lines_from lines.now from) ≡ None) }
    ensures refused { IfErr result (IsRefusedBy (part_refusal (joint_clock (parts_as parts.now)) (lines_from lines.now from))) }
{
    let part = match planned_from(alloc, lines, from) {
        Ok(part) => part,
        Err(refusal) => return Err(refusal),
    };
    // What its netlist keeps is known from here on.
    let _nets = part.net.nets();
    let section = SectionLines::of(lines, lines.section(from, End::Blif));
    match clock_line(parts, &section, &part.clock) {
        Some(line) => Err(Refusal::Text(TextRefusal::Blif {
            kind: Kind::AnyPlan,
            error: BlifError::LatchClock { line },
        })),
        None => Ok(part),
    }
}
