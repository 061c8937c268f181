//! Reading a section of a text.
ghost use Rattle.std.specs.Prelude.{◌≡◌, None, IfOk, IfErr, IfSome, OnOk};
ghost use Rattle.fault_secure.specs.CodePlan.{IsPlanOf};
ghost use Rattle.tsc_net.specs.NetlistOf.{named_of, netlist_of};
ghost use Rattle.blif_read.specs.NamedText.{named_text};
ghost use Rattle.blif_read.specs.Clocks.{clock_text};
ghost use Rattle.blif_read.specs.Denotes.{plan_circuit, plan_text, refusal, refusal_of_plan};
ghost use Rattle.tsc_text.specs.Section.{section_lines, IsSectionOf};
ghost use Rattle.blif_read.specs.Refusal.{netlist_refusal, IsRefusedBy};

use crate::clocks::{Clock, clock_of, used_clock};
use crate::error::BlifError;
use crate::kinds::Kind;
use crate::net_reading::read_net;
use crate::plan_reading::{read_any_plan, read_plan};
use std::alloc::Global;
use tsc_net::{IndexedNetlist, Netlist, Plan};
use tsc_text::{Lines, Section, SectionLines};

/// What a section denotes.
#[derive(Drop)]
pub struct BlifText {
    /// The netlist.
    pub net: Netlist,
    /// Its plan; a source and a netlist without a plan have none.
    pub plan: Option<Plan>,
    /// The clock of registers, and of a netlist whose plan may list no states, where they have one: that of the first latch.
    pub clock: Option<Clock>,
}

/// What a section denotes, as a network without or with registers, as a netlist with its plan, or as a netlist whose plan
/// lines are passed over.
///
/// # Errors
///
/// In this order: the first line with a fault, and there the first fault in the order of `BlifError`; what
/// `Parts::build` refuses; a clock of registers that some line gives or reads; no plan; a name in the plan that is no net;
/// a plan that breaks a rule; where it lists no states, registers whose clocks don't fit. Want of memory may come at any place.
pub fn read_blif(
    alloc: Global,
    lines: &Lines,
    section: Section,
    kind: Kind,
) -> Result<BlifText, BlifError>
    requires section { IsSectionOf lines.now section }
    ensures net { IfOk result (λ text. named_of text.net ≡ named_text (section_lines lines.now section)) }
    ensures exact { IfOk result (λ text. text.net ≡ netlist_of (named_text (section_lines lines.now section))) }
    ensures plan { IfOk result (λ text. text.plan ≡ plan_text kind (section_lines lines.now section) text.net) }
    ensures clock { IfOk result (λ text. text.clock ≡ clock_text kind (section_lines lines.now section)) }
    ensures of_net { IfOk result (λ text. IfSome text.plan (IsPlanOf (plan_circuit kind (section_lines lines.now section) text.net))) }
    ensures sound { OnOk result (refusal kind (section_lines lines.now section) ≡ None) }
    ensures refused { IfErr result (IsRefusedBy (refusal kind (section_lines lines.now section))) }
{
    // That the text has few words is known from here on.
    let _lines = lines.len();
    let section = SectionLines::of(lines, section);
    let net = read_net(alloc, &section, kind)?;
    let plan = read_last(alloc, &section, &net, kind)?;
    let clock = match clock_of(alloc, &section, kind) {
        Ok(clock) => clock,
        Err(error) => return Err(BlifError::Memory(error)),
    };
    Ok(BlifText {
        net: net.into_netlist(),
        plan,
        clock,
    })
}

/// The plan of a netlist, of which the lines of a section have no fault. Of registers it is asked that no line gives or reads
/// their clock.
#[tactic(auto, using(crate::proofs::PlannedLines::planned_section, crate::proofs::PlannedLines::any_planned_section))]
fn read_last(
    alloc: Global,
    section: &SectionLines,
    net: &IndexedNetlist,
    kind: Kind,
) -> Result<Option<Plan>, BlifError>
    requires exact { net.now ≡ netlist_of (named_text section.now) }
    requires sound { netlist_refusal kind section.now ≡ None }
    ensures plan { IfOk result (λ plan. plan ≡ plan_text kind section.now net.now) }
    ensures of_net { IfOk result (λ plan. IfSome plan (IsPlanOf (plan_circuit kind section.now net.now))) }
    ensures sound { OnOk result (refusal_of_plan kind section.now ≡ None) }
    ensures refused { IfErr result (IsRefusedBy (refusal_of_plan kind section.now)) }
{
    match kind {
        Kind::Source | Kind::Unplanned => Ok(None),
        Kind::Registers => match used_clock(section) {
            Some(line) => Err(BlifError::LatchClock { line }),
            None => Ok(None),
        },
        Kind::Netlist => {
            let plan = read_plan(alloc, section, net, true)?;
            Ok(Some(plan))
        }
        Kind::AnyPlan => {
            let plan = read_any_plan(alloc, section, net)?;
            Ok(Some(plan))
        }
    }
}
