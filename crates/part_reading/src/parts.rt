//! Reading a text as netlists one after another.
ghost use Rattle.std.specs.Prelude.{◌≡◌, ◌<◌, ◌≤◌, All, [], ◌∷◌, ◌++◌, None, length, IfOk, IfErr, OnOk};
ghost use Rattle.module_join.specs.JoinParts.{parts_as};
ghost use Rattle.module_join.specs.JointNet.{joint_clock};
ghost use Rattle.text_sections.specs.Denoted.{lines_from};
ghost use Rattle.text_sections.specs.Refused.{IsRefusedBy};
ghost use Rattle.part_reading.specs.PartClocks.{AreClockedBy};
ghost use Rattle.part_reading.specs.PartRefusal.{part_refusal, parts_refusal, sections_refusal};
ghost use Rattle.part_reading.specs.Parts.{IsPartOf, parts_of, planned_of, sections_behind, sections_of};

use crate::sections::part_after;
use module_join::Part;
use refusals::{Limit, Refusal, TextRefusal};
use std::alloc::Global;
use text_sections::behind_first;
use tsc_io::Items;
use tsc_text::{End, Lines};

/// The most netlists that are read.
const MOST_PARTS: usize = 64;

/// The netlists that the lines denote, one after another, each up to its end line, with their plans, which may list no states, and their
/// clocks: one at least. They are counted before one of them is read. All clocks that there are are one.
///
/// # Errors
///
/// More than 64 netlists; the first refusal of a netlist, or else of its clock; or want of memory.
pub fn planned_parts(alloc: Global, lines: &Lines) -> Result<Items<Part>, Refusal>
    ensures exact { IfOk result (λ parts. parts ≡ parts_of lines.now) }
    ensures planned { IfOk result (λ parts. All (IsPartOf lines.now) parts) }
    ensures some { IfOk result (λ parts. 0 < length parts) }
    ensures few { IfOk result (λ parts. length parts ≤ 64) }
    ensures clocked { IfOk result (λ parts. AreClockedBy (joint_clock (parts_as parts)) (parts_as parts)) }
    ensures allowed { OnOk result (parts_refusal lines.now ≡ None) }
    ensures refused { IfErr result (IsRefusedBy (parts_refusal lines.now)) }
{
    if section_count(lines) > MOST_PARTS {
        return Err(Refusal::Text(TextRefusal::TooMany(Limit::Parts)));
    }
    read_parts(alloc, lines)
}

/// How many sections the lines have.
fn section_count(lines: &Lines) -> usize
    ensures count { result ≡ length (sections_behind lines.now) }
{
    let mut count = 0;
    let mut from = 0;
    while from < lines.len() {
        from = lines.section(from, End::Blif).next;
        count += 1;
    }
    count
}

/// The netlists that the lines denote, however many.
fn read_parts(alloc: Global, lines: &Lines) -> Result<Items<Part>, Refusal>
    ensures exact { IfOk result (λ parts. parts ≡ parts_of lines.now) }
    ensures planned { IfOk result (λ parts. All (IsPartOf lines.now) parts) }
    ensures some { IfOk result (λ parts. 0 < length parts) }
    ensures allowed { OnOk result (sections_refusal None (sections_of lines.now) ≡ None) }
    ensures refused { IfErr result (IsRefusedBy (sections_refusal None (sections_of lines.now))) }
{
    let mut parts = Items::new(alloc);
    push_part(alloc, lines, 0, &mut parts)?;
    let mut from = behind_first(lines);
    while from < lines.len() {
        push_part(alloc, lines, from, &mut parts)?;
        from = lines.section(from, End::Blif).next;
    }
    Ok(parts)
}

/// Adds the netlist that the section of the lines from the place `from` on denotes.
fn push_part(
    alloc: Global,
    lines: &Lines,
    from: usize,
    parts: &mut Items<Part>,
) -> Result<(), Refusal>
    requires within { from ≤ length lines.now }
    ensures added { OnOk result (parts.new ≡ parts.old ++ planned_of (lines_from lines.now from) ∷ []) }
    ensures planned { OnOk result (IsPartOf lines.now (planned_of (lines_from lines.now from))) }
    ensures allowed { OnOk result (part_refusal (joint_clock (parts_as parts.old)) (lines_from lines.now from) ≡ None) }
    ensures refused { IfErr result (IsRefusedBy (part_refusal (joint_clock (parts_as parts.old)) (lines_from lines.now from))) }
{
    let part = match part_after(alloc, lines, from, parts.as_slice()) {
        Ok(part) => part,
        Err(refusal) => return Err(refusal),
    };
    match parts.push(part) {
        Ok(()) => Ok(()),
        Err(error) => Err(Refusal::Memory(error)),
    }
}
