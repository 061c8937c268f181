//! The clocks of netlists one after another.
ghost use Rattle.std.specs.Prelude.{◌≡◌, Some};
ghost use Rattle.blif_read.specs.Clocks.{clock_text, first_latch};
ghost use Rattle.blif_read.specs.declared.kinds.Kind.TheVariants.{AnyPlan};
ghost use Rattle.module_join.specs.JoinParts.{parts_as};
ghost use Rattle.module_join.specs.JointNet.{joint_clock as clock_of_joint};
ghost use Rattle.part_reading.specs.PartClocks.{are_other_clocks, clock_line, is_same_clock, is_same_edge, other_clock_at};

use blif_read::{Clock, Edge, clock_misfit, first_latch, used_clock};
use module_join::{Part, joint_clock};
use tsc_text::SectionLines;

/// Whether two edges are the same.
fn is_same_edge(edge: Edge, other: Edge) -> bool
    ensures same { result ≡ is_same_edge edge other }
{
    match (edge, other) {
        (Edge::Rising, Edge::Rising) => true,
        (Edge::Falling, Edge::Falling) => true,
        _ => false,
    }
}

/// Whether two clocks are the same.
fn is_same_clock(clock: &Clock, other: &Clock) -> bool
    ensures same { result ≡ is_same_clock clock.now other.now }
{
    is_same_edge(clock.edge, other.edge) && clock.control.as_slice() == other.control.as_slice()
}

/// Whether a clock differs from that of the first of these parts that has one.
fn is_other_clock(parts: &[Part], clock: &Clock) -> bool
    ensures other { result ≡ are_other_clocks (clock_of_joint (parts_as parts.now)) (Some clock.now) }
{
    match joint_clock(parts) {
        Some(seen) => !is_same_clock(seen, clock),
        None => false,
    }
}

/// The number of the section's first line of a latch, where its clock differs from that of the first of these parts that has one.
fn other_clock(parts: &[Part], section: &SectionLines, clock: &Option<Clock>) -> Option<usize>
    requires clock { clock.now ≡ clock_text AnyPlan section.now }
    ensures line { result ≡ other_clock_at (clock_of_joint (parts_as parts.now)) (first_latch section.now) }
{
    let first = first_latch(section)?;
    match clock {
        Some(clock) if is_other_clock(parts, clock) => Some(first.number()),
        _ => None,
    }
}

/// The number of the line for which the clock of a section is refused, after these parts. It takes no memory.
pub fn clock_line(parts: &[Part], section: &SectionLines, clock: &Option<Clock>) -> Option<usize>
    requires clock { clock.now ≡ clock_text AnyPlan section.now }
    ensures line { result ≡ clock_line (clock_of_joint (parts_as parts.now)) section.now }
{
    if let Some(line) = clock_misfit(section) {
        return Some(line);
    }
    if let Some(line) = used_clock(section) {
        return Some(line);
    }
    other_clock(parts, section, clock)
}
