//! First-fit groups of outputs that share no cell, through registers.
ghost use Rattle.std.specs.Prelude.{◌≡◌, ◌<◌, ◌&&◌, not, length, slice_index, All, IfOk, OnOk};
ghost use Rattle.std.specs.List.{list_any, position_or_len};
ghost use Rattle.tsc_bits.specs.Counting.{some_both};
ghost use Rattle.fault_secure.specs.Circuit.{bit};
ghost use Rattle.parity_code.specs.FirstFit.{joined, share};
ghost use Rattle.register_synth.specs.RegisterGroups.{AreRegisterGroups};
ghost use Rattle.register_synth.specs.inner.Sharing.{MarksCells, AreMarks};

use crate::search::reaching_marks;
use parity_code::Grouping;
use std::alloc::{AllocError, Global};
use tsc_io::Items;
use tsc_net::{Bits, Netlist, PlaceList};

/// First fit in output order: an output joins the first group with no member that has a common cell with it, through registers; else it opens
/// a group. Linear in the netlist for each pair of outputs at most.
///
/// # Errors
///
/// Want of memory.
pub fn register_groups(alloc: Global, net: &Netlist) -> Result<Grouping, AllocError>
    ensures groups { IfOk result (AreRegisterGroups net.now.circuit) }
{
    let all = cells_of(alloc, net)?;
    let cells = all.as_slice();
    let mut groups = Items::new(alloc);
    for output in 0..cells.len() {
        join(alloc, &mut groups, cells, output)?;
    }
    Ok(groups)
}

/// For each output, the marks of the cells that reach it.
fn cells_of(alloc: Global, net: &Netlist) -> Result<Items<Bits>, AllocError>
    ensures cells { IfOk result (AreMarks net.now.circuit (length net.now.circuit.outputs)) }
{
    let mut cells = Items::new(alloc);
    for place in 0..net.outputs().len() {
        let marks = cells_reaching(alloc, net, place)?;
        cells.push(marks)?;
    }
    Ok(cells)
}

/// The marks of the cells that reach an output.
fn cells_reaching(alloc: Global, net: &Netlist, place: usize) -> Result<Bits, AllocError>
    requires within { place < length net.now.circuit.outputs }
    ensures marks { IfOk result (MarksCells net.now.circuit (slice_index net.now.circuit.outputs place)) }
{
    // What the netlist keeps is known from here on.
    let _nets = net.nets();
    let root = net.outputs()[place];
    let marks = reaching_marks(alloc, net, &[root])?;
    Items::from_slice(alloc, &marks[net.inputs()..])
}

/// Puts an output into the first group with no member that shares a cell with it, else into a group of its own.
fn join(
    alloc: Global,
    groups: &mut Grouping,
    cells: &[Bits],
    output: usize,
) -> Result<(), AllocError>
    requires within { All (All (λ member. member < length cells.now)) groups.old }
    requires output { output < length cells.now }
    ensures joined { OnOk result (groups.new ≡ joined (share cells.now) groups.old output) }
{
    let place = first_apart(groups.as_slice(), cells, output);
    if place < groups.len() {
        return groups.get_mut(place).push(output);
    }
    let mut group = Items::new(alloc);
    group.push(output)?;
    groups.push(group)
}

/// The place of the first group with no member that shares a cell with an output, or the number of groups.
fn first_apart(groups: &[PlaceList], cells: &[Bits], output: usize) -> usize
    requires within { All (All (λ member. member < length cells.now)) groups.now }
    requires output { output < length cells.now }
    ensures first { result ≡ position_or_len (λ group. not (list_any (share cells.now output) group)) groups.now }
{
    for (place, group) in groups.iter().enumerate() {
        if !shares_with_some(group.as_slice(), cells, output) {
            return place;
        }
    }
    groups.len()
}

/// Whether an output shares a cell with a member of the group.
fn shares_with_some(group: &[usize], cells: &[Bits], output: usize) -> bool
    requires within { All (λ member. member < length cells.now) group.now }
    requires output { output < length cells.now }
    ensures shares { result ≡ list_any (share cells.now output) group.now }
{
    for member in group {
        if marks_meet(cells[output].as_slice(), cells[*member].as_slice()) {
            return true;
        }
    }
    false
}

/// Whether some place is marked in both lists.
fn marks_meet(marks: &[bool], others: &[bool]) -> bool
    ensures meet { result ≡ some_both marks.now others.now }
{
    for place in 0..marks.len() {
        if are_both_marked(marks, others, place) {
            return true;
        }
    }
    false
}

/// Whether the place is marked in both lists.
fn are_both_marked(marks: &[bool], others: &[bool], place: usize) -> bool
    requires within { place < length marks.now }
    ensures both { result ≡ (bit marks.now place && bit others.now place) }
{
    marks[place] && place < others.len() && others[place]
}
