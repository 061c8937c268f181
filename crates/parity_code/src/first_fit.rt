//! First-fit groups of a network's outputs.
ghost use Rattle.std.specs.Prelude.{◌≡◌, ◌<◌, ◌&&◌, not, length, All, IfOk, OnOk};
ghost use Rattle.std.specs.List.{list_any, position_or_len};
ghost use Rattle.fault_secure.specs.Circuit.{bit};
ghost use Rattle.parity_code.specs.FirstFit.{AreFirstFit, joined, share, first_fit_groups};
ghost use Rattle.tsc_bits.specs.Counting.{some_both};
ghost use Rattle.parity_code.specs.Cones.{AreCones};

use net_cones::cone_marks;
use std::alloc::{AllocError, Global};
use tsc_io::Items;
use tsc_net::{Bits, Netlist, PlaceList};

/// The groups of a network's outputs, each a list of the places of outputs.
pub type Grouping = Items<PlaceList>;

/// First fit in output order: an output joins the first group with no member whose cone shares a node with its own, else it
/// opens a group. Linear in the network for each pair of outputs at most.
///
/// # Errors
///
/// Want of memory.
pub fn groups(alloc: Global, net: &Netlist) -> Result<Grouping, AllocError>
    ensures fit { IfOk result (AreFirstFit net.now.circuit) }
    ensures computed { IfOk result (λ groups. groups ≡ first_fit_groups net.now.circuit) }
{
    // What the netlist keeps is known from here on.
    let _order = net.order();
    let all = cones_of(alloc, net)?;
    let cones = all.as_slice();
    let mut groups = Items::new(alloc);
    for output in 0..cones.len() {
        join(alloc, &mut groups, cones, output)?;
    }
    Ok(groups)
}

/// The cone of each output.
///
/// # Errors
///
/// Want of memory.
fn cones_of(alloc: Global, net: &Netlist) -> Result<Items<Bits>, AllocError>
    ensures cones { IfOk result (AreCones net.now.circuit net.now.circuit.outputs) }
{
    // What the netlist keeps is known from here on.
    let _nets = net.nets();
    let mut cones = Items::new(alloc);
    for output in net.outputs() {
        let marks = cone_marks(alloc, net, &[*output])?;
        cones.push(Items::from_slice(alloc, &marks)?)?;
    }
    Ok(cones)
}

/// Puts an output into the first group with no member that shares with it, else into a group of its own.
fn join(
    alloc: Global,
    groups: &mut Grouping,
    cones: &[Bits],
    output: usize,
) -> Result<(), AllocError>
    requires within { All (All (λ member. member < length cones.now)) groups.old }
    requires output { output < length cones.now }
    ensures joined { OnOk result (groups.new ≡ joined (share cones.now) groups.old output) }
{
    let place = first_apart(groups.as_slice(), cones, output);
    if place < groups.len() {
        return groups.get_mut(place).push(output);
    }
    let mut group = Items::new(alloc);
    group.push(output)?;
    groups.push(group)
}

/// The place of the first group with no member that shares with an output, or the number of groups.
fn first_apart(groups: &[PlaceList], cones: &[Bits], output: usize) -> usize
    requires within { All (All (λ member. member < length cones.now)) groups.now }
    requires output { output < length cones.now }
    ensures first { result ≡ position_or_len (λ group. not (list_any (share cones.now output) group)) groups.now }
{
    for (place, group) in groups.iter().enumerate() {
        if !shares_with_some(group.as_slice(), cones, output) {
            return place;
        }
    }
    groups.len()
}

/// Whether an output shares a node with a member of the group.
fn shares_with_some(group: &[usize], cones: &[Bits], output: usize) -> bool
    requires within { All (λ member. member < length cones.now) group.now }
    requires output { output < length cones.now }
    ensures shares { result ≡ list_any (share cones.now output) group.now }
{
    for member in group {
        if cones_meet(cones[output].as_slice(), cones[*member].as_slice()) {
            return true;
        }
    }
    false
}

/// Whether some place is marked in both lists.
fn cones_meet(marks: &[bool], others: &[bool]) -> bool
    ensures meet { result ≡ some_both marks.now others.now }
{
    for place in 0..marks.len() {
        if are_both_marked(marks, others, place) {
            return true;
        }
    }
    false
}

/// Whether the place is marked in both lists.
fn are_both_marked(marks: &[bool], others: &[bool], place: usize) -> bool
    requires within { place < length marks.now }
    ensures both { result ≡ (bit marks.now place && bit others.now place) }
{
    marks[place] && place < others.len() && others[place]
}
