//! Both copies of what is kept of a source, pushed to a netlist by numbers, and the nets that they show.
ghost use Rattle.std.specs.Prelude.{◌≡◌, ◌+◌, ◌<◌, ◌^◌, [], ◌∷◌, ◌++◌, map, length, slice_index, All, IfOk, OnOk};
ghost use Rattle.std.specs.List.{range_with_len};
ghost use Rattle.fault_secure.specs.Circuit.{nets};
ghost use Rattle.register_synth.specs.Kept.{AreKept, kept_part};
ghost use Rattle.register_synth.specs.TwinNet.{twin_latches, twin_covers};
ghost use Rattle.register_synth.specs.TwinCircuit.{with_watch};
ghost use Rattle.twin_synth.specs.Numbered.{more_latches, more_nodes, more_outputs};
ghost use Rattle.twin_synth.specs.Table.{IsOwnTable, IsCopiedTable};
ghost use Rattle.twin_synth.specs.inner.Composed.{shown_over};

use crate::covers::{numbers_of, push_covers, push_latches};
use crate::numbered::Numbered;
use parity_code::Grouping;
use register_synth::KeptPlaces;
use std::alloc::{AllocError, Global};
use tsc_io::Items;
use tsc_net::{Netlist, PlaceList};

/// Pushes the registers of both copies, and then the covers of both.
pub fn push_copies(
    alloc: Global,
    source: &Netlist,
    kept: &KeptPlaces,
    own: &[usize],
    copied: &[usize],
    numbered: &mut Numbered,
) -> Result<(), AllocError>
    requires kept { AreKept source.now.circuit kept.now.registers kept.now.covers }
    requires own { IsOwnTable source.now.circuit kept.now.registers kept.now.covers own.now }
    requires copied { IsCopiedTable source.now.circuit kept.now.registers kept.now.covers copied.now }
    ensures pushed { OnOk result (numbered.new ≡ more_nodes (more_latches numbered.old (twin_latches (kept_part source.now.circuit kept.now.registers kept.now.covers))) (twin_covers (kept_part source.now.circuit kept.now.registers kept.now.covers))) }
{
    // What the source keeps is known from here on.
    let _nets = source.nets();
    let registers = kept.registers.as_slice();
    let covers = kept.covers.as_slice();
    push_latches(source, own, registers, numbered)?;
    push_latches(source, copied, registers, numbered)?;
    push_covers(alloc, source, own, covers, numbered)?;
    push_covers(alloc, source, copied, covers, numbered)
}

/// The nets that stand for the outputs, and then those of so many registers, from the net `first` on.
pub fn shown_nets(
    alloc: Global,
    source: &Netlist,
    numbers: &[usize],
    first: usize,
    watched: usize,
) -> Result<PlaceList, AllocError>
    requires sized { length numbers.now ≡ nets source.now.circuit }
    requires few { first + watched < 2 ^ 32 }
    ensures nets { IfOk result (λ list. list ≡ shown_over source.now.circuit numbers.now first watched) }
{
    // What the source keeps is known from here on.
    let _nets = source.nets();
    let mut list = numbers_of(alloc, numbers, source.outputs())?;
    push_range(first, watched, &mut list)?;
    Ok(list)
}

/// Adds the numbers from `first` on, so many of them.
pub fn push_range(first: usize, count: usize, list: &mut PlaceList) -> Result<(), AllocError>
    requires few { first + count < 2 ^ 32 }
    ensures pushed { OnOk result (list.new ≡ list.old ++ range_with_len first count) }
{
    for place in 0..count {
        list.push(first + place)?;
    }
    Ok(())
}

/// Pushes the nets that stand for the outputs.
pub fn push_outputs(
    source: &Netlist,
    numbers: &[usize],
    numbered: &mut Numbered,
) -> Result<(), AllocError>
    requires sized { length numbers.now ≡ nets source.now.circuit }
    ensures pushed { OnOk result (numbered.new ≡ more_outputs numbered.old (map (slice_index numbers.now) source.now.circuit.outputs)) }
{
    // What the source keeps is known from here on.
    let _nets = source.nets();
    for net in source.outputs() {
        numbered.push_output(numbers[net.number as usize])?;
    }
    Ok(())
}

/// The groups, and one more of the registers that are shown after the outputs, where there are some.
pub fn groups_with_watch(
    alloc: Global,
    outputs: usize,
    groups: &[PlaceList],
    watched: usize,
) -> Result<Grouping, AllocError>
    requires few { outputs + watched < 2 ^ 32 }
    ensures groups { IfOk result (λ all. all ≡ with_watch outputs watched groups.now) }
{
    let mut all = same_groups(alloc, groups)?;
    push_watch(alloc, outputs, watched, &mut all)?;
    Ok(all)
}

/// The same groups.
fn same_groups(alloc: Global, groups: &[PlaceList]) -> Result<Grouping, AllocError>
    ensures groups { IfOk result (λ all. all ≡ groups.now) }
{
    let mut all = Items::new(alloc);
    for group in groups {
        all.push(Items::from_slice(alloc, group.as_slice())?)?;
    }
    Ok(all)
}

/// Adds the group of the watch, where something is watched.
fn push_watch(
    alloc: Global,
    outputs: usize,
    watched: usize,
    groups: &mut Grouping,
) -> Result<(), AllocError>
    requires few { outputs + watched < 2 ^ 32 }
    ensures pushed { OnOk result (groups.new ≡ with_watch outputs watched groups.old) }
{
    if watched == 0 {
        return Ok(());
    }
    let mut group = Items::new(alloc);
    push_range(outputs, watched, &mut group)?;
    groups.push(group)
}
