//! Tables of numbers: for each net of a source the net that stands for it in a copy.
ghost use Rattle.std.specs.Prelude.{◌≡◌, ◌+◌, ◌<◌, ◌^◌, length, All, IfOk};
ghost use Rattle.std.specs.List.{range_with_len};
ghost use Rattle.register_synth.specs.Kept.{AreKept};
ghost use Rattle.twin_synth.specs.Table.{IsTable, IsOwnTable, IsCopiedTable};
ghost use Rattle.twin_synth.specs.inner.Placed.{Rise, ArePlaced};

use std::alloc::{AllocError, Global};
use tsc_io::Items;
use tsc_net::{Netlist, PlaceList};

/// For each net of a source its net in a twin's own copy of these registers and covers.
///
/// # Errors
///
/// Want of memory.
pub fn own_table(
    alloc: Global,
    source: &Netlist,
    registers: &[usize],
    covers: &[usize],
) -> Result<PlaceList, AllocError>
    requires kept { AreKept source.now.circuit registers.now covers.now }
    requires room { source.now.circuit.inputs + (length registers.now + length registers.now) + length covers.now < 2 ^ 32 }
    ensures table { IfOk result (IsOwnTable source.now.circuit registers.now covers.now) }
{
    let inputs = source.inputs();
    let latches = registers.len() + registers.len();
    table(alloc, source, registers, covers, inputs, inputs + latches)
}

/// For each net of a source its net in a twin's second copy of these registers and covers.
///
/// # Errors
///
/// Want of memory.
pub fn copied_table(
    alloc: Global,
    source: &Netlist,
    registers: &[usize],
    covers: &[usize],
) -> Result<PlaceList, AllocError>
    requires kept { AreKept source.now.circuit registers.now covers.now }
    requires room { source.now.circuit.inputs + (length registers.now + length registers.now) + length covers.now + length covers.now < 2 ^ 32 }
    ensures table { IfOk result (IsCopiedTable source.now.circuit registers.now covers.now) }
{
    let inputs = source.inputs();
    let latches = registers.len() + registers.len();
    let first = inputs + latches + covers.len();
    table(
        alloc,
        source,
        registers,
        covers,
        inputs + registers.len(),
        first,
    )
}

/// For each net of a source its net in a copy that has the registers from one net on, and the covers from another.
fn table(
    alloc: Global,
    source: &Netlist,
    registers: &[usize],
    covers: &[usize],
    first_register: usize,
    first_cover: usize,
) -> Result<PlaceList, AllocError>
    requires kept { AreKept source.now.circuit registers.now covers.now }
    requires register_room { first_register + length registers.now < 2 ^ 32 }
    requires cover_room { first_cover + length covers.now < 2 ^ 32 }
    ensures table { IfOk result (IsTable source.now.circuit registers.now covers.now first_register first_cover) }
{
    let inputs = source.inputs();
    let mut numbers = count_to(alloc, source.nets())?;
    place_numbers(inputs, registers, first_register, &mut numbers);
    let first = inputs + source.latches();
    place_numbers(first, covers, first_cover, &mut numbers);
    Ok(numbers)
}

/// The numbers below `count`.
fn count_to(alloc: Global, count: usize) -> Result<PlaceList, AllocError>
    ensures numbers { IfOk result (λ numbers. numbers ≡ range_with_len 0 count) }
{
    let mut numbers = Items::new(alloc);
    for number in 0..count {
        numbers.push(number)?;
    }
    Ok(numbers)
}

/// Puts the numbers from `from` on at some rising places, counted from `first` on.
fn place_numbers(first: usize, places: &[usize], from: usize, numbers: &mut PlaceList)
    requires rise { Rise places.now }
    requires within { All (λ place. first + place < length numbers.old) places.now }
    requires few { from + length places.now < 2 ^ 32 }
    requires low { length numbers.old < 2 ^ 32 }
    ensures placed { ArePlaced first places.now from numbers.old numbers.new }
{
    for index in 0..places.len() {
        numbers.replace(first + places[index], from + index);
    }
}
