//! The names of a twin's nets, pushed to a netlist by numbers: those of the source, and fresh ones.
ghost use Rattle.std.specs.Prelude.{◌≡◌, ◌+◌, ◌<◌, ◌^◌, [], ◌∷◌, ◌++◌, take, length, All, IfOk, OnOk};
ghost use Rattle.std.specs.List.{list_any};
ghost use Rattle.std.specs.Option.{option_copied};
ghost use Rattle.fault_secure.specs.Circuit.{nets};
ghost use Rattle.tsc_net.specs.Names.{text_at};
ghost use Rattle.tsc_net.specs.Parts.{fresh_text, begins_with, is_taken};
ghost use Rattle.twin_synth.specs.Numbered.{more_names};
ghost use Rattle.twin_synth.specs.Pushed.{names_from, control_words, fresh_number, fresh_from};

use crate::numbered::Numbered;
use std::alloc::{AllocError, Global};
use tsc_io::{Bytes, Items};
use tsc_net::{NetId, Netlist};

/// Pushes the names of the first nets of a source, so many of them.
///
/// # Errors
///
/// Want of memory.
pub fn push_first_names(
    alloc: Global,
    source: &Netlist,
    count: usize,
    numbered: &mut Numbered,
) -> Result<(), AllocError>
    requires within { count < nets source.now.circuit + 1 }
    ensures pushed { OnOk result (numbered.new ≡ more_names numbered.old (take count source.now.names)) }
{
    // What the source keeps is known from here on.
    let _nets = source.nets();
    for net in 0..count {
        push_net_name(alloc, source, net, numbered)?;
    }
    Ok(())
}

/// Pushes the names of some nets of a source: those at these places, counted from the net `first` on.
///
/// # Errors
///
/// Want of memory.
pub fn push_names(
    alloc: Global,
    source: &Netlist,
    first: usize,
    places: &[usize],
    numbered: &mut Numbered,
) -> Result<(), AllocError>
    requires within { All (λ place. first + place < nets source.now.circuit) places.now }
    ensures pushed { OnOk result (numbered.new ≡ more_names numbered.old (names_from source.now first places.now)) }
{
    // What the source keeps is known from here on.
    let _nets = source.nets();
    for place in places {
        push_net_name(alloc, source, first + *place, numbered)?;
    }
    Ok(())
}

/// Pushes the name of a net of a source.
fn push_net_name(
    alloc: Global,
    source: &Netlist,
    net: usize,
    numbered: &mut Numbered,
) -> Result<(), AllocError>
    requires within { net < nets source.now.circuit }
    ensures pushed { OnOk result (numbered.new ≡ more_names numbered.old (text_at source.now.names net ∷ [])) }
{
    // What the source keeps is known from here on.
    let _nets = source.nets();
    let net = NetId { number: net as u32 };
    let name = Items::from_slice(alloc, source.name(net))?;
    numbered.push_name(name)
}

/// Pushes fresh names with a number, so many of them, from the count `first` on.
///
/// # Errors
///
/// Want of memory.
pub fn push_fresh_names(
    alloc: Global,
    number: usize,
    first: usize,
    count: usize,
    numbered: &mut Numbered,
) -> Result<(), AllocError>
    requires few { first + count < 2 ^ 32 }
    ensures pushed { OnOk result (numbered.new ≡ more_names numbered.old (fresh_from number first count)) }
{
    for place in 0..count {
        let name = fresh_name(alloc, number, first + place)?;
        numbered.push_name(name)?;
    }
    Ok(())
}

/// The fresh name with a number and a count.
fn fresh_name(alloc: Global, number: usize, count: usize) -> Result<Bytes, AllocError>
    ensures name { IfOk result (λ name. name ≡ fresh_text number count) }
{
    let text = format!(in alloc; "t{number}_{count}")?;
    Items::from_slice(alloc, text.as_bytes())
}

/// The number of the fresh names: the least such that no name of the source, nor the control of its clock, begins with `t`, the number
/// and `_`.
///
/// # Errors
///
/// Want of memory.
pub fn fresh_number(
    alloc: Global,
    source: &Netlist,
    control: Option<&[u8]>,
) -> Result<usize, AllocError>
    ensures number { IfOk result (λ number. number ≡ fresh_number source.now (option_copied control.entry)) }
{
    let count = source.nets() + control_count(control);
    for number in 0..count {
        if !is_taken(alloc, source, control, number)? {
            return Ok(number);
        }
    }
    Ok(count)
}

/// How many controls there are: one or none.
fn control_count(control: Option<&[u8]>) -> usize
    ensures count { result ≡ length (control_words (option_copied control.entry)) }
    ensures few { result < 2 }
{
    match control {
        Some(_) => 1,
        None => 0,
    }
}

/// Whether some name of the source, or the control of its clock, begins with `t`, the number and `_`.
fn is_taken(
    alloc: Global,
    source: &Netlist,
    control: Option<&[u8]>,
    number: usize,
) -> Result<bool, AllocError>
    ensures taken { IfOk result (λ taken. taken ≡ is_taken (source.now.names ++ control_words (option_copied control.entry)) number) }
{
    let prefix = format!(in alloc; "t{number}_")?;
    let begun = some_name_begins_with(source, prefix.as_bytes());
    Ok(begun || control_begins_with(control, prefix.as_bytes()))
}

/// Whether some name of the source begins with `prefix`.
fn some_name_begins_with(source: &Netlist, prefix: &[u8]) -> bool
    ensures begins { result ≡ list_any (begins_with prefix.now) source.now.names }
{
    for place in 0..source.nets() {
        let net = NetId {
            number: place as u32,
        };
        if source.name(net).starts_with(prefix) {
            return true;
        }
    }
    false
}

/// Whether there is a control that begins with `prefix`.
fn control_begins_with(control: Option<&[u8]>, prefix: &[u8]) -> bool
    ensures begins { result ≡ list_any (begins_with prefix.now) (control_words (option_copied control.entry)) }
{
    match control {
        Some(word) => word.starts_with(prefix),
        None => false,
    }
}
