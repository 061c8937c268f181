//! The twin of what is kept of a source, pushed to a netlist by numbers: its copies, its checks and its checker.
ghost use Rattle.std.specs.Prelude.{◌≡◌, ◌+◌, ◌<◌, ◌≤◌, ◌^◌, length, All, IfOk, OnOk};
ghost use Rattle.fault_secure.specs.Circuit.{nets};
ghost use Rattle.fault_secure.specs.CodePlan.{concat_places};
ghost use Rattle.code_checkers.specs.GateList.{IsCheckerOf};
ghost use Rattle.register_synth.specs.Kept.{AreKept, kept_part};
ghost use Rattle.twin_synth.specs.Numbered.{no_net, more_nodes};
ghost use Rattle.twin_synth.specs.Checks.{checks_over};
ghost use Rattle.twin_synth.specs.Table.{IsOwnTable};
ghost use Rattle.twin_synth.specs.TwinGates.{StandWithin};
ghost use Rattle.twin_synth.specs.inner.Composed.{shown_over, plan_shown, word_over, logic_net, circuit_over, nameless, IsShownGrouping, has_room};

use crate::checker::push_gates;
use crate::checks::{check_nets, push_checks};
use crate::copies::{push_copies, push_outputs, shown_nets};
use crate::numbered::Numbered;
use crate::tables::{copied_table, own_table};
use code_checkers::CheckGates;
use parity_code::Grouping;
use register_synth::KeptPlaces;
use std::alloc::{AllocError, Global};
use tsc_net::{Netlist, PlaceList};

/// Pushes the twin of what is kept of a source, over all groups of what it shows, with a checker of these gates. It has no names yet.
///
/// # Errors
///
/// Want of memory.
pub fn push_twin(
    alloc: Global,
    source: &Netlist,
    kept: &KeptPlaces,
    all: &Grouping,
    watched: usize,
    gates: &CheckGates,
    numbered: &mut Numbered,
) -> Result<(), AllocError>
    requires kept { AreKept source.now.circuit kept.now.registers kept.now.covers }
    requires grouped { IsShownGrouping (length source.now.circuit.outputs + watched) all.now }
    requires fits { watched ≤ length kept.now.registers }
    requires room { has_room source.now.circuit kept.now.registers kept.now.covers all.now }
    requires gates { IsCheckerOf (plan_shown watched (kept_part source.now.circuit kept.now.registers kept.now.covers) all.now) gates.now }
    requires words { StandWithin (length source.now.circuit.outputs + watched + length all.now) gates.now }
    requires few { length gates.now.gates < 2 ^ 32 }
    requires empty { numbered.old ≡ no_net source.now.circuit.inputs source.now.model }
    ensures pushed { OnOk result (numbered.new ≡ nameless source.now (circuit_over watched (kept_part source.now.circuit kept.now.registers kept.now.covers) all.now)) }
{
    let registers = kept.registers.as_slice();
    let own = own_table(alloc, source, registers, kept.covers.as_slice())?;
    let own = own.as_slice();
    push_logic(alloc, source, kept, own, all, watched, numbered)?;
    push_checker(alloc, source, kept, own, all, watched, gates, numbered)
}

/// Pushes what stands before the checker: both copies, and the checks over the second.
fn push_logic(
    alloc: Global,
    source: &Netlist,
    kept: &KeptPlaces,
    own: &[usize],
    all: &Grouping,
    watched: usize,
    numbered: &mut Numbered,
) -> Result<(), AllocError>
    requires kept { AreKept source.now.circuit kept.now.registers kept.now.covers }
    requires own { IsOwnTable source.now.circuit kept.now.registers kept.now.covers own.now }
    requires grouped { IsShownGrouping (length source.now.circuit.outputs + watched) all.now }
    requires fits { watched ≤ length kept.now.registers }
    requires room { has_room source.now.circuit kept.now.registers kept.now.covers all.now }
    requires empty { numbered.old ≡ no_net source.now.circuit.inputs source.now.model }
    ensures pushed { OnOk result (numbered.new ≡ logic_net source.now watched (kept_part source.now.circuit kept.now.registers kept.now.covers) all.now) }
{
    // What the source keeps is known from here on.
    let _nets = source.nets();
    let registers = kept.registers.as_slice();
    let copied = copied_table(alloc, source, registers, kept.covers.as_slice())?;
    let copied = copied.as_slice();
    push_copies(alloc, source, kept, own, copied, numbered)?;
    let first = source.inputs() + registers.len();
    push_shown_checks(alloc, source, copied, first, watched, all, numbered)
}

/// Pushes the checks of groups over the nets that stand for the outputs, and those of so many registers, from the net `first` on.
fn push_shown_checks(
    alloc: Global,
    source: &Netlist,
    numbers: &[usize],
    first: usize,
    watched: usize,
    all: &Grouping,
    numbered: &mut Numbered,
) -> Result<(), AllocError>
    requires sized { length numbers.now ≡ nets source.now.circuit }
    requires few { first + watched < 2 ^ 32 }
    requires grouped { IsShownGrouping (length source.now.circuit.outputs + watched) all.now }
    requires room { nets numbered.old.circuit + length (concat_places all.now) < 2 ^ 32 }
    ensures pushed { OnOk result (numbered.new ≡ more_nodes numbered.old (checks_over numbered.old (shown_over source.now.circuit numbers.now first watched) all.now)) }
{
    let shown = shown_nets(alloc, source, numbers, first, watched)?;
    push_checks(alloc, shown.as_slice(), all.as_slice(), numbered)
}

/// Pushes the checker over the own outputs and the checks, and then the outputs.
fn push_checker(
    alloc: Global,
    source: &Netlist,
    kept: &KeptPlaces,
    own: &[usize],
    all: &Grouping,
    watched: usize,
    gates: &CheckGates,
    numbered: &mut Numbered,
) -> Result<(), AllocError>
    requires kept { AreKept source.now.circuit kept.now.registers kept.now.covers }
    requires own { IsOwnTable source.now.circuit kept.now.registers kept.now.covers own.now }
    requires grouped { IsShownGrouping (length source.now.circuit.outputs + watched) all.now }
    requires fits { watched ≤ length kept.now.registers }
    requires room { has_room source.now.circuit kept.now.registers kept.now.covers all.now }
    requires gates { IsCheckerOf (plan_shown watched (kept_part source.now.circuit kept.now.registers kept.now.covers) all.now) gates.now }
    requires words { StandWithin (length source.now.circuit.outputs + watched + length all.now) gates.now }
    requires few { length gates.now.gates < 2 ^ 32 }
    requires begun { numbered.old ≡ logic_net source.now watched (kept_part source.now.circuit kept.now.registers kept.now.covers) all.now }
    ensures pushed { OnOk result (numbered.new ≡ nameless source.now (circuit_over watched (kept_part source.now.circuit kept.now.registers kept.now.covers) all.now)) }
{
    // What the source keeps is known from here on.
    let _nets = source.nets();
    let word = word(alloc, source, kept, own, all, watched)?;
    let (rail1, rail2) = push_gates(alloc, gates, word.as_slice(), numbered)?;
    push_outputs(source, own, numbered)?;
    numbered.push_output(rail1)?;
    numbered.push_output(rail2)
}

/// What the checker reads: the own outputs, the own registers that are watched, and the checks.
fn word(
    alloc: Global,
    source: &Netlist,
    kept: &KeptPlaces,
    own: &[usize],
    all: &Grouping,
    watched: usize,
) -> Result<PlaceList, AllocError>
    requires kept { AreKept source.now.circuit kept.now.registers kept.now.covers }
    requires own { IsOwnTable source.now.circuit kept.now.registers kept.now.covers own.now }
    requires grouped { IsShownGrouping (length source.now.circuit.outputs + watched) all.now }
    requires fits { watched ≤ length kept.now.registers }
    requires room { has_room source.now.circuit kept.now.registers kept.now.covers all.now }
    ensures word { IfOk result (λ word. word ≡ word_over watched (kept_part source.now.circuit kept.now.registers kept.now.covers) all.now) }
{
    // What the source keeps is known from here on.
    let _nets = source.nets();
    let inputs = source.inputs();
    let latches = kept.registers.len() + kept.registers.len();
    let covers = kept.covers.len() + kept.covers.len();
    let mut word = shown_nets(alloc, source, own, inputs, watched)?;
    let checks = check_nets(alloc, inputs + latches, all.as_slice(), covers)?;
    word.append(checks.as_slice())?;
    Ok(word)
}
