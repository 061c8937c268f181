//! The netlist of a twin, from what is kept of its source.
ghost use Rattle.std.specs.Prelude.{◌≡◌, ◌+◌, ◌≤◌, length, IfOk, OnOk};
ghost use Rattle.tsc_bits.specs.Lists.{AreApart};
ghost use Rattle.register_synth.specs.Kept.{AreKept, kept_part};
ghost use Rattle.register_synth.specs.RegisterGroups.{AreRegisterGroups};
ghost use Rattle.register_synth.specs.TwinCircuit.{twin_circuit};
ghost use Rattle.twin_synth.specs.TwinNetlist.{twin_netlist};
ghost use Rattle.twin_synth.specs.inner.Composed.{nameless};
ghost use Rattle.twin_synth.specs.inner.Planned.{IsSmallSource, IsWatchCount, IsMadeTwin};

use crate::building::net_of_numbers;
use crate::composing::push_twin;
use crate::copies::groups_with_watch;
use crate::gates::twin_gates;
use crate::naming::push_twin_names;
use crate::numbered::Numbered;
use blif_read::Clock;
use parity_code::Grouping;
use register_synth::KeptPlaces;
use std::alloc::{AllocError, Global};
use tsc_io::Items;
use tsc_net::Netlist;

/// The netlist of the twin of what is kept of a source, with so many registers watched.
pub fn twin_net(
    alloc: Global,
    source: &Netlist,
    clock: &Option<Clock>,
    kept: &KeptPlaces,
    groups: &Grouping,
    watched: usize,
) -> Result<Netlist, AllocError>
    requires sized { IsSmallSource source.now.circuit }
    requires once { AreApart source.now.circuit.outputs }
    requires kept { AreKept source.now.circuit kept.now.registers kept.now.covers }
    requires grouped { AreRegisterGroups source.now.circuit groups.now }
    requires watched { IsWatchCount watched kept.now.registers }
    ensures net { IfOk result (λ net. net ≡ twin_netlist source.now clock.now kept.now.registers kept.now.covers groups.now watched) }
    ensures made { IfOk result (λ net. IsMadeTwin source.now.circuit kept.now.registers kept.now.covers groups.now watched) }
{
    // What the source keeps is known from here on.
    let _nets = source.nets();
    let numbered = named(alloc, source, clock, kept, groups, watched)?;
    let net = net_of_numbers(alloc, source.key(), &numbered)?;
    Ok(net)
}

/// The same by numbers, with its names.
fn named(
    alloc: Global,
    source: &Netlist,
    clock: &Option<Clock>,
    kept: &KeptPlaces,
    groups: &Grouping,
    watched: usize,
) -> Result<Numbered, AllocError>
    requires sized { IsSmallSource source.now.circuit }
    requires once { AreApart source.now.circuit.outputs }
    requires kept { AreKept source.now.circuit kept.now.registers kept.now.covers }
    requires grouped { AreRegisterGroups source.now.circuit groups.now }
    requires watched { IsWatchCount watched kept.now.registers }
    ensures net { IfOk result (λ net. net ≡ twin_netlist source.now clock.now kept.now.registers kept.now.covers groups.now watched) }
    ensures made { IfOk result (λ net. IsMadeTwin source.now.circuit kept.now.registers kept.now.covers groups.now watched) }
{
    let mut numbered = unnamed(alloc, source, kept, groups, watched)?;
    let more = numbered.nodes() - kept.covers.len();
    push_twin_names(alloc, source, clock, kept, more, &mut numbered)?;
    Ok(numbered)
}

/// The same without names.
fn unnamed(
    alloc: Global,
    source: &Netlist,
    kept: &KeptPlaces,
    groups: &Grouping,
    watched: usize,
) -> Result<Numbered, AllocError>
    requires sized { IsSmallSource source.now.circuit }
    requires once { AreApart source.now.circuit.outputs }
    requires kept { AreKept source.now.circuit kept.now.registers kept.now.covers }
    requires grouped { AreRegisterGroups source.now.circuit groups.now }
    requires watched { IsWatchCount watched kept.now.registers }
    ensures net { IfOk result (λ net. net ≡ nameless source.now (twin_circuit watched (kept_part source.now.circuit kept.now.registers kept.now.covers) groups.now)) }
    ensures made { IfOk result (λ net. IsMadeTwin source.now.circuit kept.now.registers kept.now.covers groups.now watched) }
{
    // What the source keeps is known from here on.
    let _nets = source.nets();
    let outputs = source.outputs().len();
    let all = groups_with_watch(alloc, outputs, groups.as_slice(), watched)?;
    let gates = twin_gates(alloc, outputs, groups, watched)?;
    let model = Items::from_slice(alloc, source.model_name())?;
    let mut numbered = Numbered::new(alloc, source.inputs(), model);
    push_twin(alloc, source, kept, &all, watched, &gates, &mut numbered)?;
    Ok(numbered)
}
