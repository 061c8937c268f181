//! The twin of a source with registers: its netlist, its plan, and what is watched.
ghost use Rattle.std.specs.Prelude.{◌≡◌, ◌+◌, ◌*◌, ◌≤◌, if◌then◌else◌, length, IfOk};
ghost use Rattle.tsc_bits.specs.Lists.{AreApart};
ghost use Rattle.fault_secure.specs.CodePlan.{concat_places};
ghost use Rattle.fault_secure.specs.Size.{network_size};
ghost use Rattle.tsc_net.specs.PlanView.{net_numbers};
ghost use Rattle.parity_synth.specs.CheckedNet.{plan_over};
ghost use Rattle.register_synth.specs.Kept.{AreKept, kept_part};
ghost use Rattle.register_synth.specs.RegisterGroups.{AreRegisterGroups};
ghost use Rattle.register_synth.specs.TwinNet.{twin_check_nets};
ghost use Rattle.register_synth.specs.TwinCircuit.{twin_rail1, twin_rail2};
ghost use Rattle.twin_synth.specs.TwinNetlist.{IsTwinNetlist, twin_netlist};
ghost use Rattle.twin_synth.specs.inner.Planned.{IsSmallSource, IsWatchCount, IsMadeTwin, watch_over};

use crate::making::twin_net;
use crate::planning::{place_count, twin_plan, watch_nets};
use blif_read::Clock;
use parity_code::Grouping;
use register_synth::{KeptPlaces, kept_places, register_groups};
use std::alloc::{AllocError, Global};
use tsc_net::{Netlist, Nets, Plan};

/// A netlist of two copies of a source with registers, its plan, and what is watched.
#[derive(Drop)]
pub struct TwinNetlist {
    /// The netlist.
    pub net: Netlist,
    /// Its plan.
    pub plan: Plan,
    /// The watched registers and the check of the watch, or nothing.
    pub watch: Nets,
}

/// The twin of a source: two copies of what its outputs depend on, through registers, the checks of the groups of its outputs over the second copy,
/// and the checker. With `watching` all of its registers are watched.
///
/// # Errors
///
/// Want of memory.
pub fn twin_netlist(
    alloc: Global,
    source: &Netlist,
    clock: &Option<Clock>,
    watching: bool,
) -> Result<TwinNetlist, AllocError>
    requires few { length source.now.circuit.outputs ≤ 64 }
    requires once { AreApart source.now.circuit.outputs }
    requires latches { length source.now.circuit.latches ≤ 16384 }
    requires small { source.now.circuit.inputs + 3 * network_size source.now.circuit ≤ 1048576 }
    ensures exact { IfOk result (λ t. IsTwinNetlist source.now clock.now watching t.net t.plan (net_numbers t.watch)) }
{
    let kept = kept_places(alloc, source)?;
    let groups = register_groups(alloc, source)?;
    let watched = watched_count(watching, kept.registers.len());
    let twin = twin_of(alloc, source, clock, &kept, &groups, watched)?;
    Ok(twin)
}

/// How many registers are watched: all, or none.
fn watched_count(watching: bool, registers: usize) -> usize
    ensures count { result ≡ (if watching then registers else 0) }
{
    if watching { registers } else { 0 }
}

/// The twin of what is kept of a source, over its groups, with so many registers watched.
fn twin_of(
    alloc: Global,
    source: &Netlist,
    clock: &Option<Clock>,
    kept: &KeptPlaces,
    groups: &Grouping,
    watched: usize,
) -> Result<TwinNetlist, AllocError>
    requires sized { IsSmallSource source.now.circuit }
    requires once { AreApart source.now.circuit.outputs }
    requires kept { AreKept source.now.circuit kept.now.registers kept.now.covers }
    requires grouped { AreRegisterGroups source.now.circuit groups.now }
    requires watched { IsWatchCount watched kept.now.registers }
    ensures net { IfOk result (λ t. t.net ≡ twin_netlist source.now clock.now kept.now.registers kept.now.covers groups.now watched) }
    ensures made { IfOk result (λ t. IsMadeTwin source.now.circuit kept.now.registers kept.now.covers groups.now watched) }
    ensures plan { IfOk result (λ t. t.plan ≡ plan_over (length source.now.circuit.outputs) (twin_check_nets (kept_part source.now.circuit kept.now.registers kept.now.covers) groups.now) groups.now (twin_rail1 watched (kept_part source.now.circuit kept.now.registers kept.now.covers) groups.now) (twin_rail2 watched (kept_part source.now.circuit kept.now.registers kept.now.covers) groups.now)) }
    ensures watch { IfOk result (λ t. net_numbers t.watch ≡ watch_over source.now.circuit.inputs watched (source.now.circuit.inputs + (length kept.now.registers + length kept.now.registers) + (length kept.now.covers + length kept.now.covers + length (concat_places groups.now) + watched))) }
{
    // What the source keeps is known from here on.
    let _nets = source.nets();
    let outputs = source.outputs().len();
    let inputs = source.inputs();
    let first = inputs + (kept.registers.len() + kept.registers.len());
    let base = kept.covers.len() + kept.covers.len();
    let after = first + (base + place_count(groups.as_slice()) + watched);
    let net = twin_net(alloc, source, clock, kept, groups, watched)?;
    let plan = twin_plan(alloc, &net, outputs, groups, first, base)?;
    let watch = watch_nets(alloc, inputs, watched, after)?;
    Ok(TwinNetlist { net, plan, watch })
}
