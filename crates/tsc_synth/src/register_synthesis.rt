//! Synthesis of a source with registers, within the bound on covers.
ghost use Rattle.std.specs.Prelude.{◌≡◌, ◌-◌, ◌≤◌, ◌^◌, length, min, IfOk, IfErr, OnOk, IsFalse};
ghost use Rattle.tsc_bits.specs.Lists.{AreApart};
ghost use Rattle.tsc_net.specs.PlanView.{net_numbers};
ghost use Rattle.tsc_synth.specs.CoverBound.{is_too_large_twin, twin_bound, watch_bound, RefusesTwin};
ghost use Rattle.twin_synth.specs.TwinNetlist.{IsTwinNetlist};

use crate::bound::{MOST_COVERS, bound_over};
use crate::synthesis::{DUPLEX_COPIES, SynthError};
use blif_read::Clock;
use std::alloc::Global;
use tsc_net::Netlist;
use twin_synth::{TwinNetlist, twin_netlist};

/// The netlist of two copies of a source with registers, of at most 64 different outputs, with its plan; its registers may be watched. No fresh name
/// begins like the control of the clock.
///
/// # Errors
///
/// The bound on the covers is above 1,048,576, which is tested before anything is written; or want of memory.
pub fn synth_registers(
    alloc: Global,
    source: &Netlist,
    clock: &Option<Clock>,
    watching: bool,
) -> Result<TwinNetlist, SynthError>
    requires few { length source.now.circuit.outputs ≤ 64 }
    requires once { AreApart source.now.circuit.outputs }
    requires latches { length source.now.circuit.latches ≤ 16384 }
    ensures exact { IfOk result (λ t. IsTwinNetlist source.now clock.now watching t.net t.plan (net_numbers t.watch)) }
    ensures covers { IfOk result (λ t. length t.net.circuit.nodes ≤ twin_bound watching source.now.circuit) }
    ensures fits { OnOk result (IsFalse (is_too_large_twin watching source.now.circuit)) }
    ensures refused { IfErr result (RefusesTwin watching source.now.circuit) }
{
    if twin_bound(source, watching) > MOST_COVERS {
        return Err(SynthError::TooLarge);
    }
    match twin_netlist(alloc, source, clock, watching) {
        Ok(made) => Ok(made),
        Err(error) => Err(SynthError::Memory(error)),
    }
}

/// The bound on the covers of the netlist of two copies; the greatest number, where it is above it.
fn twin_bound(source: &Netlist, watching: bool) -> usize
    requires latches { length source.now.circuit.latches ≤ 16384 }
    ensures bound { result ≡ min (twin_bound watching source.now.circuit) (2 ^ 64 - 1) }
{
    let copies = bound_over(source, DUPLEX_COPIES);
    copies.saturating_add(watch_bound(watching, source.latches()))
}

/// How many covers more the watch of so many registers may cost.
fn watch_bound(watching: bool, registers: usize) -> usize
    requires few { registers ≤ 16384 }
    ensures bound { result ≡ watch_bound watching registers }
{
    if watching && registers > 0 {
        2 * registers + 5
    } else {
        0
    }
}
