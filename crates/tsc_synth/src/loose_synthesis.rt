//! Synthesis of a source with free bits.
ghost use Rattle.std.specs.Prelude.{◌≡◌, ◌≤◌, length, IfOk, IfErr, OnOk, IsFalse};
ghost use Rattle.fault_secure.specs.Logic.Logic.{Loose as LooseLogic, Network};
ghost use Rattle.structure_laws.specs.LooseSource.{with_version};
ghost use Rattle.synth_ways.specs.Ways.{way_code};
ghost use Rattle.tsc_bits.specs.Lists.{AreApart};
ghost use Rattle.tsc_net.specs.SourceView.{IsLooseSource};
ghost use Rattle.code_checkers.specs.SelfChecking.{IsSelfChecking};
ghost use Rattle.tsc_synth.specs.WayNetlist.{IsNetlistOf};
ghost use Rattle.tsc_synth.specs.CoverBound.{cover_bound, is_too_large, RefusesSource};

use crate::synthesis::{SynthError, synth};
use std::alloc::Global;
use synth_ways::Way;
use tsc_net::{Loose, Plan, PlannedNetlist};

/// A netlist with check bits and a checker, made in some way, for a source with free bits, of at most 64 different outputs. It is that of
/// the network of the chosen values, and gives these; its plan has version 2, under which free bits are free.
///
/// # Errors
///
/// As `synth` has them, for the network of the chosen values.
pub fn synth_loose(alloc: Global, source: &Loose, way: Way) -> Result<PlannedNetlist, SynthError>
    requires loose { IsLooseSource source.now.value.circuit source.now.free.circuit }
    requires few { length source.now.value.circuit.outputs ≤ 64 }
    requires once { AreApart source.now.value.circuit.outputs }
    ensures secure { IfOk result (λ s. IsSelfChecking (LooseLogic source.now.value.circuit source.now.free.circuit) s.net.circuit s.plan) }
    ensures chosen { IfOk result (λ s. IsSelfChecking (Network source.now.value.circuit) s.net.circuit (with_version 1 s.plan)) }
    ensures exact { IfOk result (λ s. IsNetlistOf way source.now.value s.net (with_version 1 s.plan)) }
    ensures version { IfOk result (λ s. s.plan.version ≡ 2) }
    ensures code { IfOk result (λ s. s.plan.code ≡ way_code way) }
    ensures covers { IfOk result (λ s. length s.net.circuit.nodes ≤ cover_bound way source.now.value.circuit) }
    ensures fits { OnOk result (IsFalse (is_too_large way source.now.value.circuit)) }
    ensures refused { IfErr result (RefusesSource way source.now.value.circuit) }
{
    match synth(alloc, &source.value, way) {
        Ok(PlannedNetlist { net, plan }) => Ok(PlannedNetlist {
            net,
            plan: freed(plan),
        }),
        Err(error) => Err(error),
    }
}

/// The plan under version 2.
fn freed(plan: Plan) -> Plan
    ensures plan { result ≡ with_version 2 plan }
{
    Plan { version: 2, ..plan }
}
