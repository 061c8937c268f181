//! Synthesis in each way, within the bound on covers.
ghost use Rattle.std.specs.Prelude.{◌≡◌, ◌≤◌, length, IfOk, IfErr, OnOk, IsFalse};
ghost use Rattle.fault_secure.specs.declared.code.Code.TheVariants.{Parity};
ghost use Rattle.fault_secure.specs.Logic.Logic.{Network};
ghost use Rattle.fault_secure.specs.CodePlan.{IsUnorderedCode};
ghost use Rattle.synth_ways.specs.Ways.{way_code};
ghost use Rattle.unate_synth.specs.UnateNetlist.{IsUnateNetlist};
ghost use Rattle.code_checkers.specs.SelfChecking.{IsSelfChecking};
ghost use Rattle.tsc_bits.specs.Lists.{AreApart};
ghost use Rattle.tsc_synth.specs.CoverBound.{cover_bound, is_too_large, RefusesSource};
ghost use Rattle.parity_synth.specs.ParityNet.{IsParityNetlist};
ghost use Rattle.duplex_synth.specs.DuplexNet.{IsDuplexNetlist};
ghost use Rattle.tsc_synth.specs.WayNetlist.{IsNetlistOf};

use crate::bound::{MOST_COVERS, bound_over};
use duplex_synth::duplex_netlist;
use parity_code::groups;
use parity_synth::parity_netlist;
use std::alloc::{AllocError, Global};
use synth_ways::Way;
use thiserror::Error;
use tsc_net::{Netlist, PlannedNetlist};
use unate_synth::unate_netlist;

/// As many copies of a network as a netlist whose groups share one may cost.
pub(crate) const DUPLEX_COPIES: usize = 3;

/// As many copies of a network as a netlist under an unordered code may cost.
const UNATE_COPIES: usize = 4;

/// Why there is no netlist.
#[derive(Debug, Drop, Error)]
pub enum SynthError {
    /// A machine has more than 924 states.
    #[error("too many states")]
    TooManyStates,
    /// The bound on the covers is above 1,048,576.
    #[error("too many covers")]
    TooLarge,
    /// Memory was missing.
    #[error("out of memory")]
    Memory(AllocError),
}

/// A netlist with check bits and a checker, made in some way, for a network of at most 64 different outputs, with its plan.
///
/// # Errors
///
/// The bound on the covers is above 1,048,576, which is tested before anything is written; or want of memory.
pub fn synth(alloc: Global, source: &Netlist, way: Way) -> Result<PlannedNetlist, SynthError>
    requires combinational { length source.now.circuit.latches ≡ 0 }
    requires few { length source.now.circuit.outputs ≤ 64 }
    requires once { AreApart source.now.circuit.outputs }
    ensures secure { IfOk result (λ s. IsSelfChecking (Network source.now.circuit) s.net.circuit s.plan) }
    ensures exact { IfOk result (λ s. IsNetlistOf way source.now s.net s.plan) }
    ensures code { IfOk result (λ s. s.plan.code ≡ way_code way) }
    ensures covers { IfOk result (λ s. length s.net.circuit.nodes ≤ cover_bound way source.now.circuit) }
    ensures fits { OnOk result (IsFalse (is_too_large way source.now.circuit)) }
    ensures refused { IfErr result (RefusesSource way source.now.circuit) }
{
    match way {
        Way::Parity => parity(alloc, source),
        Way::Duplex => duplex(alloc, source),
        Way::Berger | Way::MOutOfN => unate(alloc, source, way),
    }
}

/// A netlist with first-fit parity groups for a network.
fn parity(alloc: Global, source: &Netlist) -> Result<PlannedNetlist, SynthError>
    requires combinational { length source.now.circuit.latches ≡ 0 }
    requires few { length source.now.circuit.outputs ≤ 64 }
    requires once { AreApart source.now.circuit.outputs }
    ensures secure { IfOk result (λ s. IsSelfChecking (Network source.now.circuit) s.net.circuit s.plan) }
    ensures exact { IfOk result (λ s. IsParityNetlist source.now s.net s.plan) }
    ensures code { IfOk result (λ s. s.plan.code ≡ Parity) }
    ensures covers { IfOk result (λ s. length s.net.circuit.nodes ≤ cover_bound Way.Parity source.now.circuit) }
    ensures fits { OnOk result (IsFalse (is_too_large Way.Parity source.now.circuit)) }
    ensures refused { IfErr result (RefusesSource Way.Parity source.now.circuit) }
{
    let grouping = groups(alloc, source).map_err(SynthError::Memory)?;
    let bound = bound_over(source, grouping.len().saturating_add(2));
    if bound > MOST_COVERS {
        return Err(SynthError::TooLarge);
    }
    parity_netlist(alloc, source, &grouping).map_err(SynthError::Memory)
}

/// A netlist with first-fit parity groups that share one copy, for a network.
fn duplex(alloc: Global, source: &Netlist) -> Result<PlannedNetlist, SynthError>
    requires combinational { length source.now.circuit.latches ≡ 0 }
    requires few { length source.now.circuit.outputs ≤ 64 }
    requires once { AreApart source.now.circuit.outputs }
    ensures secure { IfOk result (λ s. IsSelfChecking (Network source.now.circuit) s.net.circuit s.plan) }
    ensures exact { IfOk result (λ s. IsDuplexNetlist source.now s.net s.plan) }
    ensures code { IfOk result (λ s. s.plan.code ≡ Parity) }
    ensures covers { IfOk result (λ s. length s.net.circuit.nodes ≤ cover_bound Way.Duplex source.now.circuit) }
    ensures fits { OnOk result (IsFalse (is_too_large Way.Duplex source.now.circuit)) }
    ensures refused { IfErr result (RefusesSource Way.Duplex source.now.circuit) }
{
    let bound = bound_over(source, DUPLEX_COPIES);
    if bound > MOST_COVERS {
        return Err(SynthError::TooLarge);
    }
    let grouping = groups(alloc, source).map_err(SynthError::Memory)?;
    duplex_netlist(alloc, source, &grouping).map_err(SynthError::Memory)
}

/// A netlist under a Berger or an m-out-of-n code for a network.
fn unate(alloc: Global, source: &Netlist, way: Way) -> Result<PlannedNetlist, SynthError>
    requires combinational { length source.now.circuit.latches ≡ 0 }
    requires few { length source.now.circuit.outputs ≤ 64 }
    requires once { AreApart source.now.circuit.outputs }
    requires unordered { IsUnorderedCode (way_code way) }
    ensures secure { IfOk result (λ s. IsSelfChecking (Network source.now.circuit) s.net.circuit s.plan) }
    ensures exact { IfOk result (λ s. IsUnateNetlist source.now s.net s.plan) }
    ensures code { IfOk result (λ s. s.plan.code ≡ way_code way) }
    ensures covers { IfOk result (λ s. length s.net.circuit.nodes ≤ cover_bound way source.now.circuit) }
    ensures fits { OnOk result (IsFalse (is_too_large way source.now.circuit)) }
    ensures refused { IfErr result (RefusesSource way source.now.circuit) }
{
    let bound = bound_over(source, UNATE_COPIES);
    if bound > MOST_COVERS {
        return Err(SynthError::TooLarge);
    }
    unate_netlist(alloc, source, way.code()).map_err(SynthError::Memory)
}
