//! From a unate function and its checker to self-checking.
ghost use Rattle.std.specs.Prelude.{ℕ};
ghost use Rattle.fault_secure.specs.Circuit.{Circuit};
ghost use Rattle.fault_secure.specs.Closed.{IsClosed};
ghost use Rattle.fault_secure.specs.Settle.{Acyclic};
ghost use Rattle.fault_secure.specs.CodePlan.{CodePlan, IsWellMade, IsPlanOf};
ghost use Rattle.fault_secure.specs.Logic.Logic.{Network};
ghost use Rattle.code_checkers.specs.Block.{RailsRealise};
ghost use Rattle.code_checkers.specs.SelfChecking.{IsSelfChecking};
ghost use Rattle.unate_synth.specs.UnateNetlist.{IsUnateFunction};

/// A law: a netlist whose outputs and checks are computed by gates that negate only inputs, before place hi, and whose rails
/// realise the stated checker, is self-checking for its network, under a Berger or an m-out-of-n code.
pub fn unate_is_secure()
    ensures secure { (C N : Circuit) (P : CodePlan) (hi : ℕ) → Acyclic C → Acyclic N → IsClosed N → IsWellMade P → IsPlanOf N P → IsUnateFunction C N P hi → RailsRealise N P → IsSelfChecking (Network C) N P }
{}
