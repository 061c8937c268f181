//! From a machine's function and its checker to self-checking.
ghost use Rattle.std.specs.Prelude.{ℕ};
ghost use Rattle.fault_secure.specs.Circuit.{Circuit};
ghost use Rattle.fault_secure.specs.Closed.{IsClosed};
ghost use Rattle.fault_secure.specs.Settle.{Acyclic};
ghost use Rattle.fault_secure.specs.CodePlan.{CodePlan, IsWellMade, IsPlanOf};
ghost use Rattle.fault_secure.specs.Logic.{StateTable, IsStateTable};
ghost use Rattle.fault_secure.specs.Logic.Logic.{States};
ghost use Rattle.code_checkers.specs.Block.{RailsRealise};
ghost use Rattle.code_checkers.specs.SelfChecking.{IsSelfChecking};
ghost use Rattle.machine_synth.specs.MachineFunction.{IsMachineFunction};

/// A law on a netlist with a plan of a state table. It is self-checking for the table where gates that negate only inputs, before
/// place hi, compute the chosen bit of each place of its word, and its rails realise the stated checker.
pub fn machine_is_secure()
    ensures secure { (M : StateTable) (N : Circuit) (P : CodePlan) (hi : ℕ) → IsStateTable M → Acyclic N → IsClosed N → IsWellMade P → IsPlanOf N P → IsMachineFunction M N P hi → RailsRealise N P → IsSelfChecking (States M) N P }
{}
