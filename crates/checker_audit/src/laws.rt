//! The laws on what an audit of the checker answers.
ghost use Rattle.std.specs.Prelude.{◌≡◌, ℕ, Option};
ghost use Rattle.fault_secure.specs.Circuit.{Circuit};
ghost use Rattle.fault_secure.specs.CodePlan.{CodePlan};
ghost use Rattle.code_checkers.specs.Block.{RailsRealise};
ghost use Rattle.checker_audit.specs.FirstMisfit.{IsFirstMismatch};
ghost use Rattle.checker_audit.specs.CheckerAnswer.{IsCheckerAnswer};
ghost use Rattle.checker_audit.specs.declared.reason.CheckerReason.{CheckerReason};

/// A law: a netlist doesn't both realise the rails of its checker and have a first net that doesn't fit its gate, and there is
/// one such net at most.
pub fn mismatches_are_determined()
    ensures apart { (N : Circuit) (P : CodePlan) (bad : ℕ) → RailsRealise N P → IsFirstMismatch N P bad → ⊥ }
    ensures one { (N : Circuit) (P : CodePlan) (bad other : ℕ) → IsFirstMismatch N P bad → IsFirstMismatch N P other → bad ≡ other }
{}

/// A law: a netlist with its plan has one answer at most.
pub fn checker_reason_is_determined()
    ensures one { (N : Circuit) (P : CodePlan) (a b : Option CheckerReason) → IsCheckerAnswer N P a → IsCheckerAnswer N P b → a ≡ b }
{}
