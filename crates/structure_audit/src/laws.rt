//! That there is at most one answer.
ghost use Rattle.std.specs.Prelude.{◌≡◌, Option};
ghost use Rattle.fault_secure.specs.Circuit.{Circuit};
ghost use Rattle.fault_secure.specs.CodePlan.{CodePlan};
ghost use Rattle.structure_audit.specs.StructureReason.{IsStructureAnswer};
ghost use Rattle.structure_audit.specs.declared.reason.StructureReason.{StructureReason};

/// A law: a netlist with its plan has at most one answer: two are the same.
pub fn structure_reason_is_determined()
    ensures one { (N : Circuit) (P : CodePlan) (a b : Option StructureReason) → IsStructureAnswer N P a → IsStructureAnswer N P b → a ≡ b }
{}
