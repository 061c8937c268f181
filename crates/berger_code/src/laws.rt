//! Laws of Berger checks.
ghost use Rattle.std.specs.Prelude.{◌≡◌, ℕ, Bool, List, ◌++◌, length};
ghost use Rattle.tsc_bits.specs.Bits.{bits_of};
ghost use Rattle.fault_secure.specs.declared.code.Code.TheVariants.{Berger};
ghost use Rattle.fault_secure.specs.CodePlan.{CodePlan, IsBergerWidth, IsChecked};
ghost use Rattle.tsc_bits.specs.Counting.{zeros};
ghost use Rattle.gate_net.specs.declared.line.Line.{Line};
ghost use Rattle.gate_net.specs.Gates.{GateNetwork, AreLines, line_values};
ghost use Rattle.gate_net.specs.Growth.{ComputesAll};

/// A law: outputs, their number of zeros in binary and any next state are a word that has its Berger check; so have the
/// lines of outputs and of their check on every input and state. Three bits 010 have two zeros.
#[tactic(auto, using(crate::proofs::Codeword::word_checked, crate::proofs::Codeword::lines_checked))]
pub fn zeros_are_checked()
    ensures word { (P : CodePlan) (outputs next : List Bool) → length outputs ≡ P.outputs → IsBergerWidth P.outputs (length P.checks) → IsChecked Berger P ((outputs ++ bits_of (length P.checks) (zeros outputs)) ++ next) }
    ensures lines { (P : CodePlan) (old new : GateNetwork) (outputs checks : List Line) (x s : ℕ → Bool) → length outputs ≡ P.outputs → length checks ≡ length P.checks → IsBergerWidth P.outputs (length P.checks) → AreLines old outputs → ComputesAll old new (λ x s. bits_of (length checks) (zeros (line_values old x s outputs))) checks → IsChecked Berger P (line_values new x s (outputs ++ checks)) }
    ensures small { zeros (bits_of 3 2) ≡ 2 }
{}

/// A law: outputs have one width, so the lines of a check are as many as `berger_width` says.
#[tactic(auto, using(crate::proofs::Codeword::one_width))]
pub fn width_is_one()
    ensures width { (k v w : ℕ) → IsBergerWidth k v → IsBergerWidth k w → v ≡ w }
{}
