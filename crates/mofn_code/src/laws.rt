//! Laws of thermometer checks.
ghost use Rattle.std.specs.Prelude.{◌≡◌, ◌↔◌, ℕ, ◌<◌, ◌≤◌, Bool, IsTrue, List, ◌++◌, length};
ghost use Rattle.tsc_bits.specs.Bits.{bits_of, binary};
ghost use Rattle.fault_secure.specs.declared.code.Code.TheVariants.{MOutOfN};
ghost use Rattle.fault_secure.specs.Circuit.{bit};
ghost use Rattle.fault_secure.specs.CodePlan.{CodePlan, IsChecked};
ghost use Rattle.tsc_bits.specs.Counting.{ones, zeros};
ghost use Rattle.gate_net.specs.declared.line.Line.{Line};
ghost use Rattle.gate_net.specs.Gates.{GateNetwork, AreLines, line_values};
ghost use Rattle.gate_net.specs.Growth.{ComputesAll};
ghost use Rattle.tsc_bits.specs.Thermometer.{thermo};

/// A law: a thermometer of size k at n has k bits, of which the j-th, from 0, is 1 exactly where j is below n; so it has
/// n ones, if n is at most k. The check of the three bits 010 is 110.
#[tactic(auto, using(tsc_bits::proofs::Thermometers::thermo_length, tsc_bits::proofs::Thermometers::thermo_bit, tsc_bits::proofs::Thermometers::thermo_ones))]
pub fn thermometers_count()
    ensures sized { (k n : ℕ) → length (thermo k n) ≡ k }
    ensures bits { (k n j : ℕ) → j < k → (IsTrue (bit (thermo k n) j) ↔ j < n) }
    ensures ones { (k n : ℕ) → n ≤ k → ones (thermo k n) ≡ n }
    ensures small { binary (thermo 3 (zeros (bits_of 3 2))) ≡ 6 }
{}

/// A law: outputs, their thermometer check and any next state are a word that has its m-out-of-n check; so have the lines
/// of outputs and of their check on every input and state.
#[tactic(auto, using(crate::proofs::Codeword::word_checked, crate::proofs::Codeword::lines_checked))]
pub fn thermometers_are_checked()
    ensures word { (P : CodePlan) (outputs next : List Bool) → length outputs ≡ P.outputs → length P.checks ≡ P.outputs → IsChecked MOutOfN P ((outputs ++ thermo (length outputs) (zeros outputs)) ++ next) }
    ensures lines { (P : CodePlan) (old new : GateNetwork) (outputs checks : List Line) (x s : ℕ → Bool) → length outputs ≡ P.outputs → length P.checks ≡ P.outputs → AreLines old outputs → ComputesAll old new (λ x s. thermo (length outputs) (zeros (line_values old x s outputs))) checks → IsChecked MOutOfN P (line_values new x s (outputs ++ checks)) }
{}
