//! The laws on checkers.
ghost use Rattle.std.specs.Prelude.{◌≡◌, ℕ, ◌<◌, List, Bool, length, ◌↔◌};
ghost use Rattle.tsc_cover.specs.Cover.{truth};
ghost use Rattle.fault_secure.specs.Circuit.{Circuit};
ghost use Rattle.fault_secure.specs.CodePlan.{CodePlan, IsCodeword, IsWellMade, IsPlanOf};
ghost use Rattle.fault_secure.specs.Depends.{InFunction};
ghost use Rattle.code_checkers.specs.declared.gate.CheckGate.{CheckGate};
ghost use Rattle.code_checkers.specs.Signal.{Signal, Pair, value};
ghost use Rattle.code_checkers.specs.Checker.{IsWordOf, RailsDiffer};
ghost use Rattle.code_checkers.specs.Gates.{signal_of};
ghost use Rattle.code_checkers.specs.GateList.{GateList, IsCheckerOf};
ghost use Rattle.code_checkers.specs.Block.{RailsRealise, IsSoundChecker};
ghost use Rattle.code_checkers.specs.Nodes.{cover_of, reads_of, pin_values};
ghost use Rattle.code_checkers.specs.NodesOfGates.{StandsFrom};
ghost use Rattle.code_checkers.specs.Within.{ReadsWord};
ghost use Rattle.code_checkers.specs.Tree.{IsTreeOf, AllDiffer, RailsOverDiffer, WordPairsDiffer, MadeRailsDiffer};

/// A law: the rails of a checker differ exactly where the word is a codeword, whatever the code, with and without latches.
#[tactic(auto, using(crate::proofs::Decides::rails_decide))]
pub fn rails_decide()
    ensures decides { (P : CodePlan) (w : List Bool) → IsWellMade P → IsWordOf P w → RailsDiffer P w ↔ IsCodeword P w }
{}

/// A law: the truth of a gate's cover, on the values at the places that it reads, is the value of its signal.
#[tactic(auto, using(crate::proofs::Realised::gate_values))]
pub fn gate_values()
    ensures values { (w : List Bool) (signals : List Signal) (g : CheckGate) → 0 < length (reads_of g) → truth (cover_of g) (pin_values w signals g) ≡ value w (signal_of signals g) }
{}

/// A law: where the gates of a plan's checker all stand in a netlist after its function, the rails at the plan's rails, each rail
/// realises its gate.
pub fn rails_are_realised()
    ensures realised { (N : Circuit) (P : CodePlan) (lo : ℕ) (made : GateList) → IsCheckerOf P made → StandsFrom N P lo made → ((q : ℕ) → InFunction N P q → q < lo) → RailsRealise N P }
{}

/// A law: rails that realise their gates stand outside the function, read only the word, and are code-disjoint.
pub fn realised_rails_are_sound()
    ensures sound { (N : Circuit) (P : CodePlan) → IsWellMade P → IsPlanOf N P → RailsRealise N P → IsSoundChecker N P }
{}

/// A law: the checker of a well-made plan reads only places of its word.
#[tactic(auto, using(crate::proofs::Within::reads_word))]
pub fn reads_word()
    ensures reads { (P : CodePlan) (made : GateList) → IsWellMade P → IsCheckerOf P made → ReadsWord P made }
{}

/// A law: the rails over pairs of signals differ exactly where the two signals of each pair do.
#[tactic(auto, using(crate::proofs::TreeDecides::rails_over_decide))]
pub fn rails_over_decide()
    ensures decides { (pairs : List Pair) (w : List Bool) → 0 < length pairs → RailsOverDiffer w pairs ↔ AllDiffer w pairs }
{}

/// A law: the rails of the tree over the pairs of a word differ exactly where the two bits of each pair do.
#[tactic(auto, using(crate::proofs::TreeDecides::tree_decides))]
pub fn tree_decides()
    ensures decides { (pairs : ℕ) (made : GateList) (w : List Bool) → 0 < pairs → IsTreeOf pairs made → MadeRailsDiffer w made ↔ WordPairsDiffer w pairs }
{}
