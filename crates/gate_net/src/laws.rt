//! Laws of networks that grow.
ghost use Rattle.std.specs.Prelude.{◌≡◌, ℕ, List, Bool};
ghost use Rattle.gate_net.specs.declared.line.Line.{Line};
ghost use Rattle.gate_net.specs.Signal.{Signal, value, values};
ghost use Rattle.gate_net.specs.Gates.{GateNetwork, IsHashed, AreLines, IsLine, meaning, gate_at, gate_signal, line_values};
ghost use Rattle.gate_net.specs.Growth.{Grows, IsAdded, AreAdded, Computes, ComputesAll};

/// A law: a network that grew and grew again grew; and as a network grows its lines stay, with their gates and values.
#[tactic(auto, using(crate::proofs::Kept::grows_twice, crate::proofs::Kept::lines_kept, crate::proofs::Kept::gate_kept, crate::proofs::Kept::values_kept))]
pub fn growth_is_kept()
    ensures twice { (a b c : GateNetwork) → Grows a b → Grows b c → Grows a c }
    ensures lines { (a b : GateNetwork) (lines : List Line) → Grows a b → AreLines a lines → AreLines b lines }
    ensures gates { (a b : GateNetwork) (line : Line) → Grows a b → IsLine a line → gate_at b.gates line.number ≡ gate_at a.gates line.number }
    ensures values { (a b : GateNetwork) (x s : ℕ → Bool) (lines : List Line) → Grows a b → AreLines a lines → line_values b x s lines ≡ line_values a x s lines }
{}

/// A law: a line that was added with a signal computes the signal's value, and lines theirs.
#[tactic(auto, using(crate::proofs::Kept::added_computes, crate::proofs::Kept::all_added_compute))]
pub fn added_computes()
    ensures one { (a b : GateNetwork) (signal : Signal) (line : Line) → IsAdded a b signal line → Computes a b (λ x s. value x s signal) line }
    ensures all { (a b : GateNetwork) (signals : List Signal) (lines : List Line) → AreAdded a b signals lines → ComputesAll a b (λ x s. values x s signals) lines }
{}

/// A law: a line means the signal of its gate over the lines that the gate reads.
#[tactic(auto, using(crate::proofs::Signals::meaning_is))]
pub fn line_of_gate()
    ensures gate { (G : GateNetwork) (line : Line) → IsHashed G → IsLine G line → meaning G line ≡ gate_signal G (gate_at G.gates line.number) }
{}
