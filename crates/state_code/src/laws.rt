//! Laws of state words, and of the gates that decoding and selection add.
ghost use Rattle.std.specs.Prelude.{◌≡◌, ℕ, ◌<◌, Bool, List, map, length, slice_index_or};
ghost use Rattle.tsc_bits.specs.Bits.{bits_of};
ghost use Rattle.fault_secure.specs.Circuit.{bit};
ghost use Rattle.gate_net.specs.Gates.{GateNetwork, IsHashed};
ghost use Rattle.gate_net.specs.Growth.{Grows, added_gates};
ghost use Rattle.gate_net.specs.Negations.{is_negation, HasNo, NegatesOnlyInputs};
ghost use Rattle.state_code.specs.Words.{AreStateWords};
ghost use Rattle.state_code.specs.Lines.{decoded};
ghost use Rattle.tsc_bits.specs.Counting.{some_both};

/// A law: on the word of a state the choice by the decoded words is that state's bit.
pub fn states_select_themselves()
    ensures bit { (n m : ℕ) (words : List ℕ) (bits : List Bool) (state : ℕ) → AreStateWords n m (length words) (map (bits_of n) words) → length bits ≡ length words → state < length words → some_both (map (decoded n (bit (bits_of n (slice_index_or words state 0)))) words) bits ≡ bit bits state }
{}

/// A law: gates that negate only inputs still do where no `Not` and no `Xor` came.
pub fn added_signs()
    ensures signs { (old new : GateNetwork) → IsHashed old → NegatesOnlyInputs old → Grows old new → HasNo is_negation (added_gates old new) → NegatesOnlyInputs new }
{}
