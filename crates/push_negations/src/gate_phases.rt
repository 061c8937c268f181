//! The gates that both phases of one gate take.
ghost use Rattle.std.specs.Prelude.{◌≡◌, ◌+◌, ◌^◌, ◌<◌, true, false, List, length, slice_index_or, All, IfOk, OnOk};
ghost use Rattle.gate_net.specs.Signal.{Signal};
ghost use Rattle.gate_net.specs.Signal.Signal.{And, Or, Xor, Input};
ghost use Rattle.gate_net.specs.Gates.{IsLine, ReadsWithin, ReadsBelow, gate_signal, signal_of, meaning};
ghost use Rattle.gate_net.specs.Negations.{is_state, negates_inputs};
ghost use Rattle.push_negations.specs.Phases.{IsNormal, GrowsBy, Means, IsPair, HasPhases, HaveAllPhases};
ghost use Rattle.push_negations.specs.Pushed.{most_lines};

use crate::phases::Phases;
use gate_net::{Gate, Gates, Line};
use std::alloc::AllocError;

/// Adds a gate that negates nothing except an input.
#[tactic(auto, using(crate::proofs::Lines::grown_by_gate, crate::proofs::Lines::means_added))]
fn add_normal(made: &mut Gates, gate: Gate) -> Result<Line, AllocError>
    requires normal { IsNormal made.old }
    requires reads { ReadsWithin made.old gate }
    requires negation { negates_inputs made.old.gates gate ≡ true }
    requires room { length made.old.gates + 1 < 2 ^ 32 }
    ensures grown { OnOk result (GrowsBy 1 made.old made.new) }
    ensures means { IfOk result (Means made.new (gate_signal made.old gate)) }
{
    made.add(gate)
}

/// Adds two gates, neither of which negates anything except an input or reads the other.
#[tactic(auto, using(crate::proofs::Lines::grown_twice, crate::proofs::Lines::means_kept, crate::proofs::Lines::means_gate, crate::proofs::Lines::reads_kept, crate::proofs::Lines::negation_kept))]
fn add_both(made: &mut Gates, positive: Gate, negative: Gate) -> Result<Phases, AllocError>
    requires normal { IsNormal made.old }
    requires positive_reads { ReadsWithin made.old positive }
    requires negative_reads { ReadsWithin made.old negative }
    requires positive_negation { negates_inputs made.old.gates positive ≡ true }
    requires negative_negation { negates_inputs made.old.gates negative ≡ true }
    requires room { length made.old.gates + 2 < 2 ^ 32 }
    ensures grown { OnOk result (GrowsBy 2 made.old made.new) }
    ensures positive { IfOk result (λ pair. Means made.new (gate_signal made.old positive) pair.positive) }
    ensures negative { IfOk result (λ pair. Means made.new (gate_signal made.old negative) pair.negative) }
{
    let positive = add_normal(made, positive)?;
    let negative = add_normal(made, negative)?;
    Ok(Phases { positive, negative })
}

/// Adds both phases of an input.
#[tactic(auto, using(crate::proofs::Lines::grown_twice, crate::proofs::Lines::negates_input, crate::proofs::Lines::input_phases))]
fn add_input(made: &mut Gates, i: usize) -> Result<Phases, AllocError>
    requires normal { IsNormal made.old }
    requires input { i < made.old.inputs }
    requires room { length made.old.gates + 2 < 2 ^ 32 }
    ensures grown { OnOk result (GrowsBy 2 made.old made.new) }
    ensures phases { IfOk result (HasPhases made.new (Input i)) }
{
    let positive = add_normal(made, Gate::Input { i })?;
    let negative = add_normal(made, Gate::Not { a: positive })?;
    Ok(Phases { positive, negative })
}

/// Adds the line that is 1 where both of the first two lines are, or both of the others.
#[tactic(auto, using(crate::proofs::Lines::grown_twice, crate::proofs::Lines::cover_made))]
fn add_cover(made: &mut Gates, a: Line, b: Line, c: Line, d: Line) -> Result<Line, AllocError>
    requires normal { IsNormal made.old }
    requires a { IsLine made.old a }
    requires b { IsLine made.old b }
    requires c { IsLine made.old c }
    requires d { IsLine made.old d }
    requires room { length made.old.gates + 3 < 2 ^ 32 }
    ensures grown { OnOk result (GrowsBy 3 made.old made.new) }
    ensures means { IfOk result (Means made.new (Or (And (meaning made.old a) (meaning made.old b)) (And (meaning made.old c) (meaning made.old d)))) }
{
    let first = add_normal(made, Gate::And { a, b })?;
    let second = add_normal(made, Gate::And { a: c, b: d })?;
    let either = add_normal(
        made,
        Gate::Or {
            a: first,
            b: second,
        },
    )?;
    Ok(either)
}

/// Adds both phases of an And, of which the negative one is an Or.
#[tactic(auto, using(crate::proofs::Lines::and_phases))]
fn add_and(made: &mut Gates, a: Phases, b: Phases) -> Result<Phases, AllocError>
    requires normal { IsNormal made.old }
    requires a { IsPair made.old a }
    requires b { IsPair made.old b }
    requires room { length made.old.gates + 2 < 2 ^ 32 }
    ensures grown { OnOk result (GrowsBy 2 made.old made.new) }
    ensures phases { IfOk result (λ pair. (p q : Signal) → HasPhases made.old p a → HasPhases made.old q b → HasPhases made.new (And p q) pair) }
{
    let positive = Gate::And {
        a: a.positive,
        b: b.positive,
    };
    let negative = Gate::Or {
        a: a.negative,
        b: b.negative,
    };
    let pair = add_both(made, positive, negative)?;
    Ok(pair)
}

/// Adds both phases of an Or, of which the negative one is an And.
#[tactic(auto, using(crate::proofs::Lines::or_phases))]
fn add_or(made: &mut Gates, a: Phases, b: Phases) -> Result<Phases, AllocError>
    requires normal { IsNormal made.old }
    requires a { IsPair made.old a }
    requires b { IsPair made.old b }
    requires room { length made.old.gates + 2 < 2 ^ 32 }
    ensures grown { OnOk result (GrowsBy 2 made.old made.new) }
    ensures phases { IfOk result (λ pair. (p q : Signal) → HasPhases made.old p a → HasPhases made.old q b → HasPhases made.new (Or p q) pair) }
{
    let positive = Gate::Or {
        a: a.positive,
        b: b.positive,
    };
    let negative = Gate::And {
        a: a.negative,
        b: b.negative,
    };
    let pair = add_both(made, positive, negative)?;
    Ok(pair)
}

/// Adds both phases of an Xor: its own cover, where the two differ, and that of its negation, where they agree.
#[tactic(auto, using(crate::proofs::Lines::grown_twice, crate::proofs::Lines::xor_phases))]
fn add_xor(made: &mut Gates, a: Phases, b: Phases) -> Result<Phases, AllocError>
    requires normal { IsNormal made.old }
    requires a { IsPair made.old a }
    requires b { IsPair made.old b }
    requires room { length made.old.gates + 6 < 2 ^ 32 }
    ensures grown { OnOk result (GrowsBy 6 made.old made.new) }
    ensures phases { IfOk result (λ pair. (p q : Signal) → HasPhases made.old p a → HasPhases made.old q b → HasPhases made.new (Xor p q) pair) }
{
    let positive = add_cover(made, a.positive, b.negative, a.negative, b.positive)?;
    let negative = add_cover(made, a.positive, b.positive, a.negative, b.negative)?;
    Ok(Phases { positive, negative })
}

/// The phases of a line.
fn phases_at(phases: &[Phases], line: Line) -> Phases
    requires within { line.number < length phases.now }
    ensures at { result ≡ slice_index_or phases.now line.number result }
{
    phases[line.number as usize]
}

/// Adds both phases of a gate, over those of the lines that it reads.
#[tactic(auto, using(crate::proofs::Lines::stayed, crate::proofs::Lines::not_phases, crate::proofs::Lines::phases_read, crate::proofs::Lines::pair_read))]
pub fn add_gate(made: &mut Gates, phases: &[Phases], gate: Gate) -> Result<Phases, AllocError>
    requires normal { IsNormal made.old }
    requires lines { All (IsPair made.old) phases.now }
    requires reads { ReadsBelow made.old (length phases.now) gate }
    requires stateless { is_state gate ≡ false }
    requires room { length made.old.gates + most_lines gate < 2 ^ 32 }
    ensures grown { OnOk result (GrowsBy (most_lines gate) made.old made.new) }
    ensures phases { IfOk result (λ pair. (signals : List Signal) → HaveAllPhases made.old signals phases.now → HasPhases made.new (signal_of signals gate) pair) }
{
    match gate {
        Gate::Zero => add_both(made, Gate::Zero, Gate::One),
        Gate::One => add_both(made, Gate::One, Gate::Zero),
        Gate::Input { i } => add_input(made, i),
        Gate::State { i: _ } => unreachable!(),
        Gate::Not { a } => Ok(phases_at(phases, a).negated()),
        Gate::And { a, b } => add_and(made, phases_at(phases, a), phases_at(phases, b)),
        Gate::Or { a, b } => add_or(made, phases_at(phases, a), phases_at(phases, b)),
        Gate::Xor { a, b } => add_xor(made, phases_at(phases, a), phases_at(phases, b)),
    }
}
