//! What is left of a clause, by what is known of the variables.
ghost use Rattle.std.specs.Prelude.{◌≡◌, ◌<◌, length, All};
ghost use Rattle.refutations.specs.Checking.{ForcesWithin};
ghost use Rattle.refutations.specs.Steps.{known_of, joined as joined_with, opened as opened_with, reduced as reduced_from};

use crate::known::Known;
use crate::literal::Literal;

/// What is left of a clause.
#[derive(Clone, Copy, Debug)]
pub(crate) enum Reduction {
    /// Nothing: each literal is false.
    False,
    /// One literal of which nothing is known; the others are false.
    Forces(Literal),
    /// Two different literals or more of which nothing is known; no literal is true.
    Open,
    /// A literal is true.
    True,
}

/// What is left of a clause.
#[tactic(auto, using(crate::proofs::Soundness::forced_within))]
pub(crate) fn reduced(known: &Known, literals: &[Literal]) -> Reduction
    requires within { All (λ l. l.variable < length known.now) literals.now }
    ensures reduced { result ≡ reduced_from known.now Reduction.False literals.now }
    ensures forced { ForcesWithin (length known.now) result }
{
    let mut found = Reduction::False;
    for literal in literals {
        found = joined(found, known.of(*literal), *literal);
    }
    found
}

/// What is left with one more literal, of which this is known.
fn joined(found: Reduction, is: Option<bool>, literal: Literal) -> Reduction
    ensures joined { result ≡ joined_with found is literal }
{
    match is {
        None => opened(found, literal),
        Some(bit) => { if bit { Reduction::True } else { found } }
    }
}

/// What is left with one more literal of which nothing is known.
fn opened(found: Reduction, literal: Literal) -> Reduction
    ensures opened { result ≡ opened_with found literal }
{
    match found {
        Reduction::False => Reduction::Forces(literal),
        Reduction::Forces(before) => {
            if before.is(literal) {
                Reduction::Forces(before)
            } else {
                Reduction::Open
            }
        }
        Reduction::Open => Reduction::Open,
        Reduction::True => Reduction::True,
    }
}
