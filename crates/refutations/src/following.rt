//! Follows the hints of an addition.
ghost use Rattle.std.specs.Prelude.{◌≡◌, ◌<◌, length, IfOk, OnOk};
ghost use Rattle.refutations.specs.Steps.{follows, with_false};
ghost use Rattle.refutations.specs.Checking.{AreWithin, HoldWithin};

use crate::answer::Answer;
use crate::clauses::Clauses;
use crate::known::Known;
use crate::literal::Literal;
use crate::reduction::{Reduction, reduced};
use std::alloc::AllocError;

/// Where the hints of a clause lead, once it is known that the clause is false.
///
/// # Errors
///
/// Want of memory.
pub(crate) fn followed(
    clauses: &Clauses,
    known: &mut Known,
    literals: &[Literal],
    hints: &[u32],
) -> Result<Answer, AllocError>
    requires clauses { HoldWithin (length known.old) clauses.now.clauses }
    requires literals { AreWithin (length known.old) literals.now }
    ensures answer { IfOk result (λ answer. answer ≡ follows clauses.now.clauses (with_false known.old literals.now) hints.now) }
    ensures sized { length known.new ≡ length known.old }
{
    deny(known, literals)?;
    follow(clauses, known, hints)
}

/// Learns that each literal of a clause is false.
fn deny(known: &mut Known, literals: &[Literal]) -> Result<(), AllocError>
    requires within { AreWithin (length known.old) literals.now }
    ensures denied { OnOk result (known.new ≡ with_false known.old literals.now) }
    ensures sized { length known.new ≡ length known.old }
{
    for literal in literals {
        known.learn(literal.variable, !literal.wants)?;
    }
    Ok(())
}

/// Where hints lead, one after another.
#[tactic(auto, using(crate::proofs::Soundness::found_within))]
fn follow(clauses: &Clauses, known: &mut Known, hints: &[u32]) -> Result<Answer, AllocError>
    requires within { HoldWithin (length known.old) clauses.now.clauses }
    ensures answer { IfOk result (λ answer. answer ≡ follows clauses.now.clauses known.old hints.now) }
    ensures sized { length known.new ≡ length known.old }
{
    for hint in hints {
        match clauses.find(*hint) {
            None => return Ok(Answer::NoClause),
            Some(literals) => match reduced(known, literals) {
                Reduction::False => return Ok(Answer::Followed),
                Reduction::Forces(literal) => known.learn(literal.variable, literal.wants)?,
                Reduction::Open => return Ok(Answer::TwoLiterals),
                Reduction::True => {}
            },
        }
    }
    Ok(Answer::Unfinished)
}
