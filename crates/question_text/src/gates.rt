//! The clauses of gates.
ghost use Rattle.std.specs.Prelude.{◌≡◌, ◌∷◌, IfOk, OnOk, map};
ghost use Rattle.question_text.specs.Gates.{after_clauses, and_of, is_one, is_zero, or_of, turned, xor_of};

use crate::clauses::{Clauses, Literals, turned};
use refutations::Literal;
use std::alloc::{AllocError, Global};
use tsc_io::Items;

/// That the variable is 1.
pub(crate) fn one(variable: u32) -> Literal
    ensures one { result ≡ is_one variable }
{
    Literal {
        variable,
        wants: true,
    }
}

/// That the variable is 0.
pub(crate) fn zero(variable: u32) -> Literal
    ensures zero { result ≡ is_zero variable }
{
    Literal {
        variable,
        wants: false,
    }
}

/// A literal, and behind it the negations of some.
fn with_turned(alloc: Global, first: Literal, literals: &[Literal]) -> Result<Literals, AllocError>
    ensures clause { IfOk result (λ clause. clause ≡ first ∷ map turned literals.now) }
{
    let mut clause = Items::from_slice(alloc, &[first])?;
    for it in literals {
        clause.push(turned(*it))?;
    }
    Ok(clause)
}

/// A literal, and behind it some.
fn with_first(alloc: Global, first: Literal, literals: &[Literal]) -> Result<Literals, AllocError>
    ensures clause { IfOk result (λ clause. clause ≡ first ∷ literals.now) }
{
    let mut clause = Items::from_slice(alloc, &[first])?;
    clause.append(literals)?;
    Ok(clause)
}

/// Adds that the variable is 1 exactly where all of the literals are true.
pub(crate) fn push_and(
    out: &mut Clauses,
    variable: u32,
    literals: &[Literal],
) -> Result<(), AllocError>
    ensures clauses { OnOk result (out.new ≡ after_clauses out.old (and_of variable literals.now)) }
{
    for it in literals {
        out.push(&[zero(variable), *it])?;
    }
    let last = with_turned(out.alloc(), one(variable), literals)?;
    out.push(last.as_slice())
}

/// Adds that a literal is true exactly where one of the others is.
pub(crate) fn push_or(
    out: &mut Clauses,
    gives: Literal,
    literals: &[Literal],
) -> Result<(), AllocError>
    ensures clauses { OnOk result (out.new ≡ after_clauses out.old (or_of gives literals.now)) }
{
    for it in literals {
        out.push(&[gives, turned(*it)])?;
    }
    let last = with_first(out.alloc(), turned(gives), literals)?;
    out.push(last.as_slice())
}

/// Adds that the variable is 1 exactly where one of two literals is true and the other isn't.
pub(crate) fn push_xor(
    out: &mut Clauses,
    variable: u32,
    a: Literal,
    b: Literal,
) -> Result<(), AllocError>
    ensures clauses { OnOk result (out.new ≡ after_clauses out.old (xor_of variable a b)) }
{
    out.push(&[zero(variable), a, b])?;
    out.push(&[zero(variable), turned(a), turned(b)])?;
    out.push(&[one(variable), turned(a), b])?;
    out.push(&[one(variable), a, turned(b)])
}
