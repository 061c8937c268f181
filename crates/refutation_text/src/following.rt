//! Follows the lines of a refutation.
ghost use Rattle.std.specs.Prelude.{◌≡◌, ◌<◌, ◌≤◌, List, None, drop, length, IfOk};
ghost use Rattle.tsc_text.specs.TextLine.{the_line};
ghost use Rattle.refutations.specs.declared.literal.Literal.{Literal as L};
ghost use Rattle.refutations.specs.Clauses.{HaveNoModel};
ghost use Rattle.refutations.specs.Checking.{IsSound};
ghost use Rattle.refutation_text.specs.Following.{after_line, fault_of, line_fault, lines_fault};

use crate::addition::follow_addition;
use crate::deletion::follow_deletion;
use crate::fault::RefutationFault;
use crate::token::{is_deletion, is_remark};
use refutations::{Checker, Literal};
use std::alloc::{AllocError, Global};
use tsc_io::Items;
use tsc_text::Lines;

/// Follows the lines of a text from the place `from` on with a checker that holds the clauses of a formula, up to the empty
/// clause, and answers the first fault. What follows the empty clause isn't looked at. Where there is no fault, the formula
/// has no model.
///
/// # Errors
///
/// Want of memory.
pub fn follow(
    alloc: Global,
    checker: &mut Checker,
    lines: &Lines,
    from: usize,
) -> Result<Option<RefutationFault>, AllocError>
    ensures fault { IfOk result (λ fault. fault ≡ fault_of checker.old (drop from lines.now)) }
    ensures refuted { IfOk result (λ fault. fault ≡ None → (formula : List (List L)) → IsSound formula checker.old → HaveNoModel formula) }
{
    if from >= lines.len() {
        return Ok(Some(RefutationFault::NoRefutation));
    }
    let mut literals = Items::new(alloc);
    let mut numbers = Items::new(alloc);
    follow_lines(checker, lines, from, &mut literals, &mut numbers)
}

/// Follows the lines from a place on, and answers the first fault. The literals and numbers of each line are read into the same lists.
///
/// # Errors
///
/// Want of memory.
fn follow_lines(
    checker: &mut Checker,
    lines: &Lines,
    from: usize,
    literals: &mut Items<Literal>,
    numbers: &mut Items<u32>,
) -> Result<Option<RefutationFault>, AllocError>
    requires within { from ≤ length lines.now }
    ensures fault { IfOk result (λ fault. fault ≡ lines_fault checker.old (drop from lines.now)) }
    ensures refuted { IfOk result (λ fault. fault ≡ None → (formula : List (List L)) → IsSound formula checker.old → HaveNoModel formula) }
{
    for line in from..lines.len() {
        if checker.is_refuted() {
            return Ok(None);
        }
        match follow_line(checker, lines, line, literals, numbers)? {
            None => {}
            Some(fault) => return Ok(Some(fault)),
        }
    }
    if checker.is_refuted() {
        Ok(None)
    } else {
        Ok(Some(RefutationFault::Unfinished))
    }
}

/// Follows a line, and answers its fault.
///
/// # Errors
///
/// Want of memory.
fn follow_line(
    checker: &mut Checker,
    lines: &Lines,
    line: usize,
    literals: &mut Items<Literal>,
    numbers: &mut Items<u32>,
) -> Result<Option<RefutationFault>, AllocError>
    requires line { line < length lines.now }
    ensures fault { IfOk result (λ fault. fault ≡ line_fault checker.old (the_line lines.now line)) }
    ensures after { IfOk result (λ fault. fault ≡ None → checker.new ≡ after_line checker.old (the_line lines.now line)) }
    ensures sound { (formula : List (List L)) → IsSound formula checker.old → IsSound formula checker.new }
{
    if is_remark(lines, line) {
        Ok(None)
    } else if is_deletion(lines, line) {
        follow_deletion(checker, lines, line, numbers)
    } else {
        follow_addition(checker, lines, line, literals, numbers)
    }
}
