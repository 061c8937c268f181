//! A deletion of a refutation.
ghost use Rattle.std.specs.Prelude.{◌≡◌, ◌<◌, List, true, None, length, IfOk};
ghost use Rattle.tsc_text.specs.TextLine.{the_line};
ghost use Rattle.refutations.specs.declared.literal.Literal.{Literal as L};
ghost use Rattle.refutations.specs.Checking.{IsSound};
ghost use Rattle.refutation_text.specs.Token.{is_deletion};
ghost use Rattle.refutation_text.specs.RefutationLine.{deletions_of};
ghost use Rattle.refutation_text.specs.Following.{after_deletion, are_alive, deletion_fault, without_clauses};
ghost use Rattle.refutation_text.specs.Reading.{deletions_read};

use crate::addition::line_number;
use crate::fault::RefutationFault;
use crate::numbers::read_numbers;
use crate::token::token_at;
use refutations::Checker;
use std::alloc::AllocError;
use tsc_io::Items;
use tsc_text::Lines;

/// Follows a line as a deletion, and answers its fault.
///
/// # Errors
///
/// Want of memory.
pub(crate) fn follow_deletion(
    checker: &mut Checker,
    lines: &Lines,
    line: usize,
    numbers: &mut Items<u32>,
) -> Result<Option<RefutationFault>, AllocError>
    requires line { line < length lines.now }
    requires long { 1 < length (the_line lines.now line).words }
    ensures fault { IfOk result (λ fault. fault ≡ deletion_fault checker.old (the_line lines.now line).number (deletions_of (the_line lines.now line))) }
    ensures after { IfOk result (λ fault. fault ≡ None → checker.new ≡ after_deletion checker.old (deletions_of (the_line lines.now line))) }
    ensures sound { (formula : List (List L)) → IsSound formula checker.old → IsSound formula checker.new }
{
    if read_deletion(lines, line, numbers)? {
        if delete_all(checker, numbers.as_slice()) {
            Ok(None)
        } else {
            Ok(Some(RefutationFault::NoClause {
                line: lines.number(line),
            }))
        }
    } else {
        Ok(Some(RefutationFault::Shape {
            line: lines.number(line),
        }))
    }
}

/// Reads the numbers of a line after the second word, and answers whether it is a deletion.
///
/// # Errors
///
/// Want of memory.
fn read_deletion(lines: &Lines, line: usize, numbers: &mut Items<u32>) -> Result<bool, AllocError>
    requires line { line < length lines.now }
    requires long { 1 < length (the_line lines.now line).words }
    ensures read { IfOk result (λ is_read. deletions_of (the_line lines.now line) ≡ deletions_read numbers.new is_read) }
{
    if lines.is_plan(line) || line_number(token_at(lines, line, 0)).is_none() {
        return Ok(false);
    }
    match read_numbers(lines, line, 2, numbers)? {
        None => Ok(false),
        Some(has_negative) => Ok(!has_negative),
    }
}

/// Deletes the clauses of these numbers, one after another, up to the first that isn't alive. Answers whether all were alive.
fn delete_all(checker: &mut Checker, numbers: &[u32]) -> bool
    ensures alive { result ≡ are_alive checker.old numbers.now }
    ensures after { result ≡ true → checker.new ≡ without_clauses checker.old numbers.now }
    ensures sound { (formula : List (List L)) → IsSound formula checker.old → IsSound formula checker.new }
{
    for number in numbers {
        if !checker.delete(*number) {
            return false;
        }
    }
    true
}
