//! An addition of a refutation.
ghost use Rattle.std.specs.Prelude.{◌≡◌, ℕ, ◌<◌, List, None, Some, drop, length, IfOk, if◌then◌else◌};
ghost use Rattle.tsc_text.specs.TextLine.{the_line};
ghost use Rattle.refutations.specs.declared.literal.Literal.{Literal as L};
ghost use Rattle.refutations.specs.Checking.{IsSound};
ghost use Rattle.refutation_text.specs.RefutationLine.{addition_after, addition_of, front_of, line_number};
ghost use Rattle.refutation_text.specs.Following.{addition_fault, after_addition, answer_fault};
ghost use Rattle.refutation_text.specs.Reading.{addition_read};

use crate::fault::RefutationFault;
use crate::numbers::{read_literals, read_numbers};
use crate::token::{Token, token_at};
use refutations::{Answer, Checker, Literal};
use std::alloc::AllocError;
use tsc_io::Items;
use tsc_text::Lines;

/// Follows a line as an addition, and answers its fault.
///
/// # Errors
///
/// Want of memory.
pub(crate) fn follow_addition(
    checker: &mut Checker,
    lines: &Lines,
    line: usize,
    literals: &mut Items<Literal>,
    numbers: &mut Items<u32>,
) -> Result<Option<RefutationFault>, AllocError>
    requires line { line < length lines.now }
    ensures fault { IfOk result (λ fault. fault ≡ addition_fault checker.old (the_line lines.now line).number (addition_of (the_line lines.now line))) }
    ensures after { IfOk result (λ fault. fault ≡ None → checker.new ≡ after_addition checker.old (addition_of (the_line lines.now line))) }
    ensures sound { (formula : List (List L)) → IsSound formula checker.old → IsSound formula checker.new }
{
    match read_addition(lines, line, literals, numbers)? {
        None => Ok(Some(RefutationFault::Shape {
            line: lines.number(line),
        })),
        Some(number) => {
            let answer = checker.add(number, literals.as_slice(), numbers.as_slice())?;
            Ok(answer_fault(answer, lines.number(line)))
        }
    }
}

/// Reads the literals and hints of a line, and answers its number, if it is an addition.
///
/// # Errors
///
/// Want of memory.
fn read_addition(
    lines: &Lines,
    line: usize,
    literals: &mut Items<Literal>,
    numbers: &mut Items<u32>,
) -> Result<Option<u32>, AllocError>
    requires line { line < length lines.now }
    ensures read { IfOk result (λ number. addition_of (the_line lines.now line) ≡ addition_read literals.new numbers.new number) }
{
    if lines.is_plan(line) {
        return Ok(None);
    }
    match line_number(token_at(lines, line, 0)) {
        None => Ok(None),
        Some(number) => {
            if read_both(lines, line, literals, numbers)? {
                Ok(Some(number))
            } else {
                Ok(None)
            }
        }
    }
}

/// Reads the literals and hints of a line, and answers whether it has them.
///
/// # Errors
///
/// Want of memory.
fn read_both(
    lines: &Lines,
    line: usize,
    literals: &mut Items<Literal>,
    numbers: &mut Items<u32>,
) -> Result<bool, AllocError>
    requires line { line < length lines.now }
    ensures read { IfOk result (λ is_read. (number : ℕ) → addition_after number (front_of (drop 1 (the_line lines.now line).words)) ≡ addition_read literals.new numbers.new (if is_read then Some number else None)) }
{
    match read_literals(lines, line, literals)? {
        None => Ok(false),
        Some(past) => match read_numbers(lines, line, past, numbers)? {
            None => Ok(false),
            Some(_) => Ok(true),
        },
    }
}

/// The number of a line, from what its first word says.
pub(crate) fn line_number(token: Token) -> Option<u32>
    ensures number { result ≡ line_number token }
{
    match token {
        Token::Zero => Some(0),
        Token::Positive(number) => Some(number),
        _ => None,
    }
}

/// The fault of a line where the checker answers so to its addition.
fn answer_fault(answer: Answer, line: usize) -> Option<RefutationFault>
    ensures fault { result ≡ answer_fault line answer }
{
    match answer {
        Answer::Followed => None,
        Answer::OldNumber | Answer::NoVariable => Some(RefutationFault::Shape { line }),
        Answer::NoClause => Some(RefutationFault::NoClause { line }),
        Answer::TwoLiterals | Answer::Unfinished => Some(RefutationFault::Hint { line }),
    }
}
