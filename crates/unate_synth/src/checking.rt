//! The checker of a word under an unordered code.
ghost use Rattle.std.specs.Prelude.{◌+◌, ◌≤◌, [], length, IfOk};
ghost use Rattle.fault_secure.specs.CodePlan.{IsUnorderedCode};
ghost use Rattle.code_checkers.specs.GateList.{IsWordChecker};
ghost use Rattle.code_checkers.specs.SizedWords.{HasPlan};
ghost use Rattle.net_writing.specs.CheckerParts.{IsCheckerOver};

use code_checkers::{CheckGates, WordSizes, word_checker};
use std::alloc::{AllocError, Global};

/// The checker of a word under an unordered code, of a size that some plan without groups has. It has few gates.
///
/// # Errors
///
/// Want of memory.
pub fn unordered_checker(alloc: Global, sizes: WordSizes) -> Result<CheckGates, AllocError>
    requires plan { HasPlan sizes [] }
    requires unordered { IsUnorderedCode sizes.code }
    requires latches { sizes.latches ≤ 64 }
    ensures over { IfOk result (IsCheckerOver (sizes.outputs + sizes.checks + sizes.latches)) }
    ensures made { IfOk result (IsWordChecker sizes []) }
    ensures small { IfOk result (λ gates. length gates.gates ≤ 20000) }
{
    let gates = word_checker(alloc, sizes, &[])?;
    Ok(gates)
}
