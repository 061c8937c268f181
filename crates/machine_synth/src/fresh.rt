//! The number of the fresh names over the texts of names.
ghost use Rattle.std.specs.Prelude.{◌≡◌, ◌+◌, ◌<◌, ◌^◌, ◌++◌, length, IfOk};
ghost use Rattle.std.specs.List.{list_any};
ghost use Rattle.tsc_net.specs.Parts.{begins_with, is_taken, free_number};

use std::alloc::{AllocError, Global};
use tsc_net::NameTexts;

/// The number of the fresh names: the least such that no text of the two lists begins with `t`, the number and `_`.
pub fn fresh_number(
    alloc: Global,
    inputs: &NameTexts,
    outputs: &NameTexts,
) -> Result<usize, AllocError>
    requires few { length inputs.now + length outputs.now < 2 ^ 32 }
    ensures number { IfOk result (λ number. number ≡ free_number (inputs.now ++ outputs.now)) }
{
    let count = inputs.len() + outputs.len();
    for number in 0..count {
        if !is_taken(alloc, inputs, outputs, number)? {
            return Ok(number);
        }
    }
    Ok(count)
}

/// Whether some text of the two lists begins with `t`, the number and `_`.
fn is_taken(
    alloc: Global,
    inputs: &NameTexts,
    outputs: &NameTexts,
    number: usize,
) -> Result<bool, AllocError>
    ensures taken { IfOk result (λ taken. taken ≡ is_taken (inputs.now ++ outputs.now) number) }
{
    let prefix = format!(in alloc; "t{number}_")?;
    Ok(some_begins_with(inputs, prefix.as_bytes()) || some_begins_with(outputs, prefix.as_bytes()))
}

/// Whether some text begins with `prefix`.
fn some_begins_with(texts: &NameTexts, prefix: &[u8]) -> bool
    ensures begins { result ≡ list_any (begins_with prefix.now) texts.now }
{
    for place in 0..texts.len() {
        if texts.get(place).as_slice().starts_with(prefix) {
            return true;
        }
    }
    false
}
