//! Results that need no walk.
ghost use Rattle.std.specs.Prelude.{◌≤◌, ◌⊎◌, IfSome, IfNone};
ghost use Rattle.diagrams.specs.Operations.{IsShortcut};

use crate::memo::Operation;

/// The row of what an operation makes of two rows, where a constant or their equality decides it.
pub(crate) fn shortcut(operation: Operation, first: u32, second: u32) -> Option<u32>
    ensures is { IfSome result (IsShortcut operation first second) }
    ensures decides { IfNone result ((2 ≤ first) ⊎ (2 ≤ second)) }
{
    match operation {
        Operation::And => and_shortcut(first, second),
        Operation::Or => or_shortcut(first, second),
        Operation::Xor => xor_shortcut(first, second),
    }
}

/// The row of what AND makes of two rows, where a constant or their equality decides it.
fn and_shortcut(first: u32, second: u32) -> Option<u32>
    ensures is { IfSome result (IsShortcut Operation.And first second) }
    ensures decides { IfNone result ((2 ≤ first) ⊎ (2 ≤ second)) }
{
    if first == 0 {
        return Some(0);
    }
    if second == 0 {
        return Some(0);
    }
    if first == 1 {
        return Some(second);
    }
    if second == 1 {
        return Some(first);
    }
    if first == second {
        return Some(first);
    }
    None
}

/// The row of what OR makes of two rows, where a constant or their equality decides it.
fn or_shortcut(first: u32, second: u32) -> Option<u32>
    ensures is { IfSome result (IsShortcut Operation.Or first second) }
    ensures decides { IfNone result ((2 ≤ first) ⊎ (2 ≤ second)) }
{
    if first == 0 {
        return Some(second);
    }
    if second == 0 {
        return Some(first);
    }
    if first == 1 {
        return Some(1);
    }
    if second == 1 {
        return Some(1);
    }
    if first == second {
        return Some(first);
    }
    None
}

/// The row of what XOR makes of two rows, where a constant or their equality decides it.
fn xor_shortcut(first: u32, second: u32) -> Option<u32>
    ensures is { IfSome result (IsShortcut Operation.Xor first second) }
    ensures decides { IfNone result ((2 ≤ first) ⊎ (2 ≤ second)) }
{
    if first == 0 {
        return Some(second);
    }
    if second == 0 {
        return Some(first);
    }
    if first == second {
        return Some(0);
    }
    None
}
