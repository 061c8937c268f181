//! The numbers of lines, told from those of a few of them.
ghost use Rattle.std.specs.Prelude.{◌≡◌, ◌^◌, ◌<◌, ◌≤◌, ◌∷◌, length, nat_le, slice_index_or, All, OnOk, OnErr};
ghost use Rattle.std.specs.List.Sorted.{IsNonDecreasingBy};
ghost use Rattle.tsc_text.specs.Jumps.{first_jump, jump_at, number_behind, with_number};

use std::alloc::AllocError;
use tsc_io::Items;

/// A line that isn't numbered one more than the line before it.
#[derive(Clone, Copy)]
pub struct Jump {
    /// The line's place, from 0.
    pub line: u32,
    /// The line's number.
    pub number: u32,
}

/// What stands in place of a jump before the first: the first line, with the number 1.
const FIRST: Jump = Jump { line: 0, number: 1 };

/// The number of a line after a jump, where each line is numbered one more than the line before it.
pub fn number_behind(jump: Jump, line: usize) -> usize
    requires behind { jump.line ≤ line }
    requires few { line ≤ 2 ^ 32 }
    ensures number { result ≡ number_behind jump line }
{
    jump.number as usize + (line - jump.line as usize)
}

/// The last of the first `count` jumps.
fn jump_before(jumps: &[Jump], count: usize) -> Jump
    requires { count ≤ length jumps.now }
    ensures jump { result ≡ slice_index_or (first_jump ∷ jumps.now) count first_jump }
{
    if count == 0 { FIRST } else { jumps[count - 1] }
}

/// The last jump up to a line.
pub fn jump_at(jumps: &[Jump], line: usize) -> Jump
    requires rises { IsNonDecreasingBy (λ (jump : Jump). jump.line) jumps.now }
    ensures jump { result ≡ jump_at jumps.now line }
    ensures before { result.line ≤ line }
{
    let count = jumps.partition_point(
        |jump: &Jump| -> bool
            ensures { result ≡ nat_le jump.now.line line }
        { jump.line as usize <= line },
    );
    jump_before(jumps, count)
}

/// Adds a jump at a line after those of all jumps, unless it has this number without one.
///
/// # Errors
///
/// Want of memory.
pub fn tell_number(jumps: &mut Items<Jump>, line: usize, number: u32) -> Result<(), AllocError>
    requires few { line < 2 ^ 32 }
    requires behind { All (λ (jump : Jump). jump.line ≤ line) jumps.old }
    ensures ok { OnOk result (jumps.new ≡ with_number jumps.old line number) }
    ensures err { OnErr result (jumps.new ≡ jumps.old) }
{
    let last = jump_before(jumps.as_slice(), jumps.len());
    if number_behind(last, line) == number as usize {
        return Ok(());
    }
    jumps.push(Jump {
        line: line as u32,
        number,
    })
}
