//! The numbers of all variables of the question.
ghost use Rattle.std.specs.Prelude.{◌≡◌, ◌+◌, ◌<◌, ◌^◌, length, IfOk};
ghost use Rattle.question_text.specs.Whole.{numbers_of, rails_first};

use crate::reasons::groups_end;
use crate::tables::{CellList, NumberList, copy_from, failing_from, wrong_numbers};
use std::alloc::{AllocError, Global};
use tsc_net::{Group, Netlist};

/// The numbers of the variables of a question.
#[derive(Drop)]
pub(crate) struct Numbers {
    /// Of each net of the source.
    pub source: NumberList,
    /// Of each net of the netlist without a fault.
    pub right: NumberList,
    /// Of each net of the netlist with a failing cell.
    pub failing: NumberList,
    /// Of each node of the netlist with a failing cell.
    pub cells: CellList,
    /// That the first output differs from the source's.
    pub outputs: u32,
    /// The first one of the groups.
    pub groups: u32,
    /// That the rails differ.
    pub rails: u32,
}

/// The numbers of the variables of the question of a source and a netlist whose plan has these groups.
///
/// # Errors
///
/// Want of memory.
pub(crate) fn numbers_of(
    alloc: Global,
    source: &Netlist,
    net: &Netlist,
    groups: &[Group],
) -> Result<Numbers, AllocError>
    requires room { rails_first source.now.circuit net.now.circuit groups.now + 3 < 2 ^ 32 }
    ensures numbers { IfOk result (λ numbers. numbers ≡ numbers_of source.now.circuit net.now.circuit groups.now) }
{
    let of_source = copy_from(alloc, net.inputs() as u32, source)?;
    let of_right = copy_from(alloc, of_source.end, net)?;
    let of_failing = failing_from(alloc, of_right.end, net)?;
    let failing = wrong_numbers(alloc, net.inputs(), of_failing.cells.as_slice())?;
    let outputs = of_failing.end;
    let first = outputs + source.outputs().len() as u32;
    Ok(Numbers {
        source: of_source.numbers,
        right: of_right.numbers,
        failing,
        cells: of_failing.cells,
        outputs,
        groups: first,
        rails: groups_end(first, groups),
    })
}
