//! The least cell at the first point of a batch at which some cell is unheard.
ghost use Rattle.std.specs.Prelude.{◌≡◌, ◌+◌, ◌<◌, ◌≤◌};
ghost use Rattle.fault_secure.specs.Circuit.{nets};
ghost use Rattle.fault_secure.specs.FailingCell.{IsCell};
ghost use Rattle.unheard_cells.specs.There.{found_more, point_or, CellUnheardThere, IsLeastCell};
ghost use Rattle.unheard_cells.specs.Trial.{IsRoom, IsSettled};

use crate::stems::{HeldStem, first_of_cell};
use crate::trial::Trial;
use tsc_net::{NetId, Netlist, Plan};

/// A cell with a point of a bench at which its stem, held at a bit, is unheard.
#[derive(Clone, Copy)]
pub(crate) struct FoundCell {
    /// The net of the cell.
    pub cell: NetId,
    /// The bit.
    pub held: bool,
    /// The point.
    pub point: usize,
}

/// The first of the first `many` points at which some cell is unheard, and there the least cell.
pub(crate) fn first_of_cells(
    trial: &mut Trial,
    net: &Netlist,
    plan: &Plan,
    right: &[u64],
    wrong: &mut [u64],
    many: usize,
) -> Option<FoundCell>
    requires settled { IsSettled net.now.circuit plan.now trial.old right.now }
    requires room { IsRoom net.now.circuit plan.now wrong.old }
    requires many { many ≤ 1024 }
    ensures least { IsLeastCell (CellUnheardThere net.now.circuit plan.now trial.new.points) (nets net.now.circuit) many result }
    ensures settled { IsSettled net.now.circuit plan.now trial.new right.now }
    ensures points { trial.new.points ≡ trial.old.points }
    ensures room { IsRoom net.now.circuit plan.now wrong.new }
{
    let mut found = None;
    let first = net.inputs();
    let past = net.nets();
    for number in first..past {
        let cell = NetId {
            number: number as u32,
        };
        found = one_more(trial, net, plan, right, wrong, cell, many, found);
    }
    found
}

/// What was found of the cells before this one, or what is found of this one at an earlier point.
fn one_more(
    trial: &mut Trial,
    net: &Netlist,
    plan: &Plan,
    right: &[u64],
    wrong: &mut [u64],
    cell: NetId,
    many: usize,
    found: Option<FoundCell>,
) -> Option<FoundCell>
    requires settled { IsSettled net.now.circuit plan.now trial.old right.now }
    requires room { IsRoom net.now.circuit plan.now wrong.old }
    requires cell { IsCell net.now.circuit cell.number }
    requires many { many ≤ 1024 }
    requires found { IsLeastCell (CellUnheardThere net.now.circuit plan.now trial.old.points) cell.number many found }
    ensures least { IsLeastCell (CellUnheardThere net.now.circuit plan.now trial.new.points) (cell.number + 1) many result }
    ensures settled { IsSettled net.now.circuit plan.now trial.new right.now }
    ensures points { trial.new.points ≡ trial.old.points }
    ensures room { IsRoom net.now.circuit plan.now wrong.new }
{
    let bound = point_or(found, many);
    let at = first_of_cell(trial, net, plan, right, wrong, cell, bound);
    found_more(cell, found, at)
}

/// What is found of a cell, or else what was found before.
fn found_more(cell: NetId, found: Option<FoundCell>, at: Option<HeldStem>) -> Option<FoundCell>
    ensures found { result ≡ found_more cell found at }
{
    match at {
        Some(at) => Some(FoundCell {
            cell,
            held: at.held,
            point: at.point,
        }),
        None => found,
    }
}

/// The point that was found, or a bound.
fn point_or(found: Option<FoundCell>, many: usize) -> usize
    ensures point { result ≡ point_or found many }
{
    match found {
        Some(found) => found.point,
        None => many,
    }
}
