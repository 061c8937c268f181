//! Failing cells beside stuck-at faults.
ghost use Rattle.structure_laws.specs.FailingCell.{CellsSettleAsHeldStems, ListedFaultsAreFailingCells, ListedFaultsSettleBut, OneRunButACell};

/// A step with a failing cell is one in which the cell's stem is held at the bit that it gives.
pub fn cells_settle_as_held_stems()
    ensures same { CellsSettleAsHeldStems }
{}

/// In an acyclic circuit there is exactly one run for whatever bits a failing cell gives.
pub fn one_run_but_a_cell()
    ensures one { OneRunButACell }
{}

/// A step or a run with a listed fault, present at any steps, is one with a failing cell: the one whose stem or pin is held. What
/// a latch's pin does wrong its cell gives a step later.
pub fn listed_faults_are_failing_cells()
    ensures step { ListedFaultsSettleBut }
    ensures run { ListedFaultsAreFailingCells }
{}
