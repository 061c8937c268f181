//! A small machine that meets every definition.
ghost use Rattle.structure_laws.specs.Toggle.{FailingCellDoesMore, ToggleIsCellSecure, ToggleIsFaultSecure};

/// A small machine with two latches is fault-secure: the definitions can be met.
pub fn toggle_is_fault_secure()
    ensures secure { ToggleIsFaultSecure }
{}

/// It is secure against any one failing cell.
pub fn toggle_is_cell_secure()
    ensures secure { ToggleIsCellSecure }
{}

/// It has a run with one failing cell that no stuck-at fault makes, whatever steps the fault is present at.
pub fn a_failing_cell_does_more()
    ensures more { FailingCellDoesMore }
{}
