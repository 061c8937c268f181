//! The laws of the answer.
ghost use Rattle.unheard_cells.specs.PointReason.{OnePointAnswer};
ghost use Rattle.unheard_cells.specs.Worked.{LoneOutputIsUnheard, SmallIsHeard};

/// There is at most one answer: two are the same.
pub fn point_reason_is_determined()
    ensures determined { OnePointAnswer }
{}

/// Two small netlists: one has no reason, and the other has one, with its point, its cell and its bit.
pub fn worked_point_reason()
    ensures heard { SmallIsHeard }
    ensures unheard { LoneOutputIsUnheard }
{}
