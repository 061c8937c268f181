//! What a failing gate of a mapped netlist shows on the netlist that was mapped.
ghost use Rattle.mapping_laws.specs.MappingLaws.{BlockFailsAsCell, GateFailsAsCell, MappedBits, MovedPlanIsPlan, MovedPlanIsWellMade};

/// A valuation of a mapped netlist, read where the nets went, has their bits and the same word.
pub fn mapped_bits()
    ensures same { MappedBits }
{}

/// A plan of a netlist, with its checks and rails where they went, is a plan of the mapped netlist.
pub fn moved_plan_is_a_plan()
    ensures plan { MovedPlanIsPlan }
{}

/// It is well made where the plan is.
pub fn moved_plan_is_well_made()
    ensures well_made { MovedPlanIsWellMade }
{}

/// Where any gates of one block fail, at any steps, this is a run of the netlist that was mapped, with one failing cell.
pub fn failing_blocks_are_failing_cells()
    ensures run { BlockFailsAsCell }
{}

/// So it is where one gate or one latch of the mapped netlist fails.
pub fn failing_gates_are_failing_cells()
    ensures run { GateFailsAsCell }
{}
