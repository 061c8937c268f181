//! Of which blocks gates are, and what that says of every way to read a mapping.
ghost use Rattle.mapping_reading.specs.Blocks.{SharedHasTwoBlocks};
ghost use Rattle.mapping_reading.specs.Leads.{BlocksLead, LeadersHaveBlocks, OneBlock};
ghost use Rattle.mapping_reading.specs.FoundBlocks.{FirstsAreOne, FoundAreOne, FoundBlocksRead, MissedCoverRefutes, NoNodesRefute, OpenPinRefutes, SharedGateRefutes};

/// However a netlist is read as a mapping, a gate that leads to a node is of its block.
pub fn gates_lead_to_one_block()
    ensures one { OneBlock }
{}

/// A gate leads to the block that is found for it.
pub fn blocks_are_where_gates_lead()
    ensures lead { BlocksLead }
{}

/// A gate that leads to a node has a block: those of no block lead nowhere.
pub fn leading_gates_have_blocks()
    ensures have { LeadersHaveBlocks }
{}

/// A gate of no node is shared exactly where it has readers of two blocks.
pub fn shared_gates_have_two_blocks()
    ensures two { SharedHasTwoBlocks }
{}

/// Owners and blocks are determined by the two netlists and where nets went: there are no two tables of either.
pub fn owners_and_blocks_are_one()
    ensures same { FoundAreOne }
{}

/// Where nothing stands against it, a netlist reads as a mapping by the found blocks.
pub fn found_blocks_read()
    ensures reads { FoundBlocksRead }
{}

/// Where there are gates and no nodes, it reads as none.
pub fn no_nodes_refute()
    ensures refute { NoNodesRefute }
{}

/// Nor does it where a gate leads to two blocks.
pub fn shared_gates_refute()
    ensures refute { SharedGateRefutes }
{}

/// Nor does it where a gate of a block reads a net that is neither its block's nor at a pin of its cover.
pub fn open_pins_refute()
    ensures refute { OpenPinRefutes }
{}

/// Nor does it where a block misses its cover on some value.
pub fn missed_covers_refute()
    ensures refute { MissedCoverRefutes }
{}

/// Each of these reasons has one place: the first gate, the first pin, the first value.
pub fn first_reasons_are_one()
    ensures one { FirstsAreOne }
{}
