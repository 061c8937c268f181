//! Small netlists that guard the definition of a mapping.
ghost use Rattle.mapping_laws.specs.Inverters.{FailingBlockDoesMore, InvertersAreMapped, InvertersAreSecure, MergedIsNotMapped, MissingIsNotMapped, OpenIsNotMapped};

/// The small machine with two inverters in the place of a node is a mapping of it: the definition can be met.
pub fn inverters_are_mapped()
    ensures mapped { InvertersAreMapped }
{}

/// It is secure against any gates of one block, both inverters among them.
pub fn inverters_are_secure()
    ensures secure { InvertersAreSecure }
{}

/// In it both inverters can fail at once, as no one failing gate does.
pub fn a_failing_block_does_more()
    ensures more { FailingBlockDoesMore }
{}

/// The small netlist with two equal nodes merged into one gate is no mapping of it.
pub fn merged_nodes_are_not_mapped()
    ensures not_mapped { MergedIsNotMapped }
{}

/// A small netlist without the gate of a constant is no mapping of the one with it.
pub fn missing_gates_are_not_mapped()
    ensures not_mapped { MissingIsNotMapped }
{}

/// In the place of a buffer no gate reads what is no net, and no cover has a pin that reads nothing.
pub fn open_gates_are_not_mapped()
    ensures not_mapped { OpenIsNotMapped }
{}
