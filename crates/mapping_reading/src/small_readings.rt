//! Small netlists that guard the definition of a mapping that is read.
ghost use Rattle.mapping_reading.specs.SmallReadings.{AliasDoesNotRead, InvertersRead, LastValueDoesNotRead, MergedDoesNotRead, MissingDoesNotRead, TwoConstantsDoNotRead, WrongConstantDoesNotRead};

/// Two inverters in the place of a node of the small machine are read as a mapping.
pub fn inverters_are_read()
    ensures reads { InvertersRead }
{}

/// The small netlist with two equal nodes merged into one gate isn't.
pub fn merged_nodes_are_not_read()
    ensures not_read { MergedDoesNotRead }
{}

/// Nor is one without the gate of a constant.
pub fn missing_gates_are_not_read()
    ensures not_read { MissingDoesNotRead }
{}

/// Nor one in which a constant has a gate for each reader.
pub fn two_constants_are_not_read()
    ensures not_read { TwoConstantsDoNotRead }
{}

/// Nor one in which an output became an alias of the net that its reader still reads.
pub fn aliases_are_not_read()
    ensures not_read { AliasDoesNotRead }
{}

/// Nor one with a 1 in the place of a 0.
pub fn wrong_constants_are_not_read()
    ensures not_read { WrongConstantDoesNotRead }
{}

/// Nor one with a gate that is wrong on the last value of its pins alone.
pub fn wrong_last_values_are_not_read()
    ensures not_read { LastValueDoesNotRead }
{}
