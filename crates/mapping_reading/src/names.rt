//! Where nets go by their names.
ghost use Rattle.mapping_reading.specs.NamedMapping.{FirstMissingIsOne, NamesMove, NamesStaySecure};

/// Where by names inputs, latches and outputs are the same and each node's net is that of a gate, nets have moved as a mapping wants it.
pub fn names_move()
    ensures moved { NamesMove }
{}

/// A netlist that reads as a mapping by names stays secure, with the plan moved by names, for sources with registers too.
pub fn mappings_by_name_stay_secure()
    ensures secure { NamesStaySecure }
{}

/// There is one first node whose name isn't that of a gate's net.
pub fn first_missing_names_are_one()
    ensures one { FirstMissingIsOne }
{}
