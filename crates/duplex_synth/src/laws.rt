//! Laws of duplex netlists.
ghost use Rattle.duplex_synth.specs.DuplexLaws.{OneDuplexNetlist, DuplexIsSecure, DuplexIsNoLarger, OneGroupIsParity};

/// A law: a network has one duplex netlist, with one plan.
pub fn one_duplex_netlist()
    ensures one { OneDuplexNetlist }
{}

/// A law: a checked netlist that is the duplex netlist of a network is secure against any one failing cell, and fault-secure.
pub fn duplex_is_secure()
    ensures secure { DuplexIsSecure }
{}

/// A law: the duplex netlist of a network has no more covers than its parity netlist.
pub fn duplex_is_no_larger()
    ensures smaller { DuplexIsNoLarger }
{}

/// A law: where the outputs of a network are one group, its duplex netlist and plan are its parity netlist and plan.
pub fn one_group_is_parity()
    ensures parity { OneGroupIsParity }
{}
