//! Which netlists are parts, and a joint of one part.
ghost use Rattle.register_joints.specs.RegisterJoints.{CellSecureIsPart, RegisterFaultSecureIsPart, RegisterSecureIsPart};
ghost use Rattle.register_joints.specs.SolePart.{SoleIsJoint, SoleIsSecure};

/// What is secure against any one failing cell, for logic or for a circuit with registers, is a secure part. With registers only the outputs and
/// rails of the plan matter. For listed faults the same holds of a netlist with registers; for logic it is fault-secure itself.
pub fn secure_netlists_are_parts()
    ensures logic { CellSecureIsPart }
    ensures registers { RegisterSecureIsPart }
    ensures faults { RegisterFaultSecureIsPart }
{}

/// A netlist is a joint of itself alone, without a tree, whose rails are its own. That joint is secure for the source for which the netlist is.
pub fn sole_parts_are_joints()
    ensures joint { SoleIsJoint }
    ensures secure { SoleIsSecure }
{}
