//! What a joint keeps of parts that are secure for their sources.
ghost use Rattle.register_joints.specs.RegisterJoints.{FaultSecurePartsJoin, LogicalCellsJoin, LogicalFaultsJoin, SecurePartsJoin, SourceCellsCoverFaults};

/// Parts that are alarm-secure, each for its source, make a joint that is secure for all these sources. A source is logic or a circuit with
/// registers. It is so whichever cell of the joint fails, of a part or of the tree, and whatever bits it gives at whatever steps.
pub fn secure_parts_join()
    ensures secure { SecurePartsJoin }
{}

/// Parts that are secure for their sources against each listed fault make a joint that is so. It is so whichever listed fault of the joint is
/// present, at any steps.
pub fn fault_secure_parts_join()
    ensures secure { FaultSecurePartsJoin }
{}

/// A joint that is secure for the sources against any one failing cell is so against each listed fault.
pub fn secure_joints_show_faults()
    ensures secure { SourceCellsCoverFaults }
{}

/// Where every source is logic, a joint that is secure here is secure as a joint of such parts is: the clauses of `joint_laws`, and more.
pub fn joints_of_logic_are_secure()
    ensures cells { LogicalCellsJoin }
    ensures faults { LogicalFaultsJoin }
{}
