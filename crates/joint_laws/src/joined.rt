//! What a joint of secure parts keeps.
ghost use Rattle.joint_laws.specs.JointLaws.{JointCellsCoverFaults, JoinedIsCellSecure, JoinedIsFaultSecure};

/// Parts that are secure against any one failing cell, each for its source, make a joint that is so for these sources. It is so whichever cell
/// of the joint fails, of a part or of the tree, and whatever bits it gives at whatever steps.
pub fn joined_is_cell_secure()
    ensures secure { JoinedIsCellSecure }
{}

/// Fault-secure parts make a fault-secure joint: against each listed stuck-at fault of the joint, present at any steps.
pub fn joined_is_fault_secure()
    ensures secure { JoinedIsFaultSecure }
{}

/// A joint that is secure against any one failing cell is fault-secure.
pub fn cell_secure_joints_are_fault_secure()
    ensures secure { JointCellsCoverFaults }
{}
