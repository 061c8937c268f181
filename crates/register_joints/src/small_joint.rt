//! A small joint of parts of both kinds.
ghost use Rattle.register_joints.specs.SmallJoint.{SmallIsJoined, SmallIsJoint, SmallJointIsFaultSecure, SmallJointIsSecure, SmallWatchIsHeard};

/// A twin of one register with a watch and a netlist of one AND gate, under one pair of rails. Their joint, whose circuit is worked out by
/// hand, is secure for both sources against any one failing cell and each listed fault. Whichever latch fails, the watch is heard in the joint.
pub fn the_small_joint_is_secure()
    ensures joined { SmallIsJoined }
    ensures joint { SmallIsJoint }
    ensures cells { SmallJointIsSecure }
    ensures faults { SmallJointIsFaultSecure }
    ensures heard { SmallWatchIsHeard }
{}
