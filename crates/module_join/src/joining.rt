//! The joint netlist of netlists with their plans.
ghost use Rattle.module_join.specs.JoinLaws.{ControlIsNoNet, JoinIsBuilt, JoinIsCellSecure, JoinIsFaultSecure, JoinIsFaultSecureForSources, JoinIsJoint, JoinIsSecureForSources, JoinNamesNets};
ghost use Rattle.module_join.specs.TwoJoined.{TwoAreJoined};

/// A law: the joint netlist of netlists that were built, each with a plan that shows it, is a joint of them, closed and without a ring;
/// each input of a part is the joint's input of that name.
pub fn joins_are_joints()
    ensures joint { JoinIsJoint }
{}

/// A law: where each part is secure against any one failing cell for its source, the joint is so for these sources.
pub fn joins_are_cell_secure()
    ensures secure { JoinIsCellSecure }
{}

/// A law: where each part is fault-secure for its source, the joint is so for these sources.
pub fn joins_are_fault_secure()
    ensures secure { JoinIsFaultSecure }
{}

/// A law: where each part is alarm-secure for its source, logic or a circuit with registers, against any one failing cell, the joint is so
/// for all these sources.
pub fn joins_are_secure_for_sources()
    ensures secure { JoinIsSecureForSources }
{}

/// A law: where each part is so against each listed fault, the joint is so for all these sources.
pub fn joins_are_fault_secure_for_sources()
    ensures secure { JoinIsFaultSecureForSources }
{}

/// A law: the joint netlist is a netlist as it is built: closed, without a ring, and no name stands for two nets.
pub fn joins_are_built()
    ensures built { JoinIsBuilt }
{}

/// A small joint, worked out by hand: each node of both parts and of the tree, and the outputs.
pub fn two_netlists_are_joined()
    ensures joined { TwoAreJoined }
{}

/// A law: each net of the joint netlist has the name of where it comes from.
pub fn joins_name_each_net()
    ensures names { JoinNamesNets }
{}

/// A law: the control of the joint's clock, where it is no input's name, is the name of no net of the joint.
pub fn joins_leave_the_control()
    ensures apart { ControlIsNoNet }
{}
