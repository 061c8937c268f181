//! The joint circuit of parts.
ghost use Rattle.joint_laws.specs.JointCircuitLaws.{JointCircuitIsAcyclic, JointCircuitIsClosed, JointCircuitIsJoint};

/// The joint circuit of parts, with a tree over the pairs of their rails, is a joint of them.
pub fn joint_circuits_are_joints()
    ensures joint { JointCircuitIsJoint }
{}

/// Where no part has a ring, neither has the joint circuit.
pub fn joint_circuits_are_acyclic()
    ensures acyclic { JointCircuitIsAcyclic }
{}

/// Where each part reads and shows only nets of its own, so does the joint circuit.
pub fn joint_circuits_are_closed()
    ensures closed { JointCircuitIsClosed }
{}
