//! Modules under one pair of rails: parts that are secure make a joint that is, each law the contract of a function without a body.
//! Its main definitions are `IsJoint`, a circuit in which parts stand side by side before a tree over their rails, and `IsJointCellSecure`.
//! It stands on `fault_secure` (circuits, runs, plans, `IsCellSecure`), `structure_laws` (failing cells beside listed faults) and `tsc_bits` (lists of bits).
//! Its main promise: where each part is secure against any one failing cell, the joint is, for the sources of its parts (`joined_is_cell_secure`).
//! Definitions, in reading order: specs/Parts, Joint, JointSecure, JointLaws, JointCircuit, JointCircuitLaws.
#![tactic(auto)]

mod circuits;
mod joined;

pub use circuits::{
    joint_circuits_are_acyclic, joint_circuits_are_closed, joint_circuits_are_joints,
};
pub use joined::{
    cell_secure_joints_are_fault_secure, joined_is_cell_secure, joined_is_fault_secure,
};
