//! Joints of parts of both kinds: secure for logic, or for a circuit with registers, each law the contract of a function without a body.
//! Its main definitions are `PartSource` (`Logical M` or `Registers S`), `IsPartSecure` and `IsCellSecureForSources`.
//! It stands on `joint_laws` (joints, what one shows of a part), `point_laws` (`IsAlarmSecure`) and `register_laws` (`IsRegisterAlarmSecure`, twins, watches).
//! Its main promise: parts that are secure for their sources make a joint that is secure for all of them, whichever one cell fails (`secure_parts_join`).
//! Definitions, in reading order: specs/PartSource, SourcesSecure, RegisterJoints, SolePart, SmallJoint.
#![tactic(auto)]

mod alarms;
mod joints;
mod parts;
mod small_joint;

pub use alarms::{part_alarms_are_heard, part_watches_are_heard};
pub use joints::{
    fault_secure_parts_join, joints_of_logic_are_secure, secure_joints_show_faults,
    secure_parts_join,
};
pub use parts::{secure_netlists_are_parts, sole_parts_are_joints};
pub use small_joint::the_small_joint_is_secure;
