//! Joints of parts that are alarm-secure, which an exact audit decides: the law, the contract of a function without a body.
//! It has no type and no definition of its own: what a part and a joint are to keep is said in `point_laws` and `joint_laws`.
//! It stands on `point_laws` (`IsAlarmSecure`) and `joint_laws` (`IsJoint`, `IsJointCellSecure`, what one step shows of the parts).
//! Its main promise: alarm-secure parts make a joint that is secure against any one failing cell (`alarm_secure_parts_join`).
//! The statement is in specs/AlarmJoints.
#![tactic(auto)]

mod laws;

pub use laws::alarm_secure_parts_join;
