//! Secure decided by points: the laws, each the contract of a function without a body.
//! Its main definitions are `IsSecureAtPoints`, where no listed state and input has a false alarm or a cell that fails silently, and `IsAlarmSecure`.
//! It stands on `fault_secure` (circuits, runs, plans, `IsCellSecure`), `structure_laws`, `mapping_laws` and `tsc_bits`. The exact audit stands on it, which asks nothing of structure.
//! Its main promise: a netlist without a ring that follows its source and is heard at its points makes no wrong output before its alarm, whatever any one cell gives (`heard_at_points_is_alarm_secure`).
//! Definitions, in reading order: specs/Points, Reached, PointLaws, Heard, AlarmLaws, MappedAlarms, SmallPoints.
#![tactic(auto)]

mod alarms;
mod mapped;
mod points;
mod reached;
mod small_points;

pub use alarms::{
    alarm_secure_shows_faults, cell_secure_is_alarm_secure, heard_at_points_is_alarm_secure,
    networks_are_decided_by_alarms, secure_at_points_is_heard, sources_allow_one_output,
    unheard_is_insecure, unheard_stems_decide, wrong_unheard_is_insecure,
};
pub use mapped::{mapped_is_alarm_secure, mapped_is_block_alarm_secure};
pub use points::{
    networks_are_decided, secure_at_points_is_cell_secure, silent_is_insecure,
    sound_is_secure_at_points, stems_decide,
};
pub use reached::{
    decided_where_reached, faults_decide_cells, heard_where_reached_is_alarm_secure,
};
pub use small_points::{
    alarm_secure_is_weaker, merged_nodes_are_not_alarm_secure, small_netlists_are_secure_at_points,
};
