//! Alarms of parts, and what their watches hear.
ghost use Rattle.register_joints.specs.RegisterJoints.{AlarmsJoin, WatchesHearLatches, WatchesJoin};

/// Where the tree of a joint works, an alarm of any part is one of the joint.
pub fn part_alarms_are_heard()
    ensures alarmed { AlarmsJoin }
{}

/// Where an odd number of a part's registers differs from their copies, the joint's rails agree. The part's checker, the check of its watch
/// and the tree have to work there, and the checker has to decide. So it is at every step at which such a number differs, where one latch of
/// the joint fails in any way.
pub fn part_watches_are_heard()
    ensures heard { WatchesJoin }
    ensures latches { WatchesHearLatches }
{}
