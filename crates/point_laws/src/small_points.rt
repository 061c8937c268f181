//! Small netlists at their points, on which the laws compute.
ghost use Rattle.point_laws.specs.SmallPoints.{CheckIsSilent, IsWeaker, MergedIsNotAlarmSecure, OutputIsUnheard, SmallIsSecureAtPoints, ToggleIsSecureAtPoints};

/// The small netlist and the small machine are secure at their points: the definition can be met, with latches too.
pub fn small_netlists_are_secure_at_points()
    ensures network { SmallIsSecureAtPoints }
    ensures machine { ToggleIsSecureAtPoints }
{}

/// A check that nothing reads fails silently, though no output is ever wrong without its alarm: alarm-secure is weaker than secure
/// against any one failing cell.
pub fn alarm_secure_is_weaker()
    ensures silent { CheckIsSilent }
    ensures weaker { IsWeaker }
{}

/// Two equal nodes merged into one make a wrong output without an alarm, at a point that is named: the netlist isn't alarm-secure.
pub fn merged_nodes_are_not_alarm_secure()
    ensures unheard { OutputIsUnheard }
    ensures not_secure { MergedIsNotAlarmSecure }
{}
