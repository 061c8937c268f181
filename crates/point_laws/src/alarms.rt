//! Heard at the points of a netlist, and alarm-secure: what is asked of outputs and alarm alone.
ghost use Rattle.point_laws.specs.AlarmLaws.{AlarmSecureForFaults, CellSecureIsAlarmSecure, HeardAtPointsIsAlarmSecure, NetworksAreDecidedByAlarms, SecureAtPointsIsHeard, SourcesAllowOneOutput, UnheardIsInsecure, UnheardStemIsWrong, UnheardStemsDecide, WrongUnheardIsInsecure};

/// A netlist without a ring that follows its source and is heard at its points is alarm-secure: no wrong output comes before its alarm,
/// whatever any one cell gives at whatever steps.
pub fn heard_at_points_is_alarm_secure()
    ensures secure { HeardAtPointsIsAlarmSecure }
{}

/// What is secure at its points is heard there.
pub fn secure_at_points_is_heard()
    ensures heard { SecureAtPointsIsHeard }
{}

/// What is secure against any one failing cell is alarm-secure.
pub fn cell_secure_is_alarm_secure()
    ensures secure { CellSecureIsAlarmSecure }
{}

/// With a listed stuck-at fault, present at any steps, no wrong output of what is alarm-secure comes before its alarm.
pub fn alarm_secure_shows_faults()
    ensures alarmed { AlarmSecureForFaults }
{}

/// Without latches, for a source without free outputs, it is alarm-secure exactly where it follows its source and is heard at its points.
pub fn networks_are_decided_by_alarms()
    ensures decided { NetworksAreDecidedByAlarms }
{}

/// A network without a ring has no free output; nor has a state table, or a loose source without a ring, unless the plan has version 2.
pub fn sources_allow_one_output()
    ensures one { SourcesAllowOneOutput }
{}

/// Where a run comes to the state of a point at which a cell fails unheard, the netlist isn't one that is secure against any one failing cell.
pub fn unheard_is_insecure()
    ensures insecure { UnheardIsInsecure }
{}

/// Where what is unheard there is an output that the source doesn't allow, it isn't alarm-secure.
pub fn wrong_unheard_is_insecure()
    ensures insecure { WrongUnheardIsInsecure }
{}

/// A cell fails unheard at a point exactly where its stem does, held at one of the two bits: that which its net hasn't there without a
/// fault, so that one try per cell and point is enough.
pub fn unheard_stems_decide()
    ensures decide { UnheardStemsDecide }
    ensures wrong { UnheardStemIsWrong }
{}
