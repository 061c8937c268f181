//! Secure at the states that runs come to.
ghost use Rattle.point_laws.specs.PointLaws.{DecidedWhereReached, FaultsDecideCells};
ghost use Rattle.point_laws.specs.AlarmLaws.{HeardWhereReachedIsAlarmSecure};

/// A netlist without a ring is secure against any one failing cell exactly where it follows its source and is secure at the states
/// that runs come to.
pub fn decided_where_reached()
    ensures decided { DecidedWhereReached }
{}

/// Without a ring, fault-secure and secure against any one failing cell are the same: what a cell does in one step a held stem does.
pub fn faults_decide_cells()
    ensures decide { FaultsDecideCells }
{}

/// What follows its source and is heard at the states that runs come to is alarm-secure.
pub fn heard_where_reached_is_alarm_secure()
    ensures secure { HeardWhereReachedIsAlarmSecure }
{}
