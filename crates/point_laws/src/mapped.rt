//! Mapping cover by cover keeps alarm-secure.
ghost use Rattle.point_laws.specs.MappedAlarms.{MappedIsAlarmSecure, MappedIsBlockAlarmSecure};

/// An alarm-secure netlist, mapped cover by cover without a ring, is alarm-secure against any gates of one block that fail at once,
/// whatever bits they give at whatever steps, and against any failing latch.
pub fn mapped_is_block_alarm_secure()
    ensures secure { MappedIsBlockAlarmSecure }
{}

/// It is alarm-secure against any one failing gate or latch of its own.
pub fn mapped_is_alarm_secure()
    ensures secure { MappedIsAlarmSecure }
{}
