//! What mapping cover by cover keeps; and alarm-secure, which is asked of outputs and alarm alone.
ghost use Rattle.register_laws.specs.RegisterMapping.{MappedPlansAreOfTheirs, MappedRegistersAreAlarmSecure, MappedRegistersAreBlockAlarmSecure, MappedRegistersAreSecure, RegisterAlarmSecureForFaults, RegisterSecureIsAlarmSecure};

/// What is secure against any one failing cell is alarm-secure: no wrong output comes before its alarm.
pub fn register_secure_is_alarm_secure()
    ensures secure { RegisterSecureIsAlarmSecure }
{}

/// What is alarm-secure, without a ring, is so with each listed stuck-at fault, present at any steps: there is exactly one run, in which no
/// wrong output comes before its alarm.
pub fn alarm_secure_registers_show_faults()
    ensures alarmed { RegisterAlarmSecureForFaults }
{}

/// An alarm-secure netlist with registers, mapped cover by cover without a ring, is alarm-secure against any gates of one block that fail
/// at once, whatever bits they give at whatever steps, and against any failing latch.
pub fn mapped_registers_are_block_alarm_secure()
    ensures secure { MappedRegistersAreBlockAlarmSecure }
{}

/// It is alarm-secure against any one failing gate or latch of its own.
pub fn mapped_registers_are_alarm_secure()
    ensures secure { MappedRegistersAreAlarmSecure }
{}

/// A secure netlist with registers, mapped cover by cover without a ring, is secure against any one failing gate or latch of its own: each
/// wrong output or check shows at its own step there too.
pub fn mapped_registers_are_secure()
    ensures secure { MappedRegistersAreSecure }
{}

/// A plan of a netlist, with its checks, rails and watched nets moved, is a plan of the netlist mapped cover by cover.
pub fn mapped_plans_are_of_theirs()
    ensures planned { MappedPlansAreOfTheirs }
{}
