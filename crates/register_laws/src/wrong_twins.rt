//! Small netlists that aren't alarm-secure. Each breaks one condition of a twin.
ghost use Rattle.register_laws.specs.WrongTwins.{ApartInOneStepIsSilent, LeaningIsSilent, ZeroedIsFalse};

/// A netlist of four registers, with one group that is apart in each step but not through registers, isn't alarm-secure. The proof uses a run
/// in which a failing node makes two outputs of the group wrong a step later, without an alarm.
pub fn apart_in_one_step_is_not_enough()
    ensures silent { ApartInOneStepIsSilent }
{}

/// A netlist whose copied register reads an own net isn't alarm-secure. The proof uses a run in which a failing node makes both registers
/// wrong, without an alarm.
pub fn copies_read_copies()
    ensures silent { LeaningIsSilent }
{}

/// A netlist whose copied register begins at 0, where its register begins at 1, isn't alarm-secure. The proof uses a run without a fault that
/// has an alarm.
pub fn copies_begin_as_their_registers()
    ensures alarm { ZeroedIsFalse }
{}
