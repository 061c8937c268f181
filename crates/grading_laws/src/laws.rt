//! The laws of grades.
ghost use Rattle.grading_laws.specs.GradeLaws.{AlarmSecureHasNoSilent, AlarmsAreShown, CellSecureHasNoSilent, DecidedStays, EachHasOneGrade, FaultSecureHasNoSilent, GradesAreWorkedOut, LatchPinsBeginRight, LatchPinsHoldLater, LatchStemsHold, RegisterAlarmSecureHasNoSilent, RegisterSecureHasNoSilent, VectorsAlarm};
ghost use Rattle.grading_laws.specs.Counts.{CountsAddUp, EachHasOneGrading, NoSilentIsCounted};
ghost use Rattle.grading_laws.specs.SmallGrades.{MergedIsGraded, SmallIsGraded, ToggleIsGraded};

/// In a netlist without a ring each fault has exactly one grade over each list of inputs.
pub fn each_fault_has_one_grade()
    ensures one { EachHasOneGrade }
{}

/// Two runs of as many steps have the grade that is worked out from their valuations, step by step, and no other.
pub fn grades_are_worked_out()
    ensures same { GradesAreWorkedOut }
{}

/// In a netlist without a ring a fault that has an alarm or is silent keeps its grade, whatever inputs follow: so only those that are unseen
/// need more steps.
pub fn decided_faults_stay()
    ensures stays { DecidedStays }
{}

/// No listed fault is silent, over whatever inputs, of a netlist that is fault-secure, secure against any one failing cell, or alarm-secure
/// for a source that allows one list of outputs. Nor is one of a netlist with registers that is secure or alarm-secure for its source.
pub fn secure_has_no_silent_fault()
    ensures faults { FaultSecureHasNoSilent }
    ensures cells { CellSecureHasNoSilent }
    ensures alarms { AlarmSecureHasNoSilent }
    ensures registers { RegisterSecureHasNoSilent }
    ensures register_alarms { RegisterAlarmSecureHasNoSilent }
{}

/// In a netlist without a ring a fault with an alarm is one that a simulation of it from the first step on shows: in the run with the fault
/// at every step the rails agree at the step of the alarm, and at no earlier one.
pub fn alarms_are_shown()
    ensures shown { AlarmsAreShown }
{}

/// Where the run without a fault of a fault-secure netlist without a ring comes, at a later step than the first, to a point that exposes a
/// listed fault, as its test vector does, the fault has its alarm at that step or an earlier one.
pub fn vectors_alarm()
    ensures alarm { VectorsAlarm }
{}

/// With the fault present at every step, a held stem of a latch has its bit from the first step on. With its pin held, a latch has the held
/// bit from the second step on; without a ring the first step is as without a fault.
pub fn latches_are_held()
    ensures stems { LatchStemsHold }
    ensures pins { LatchPinsHoldLater }
    ensures first { LatchPinsBeginRight }
{}

/// The listed faults of a netlist without a ring have exactly one list of grades. The three counts add up to the number of listed faults,
/// and where no fault is silent, none is counted.
pub fn grades_are_counted()
    ensures one { EachHasOneGrading }
    ensures sum { CountsAddUp }
    ensures silent { NoSilentIsCounted }
{}

/// In small netlists the grades compute: alarms at the first step and at a later one, silent faults, and one that is unseen. The last
/// clause has a held stem and a held pin of a latch.
pub fn small_netlists_are_graded()
    ensures secure { SmallIsGraded }
    ensures insecure { MergedIsGraded }
    ensures machine { ToggleIsGraded }
{}
