//! Parts of a source: a part has the same inputs, stands within the source as a copy, and its outputs are those that the source shows.
ghost use Rattle.register_laws.specs.RegisterMapping.{AlarmSecureForTheWhole};
ghost use Rattle.register_laws.specs.Part.{FaultSecureForTheWhole, PartsAnswerAlike, SecureForTheWhole};

/// A part without a ring, whose outputs the source shows, answers as the source does over every list of inputs.
pub fn parts_answer_alike()
    ensures alike { PartsAnswerAlike }
{}

/// So a netlist that is secure for the part is secure for the whole, where the whole has no ring: against any one failing cell, and against
/// each listed fault. What is alarm-secure for the part is alarm-secure for the whole.
pub fn secure_for_the_whole()
    ensures cells { SecureForTheWhole }
    ensures faults { FaultSecureForTheWhole }
    ensures alarms { AlarmSecureForTheWhole }
{}
