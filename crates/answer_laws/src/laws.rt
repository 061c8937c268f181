//! The laws on what is written.
ghost use Rattle.std.specs.Prelude.{◌≡◌, ℕ, List};
ghost use Rattle.synth_ways.specs.declared.way.Way.TheVariants.{Parity, Duplex};
ghost use Rattle.tsc_text.specs.declared.section.End.TheVariants.{Kiss as KissEnd};
ghost use Rattle.answer_laws.specs.AnswerLaws.{AnswersAreAccepted, AnswersAreRead, IsEndedSource, IsNoSynthesis, IsNoSynthesisOf, LooseAnswersAreAccepted, LooseAnswersAreRead, MachineAnswersAreAccepted, MachineAnswersAreRead, OneVectorList, TablesAreAnswered, VerdictsAreRight, late_answer, two_states, undriven_answer, wide_answer};
ghost use Rattle.answer_laws.specs.GradedLaws.{AlarmsAreSimulated, OneGradeReply, SecureTellsNoSilent};
ghost use Rattle.answers.specs.Answers.{IsLooseSynthesis, IsSynthesis, duplex_text, parity_text};
ghost use Rattle.answer_laws.specs.LooseTexts.{loose_duplex_text, loose_parity_text};
ghost use Rattle.text_sections.specs.Denoted.{netlist_in, values_in};
ghost use Rattle.answer_laws.specs.MadeLaws.{MadeReportsAreBacked, MadeTextsAreAllowed};

use grading_laws::{alarms_are_shown, grades_are_counted, secure_has_no_silent_fault};
use mapped_laws::sections_are_built;

/// A law: the bytes of a synthesis under parity are computed from the network alone.
pub fn parity_text_is_exact()
    ensures text { (text answer : List ℕ) → IsSynthesis Parity text answer → answer ≡ parity_text (netlist_in text) }
{}

/// A law: so are those of one over a shared copy.
pub fn duplex_text_is_exact()
    ensures text { (text answer : List ℕ) → IsSynthesis Duplex text answer → answer ≡ duplex_text (netlist_in text) }
{}

/// A law: so are those of the two of a table, from the network of its values alone.
pub fn loose_texts_are_exact()
    ensures parity { (text answer : List ℕ) → IsLooseSynthesis Parity text answer → answer ≡ loose_parity_text (values_in text) }
    ensures duplex { (text answer : List ℕ) → IsLooseSynthesis Duplex text answer → answer ≡ loose_duplex_text (values_in text) }
{}

/// A law: what a synthesis answers is refused neither by `faults` nor by `sim none` without step lines, and by `vectors` only for the
/// number of its points.
pub fn answers_are_read()
    ensures read { AnswersAreRead }
{}

/// A law: nor is the answer to a machine.
pub fn machine_answers_are_read()
    ensures read { MachineAnswersAreRead }
{}

/// A law: nor is the answer to a network with free bits.
pub fn loose_answers_are_read()
    ensures read { LooseAnswersAreRead }
{}

/// A law: what a synthesis answers to a network is accepted by an audit after that network, where this has its own end line, an LF
/// after it, and at most 1,048,576 points. The audit refuses nothing, and answers `yes` and never `no`.
pub fn answers_are_accepted()
    ensures accepted { AnswersAreAccepted }
{}

/// A law: so is what a synthesis answers to a machine. The machine of two states is a source with its end.
pub fn machine_answers_are_accepted()
    ensures accepted { MachineAnswersAreAccepted }
    ensures example { IsEndedSource KissEnd two_states }
{}

/// A law: so is what a synthesis answers to a network with free bits.
pub fn loose_answers_are_accepted()
    ensures accepted { LooseAnswersAreAccepted }
{}

/// A law: the two networks by which a PLA text is read as a source answer what its table says: which outputs are 1, and which are free.
pub fn tables_are_answered()
    ensures answered { TablesAreAnswered }
{}

/// A law: what `vectors` answers to a text is determined by the text.
pub fn vectors_are_determined()
    ensures one { OneVectorList }
{}

/// A law: no fault is told as untestable exactly where the netlist with its plan is self-testing.
pub fn verdicts_are_right()
    ensures right { VerdictsAreRight }
{}

/// A law: so is what `grade` answers to a text that nothing refuses.
pub fn grades_are_determined()
    ensures one { OneGradeReply }
{
    sections_are_built();
    grades_are_counted();
}

/// A law: of a netlist that is fault-secure, secure against any one failing cell, or alarm-secure for a source that allows one list of
/// outputs, `grade` tells no fault as silent; nor of one with registers that is secure or alarm-secure for its source.
pub fn secure_netlists_have_no_silent_line()
    ensures silent { SecureTellsNoSilent }
{
    grades_are_counted();
    secure_has_no_silent_fault();
}

/// A law: a fault that `grade` tells with an alarm at a step is one of which `sim`, where it is present from the first step on, has its
/// first alarm at that step.
pub fn alarms_are_simulated()
    ensures alarms { AlarmsAreSimulated }
{
    sections_are_built();
    alarms_are_shown();
}

/// A law: an answer in which a node reads a name that nothing drives, and one with a row that is wider than its cover, are no synthesis
/// of any text.
pub fn wrong_answers_are_refused()
    ensures undriven { IsNoSynthesis undriven_answer }
    ensures wide { IsNoSynthesis wide_answer }
{}

/// A law: an answer to a machine whose latches hold another state's word at first is no synthesis of it, though it is one except
/// for these two bits.
pub fn wrong_machine_answers_are_refused()
    ensures late { IsNoSynthesisOf two_states late_answer }
{}

/// A law: what `make` prints is backed. Nothing refuses the text of a number. Whatever a synthesis under the Berger code answers to it
/// has the printed checks, latches and length of the word, and at most the printed bound on covers. An audit of both texts in a row
/// answers `yes` and never `no`.
pub fn made_reports_are_backed()
    ensures allowed { MadeTextsAreAllowed }
    ensures backed { MadeReportsAreBacked }
{}
