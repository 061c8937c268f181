//! The laws on exact questions.
ghost use Rattle.exact_question.specs.Laws.{NoModelIsAlarmSecure, QuestionDecides, VariablesAreInOrder};
ghost use Rattle.exact_question.specs.SmallQuestion.{SmallQuestion};

/// A law: the question has no model exactly where the netlist follows its source and is heard at its points. At each input it then has
/// the source's outputs, its word is a codeword, its rails differ, and no failing cell makes an output wrong while the rails differ. This
/// is what an exact audit says yes to, at any number of inputs. Without a ring, the netlist is then alarm-secure.
pub fn question_decides()
    ensures decides { QuestionDecides }
    ensures secure { NoModelIsAlarmSecure }
{}

/// A law: the number of each variable is its place in their order, so that none stands twice and there are no gaps.
pub fn variables_are_in_order()
    ensures ordered { VariablesAreInOrder }
{}

/// A small question, computed: one AND under duplex.
pub fn small_question()
    ensures computed { SmallQuestion }
{}
