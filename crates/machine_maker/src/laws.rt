//! The law on made texts.
ghost use Rattle.machine_maker.specs.MadeMachine.{MadeTextsAreMachines};

/// A law: the text of a number denotes a machine of 48 states, 7 inputs, 8 outputs and 192 rows, each of a state that it names, and
/// nothing refuses it.
pub fn made_texts_are_machines()
    ensures made { MadeTextsAreMachines }
{}
