//! The laws on wide audits of texts.
ghost use Rattle.wide_laws.specs.WideLaws.{WideAnswersAreAccepted, WideNoIsNo, WideYesIsYes};

/// A law: what a synthesis answers to a network is accepted by a wide audit after that network, where this has its own end line and an
/// LF after it, whatever the number of inputs. The audit refuses nothing, answers `yes` where the functions that are stated have at
/// most as many different cofactors as there are rows, and never `no`.
pub fn wide_answers_are_accepted()
    ensures accepted { WideAnswersAreAccepted }
{}

/// A law: the answer of a wide audit to a text, `yes`, or of a netlist without latches `no` and its reason, is the answer of an audit to
/// it, except for the number of points that this tries.
pub fn wide_replies_are_replies()
    ensures yes { WideYesIsYes }
    ensures no { WideNoIsNo }
{}
