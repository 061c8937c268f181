//! The laws on verdicts.
ghost use Rattle.audit.specs.Laws.{AcceptedIsSecure, OneVerdict, SelfCheckingIsAccepted, VerdictsAreShown};

/// A law: a netlist that an audit accepts is secure for its source, whichever one cell fails in any way, and so whichever one listed
/// fault is present at any steps.
pub fn accepted_is_secure()
    ensures secure { AcceptedIsSecure }
{}

/// A law: a netlist that is self-checking for a source, and has as many inputs, outputs and states, is accepted.
pub fn self_checking_is_accepted()
    ensures accepted { SelfCheckingIsAccepted }
{}

/// A law: what a verdict names can be told of the netlist, where its source has at most 20 inputs.
pub fn verdicts_are_shown()
    ensures shown { VerdictsAreShown }
{}

/// A law: of a source and a netlist with a well-made plan of it there is at most one verdict: two are the same.
pub fn verdict_is_determined()
    ensures one { OneVerdict }
{}
