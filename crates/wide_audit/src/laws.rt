//! The laws on wide verdicts.
ghost use Rattle.wide_audit.specs.Laws.{OneWideVerdict, SelfCheckingIsNoWideNo, SelfCheckingIsWideYes, SpentHasNoVerdict, WideVerdictsAreShown, WideYesIsSecure};

/// A law: a netlist that a wide audit accepts is secure for its source, whichever one cell fails in any way, and so whichever one
/// listed fault is present at any steps.
pub fn wide_yes_is_secure()
    ensures secure { WideYesIsSecure }
{}

/// A law: a self-checking netlist without latches, as a synthesis answers it, is accepted unless its stated functions have more
/// different cofactors than there are rows, and with no number of rows refused.
pub fn self_checking_is_wide_yes()
    ensures accepted { SelfCheckingIsWideYes }
    ensures never { SelfCheckingIsNoWideNo }
{}

/// A law: what a wide verdict names can be told of the netlist, whatever the number of inputs.
pub fn wide_verdicts_are_shown()
    ensures shown { WideVerdictsAreShown }
{}

/// A law: of a source and a netlist with a well-made plan of it there is at most one verdict with so many rows, and none where
/// there is none.
pub fn wide_verdict_is_determined()
    ensures one { OneWideVerdict }
    ensures none { SpentHasNoVerdict }
{}
