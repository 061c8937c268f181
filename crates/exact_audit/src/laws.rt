//! The laws on exact verdicts.
ghost use Rattle.exact_audit.specs.ExactLaws.{AuditedIsExact, ExactIsAlarmSecure, ExactShowsFaults, ExactVerdictsAreShown, NetworksAreDecidedExactly, NoAtReachedRefutes, NoOfANetworkRefutes, OneExactVerdict, SelfCheckingIsExact};

/// A law: a netlist of which an exact audit says yes is alarm-secure for its source, whatever its structure: whichever one cell fails, in
/// any way and at any steps, no wrong output comes before its alarm. So it is with one listed fault, present at any steps.
pub fn exact_is_alarm_secure()
    ensures secure { ExactIsAlarmSecure }
    ensures faults { ExactShowsFaults }
{}

/// A law: of a netlist without latches that fits a source which allows one list of outputs at each state and input, the answer is yes
/// exactly where it is alarm-secure; each no says that it isn't.
pub fn networks_are_decided_exactly()
    ensures decided { NetworksAreDecidedExactly }
    ensures refuted { NoOfANetworkRefutes }
{}

/// A law: with latches, a no at a state that a run comes to refutes.
pub fn no_at_reached_refutes()
    ensures refuted { NoAtReachedRefutes }
{}

/// A law: what the audit of structure accepts has an exact yes.
pub fn audited_is_exact()
    ensures exact { AuditedIsExact }
{}

/// A law: a netlist that is self-checking for a source, and has as many inputs, outputs and states, has an exact yes.
pub fn self_checking_is_exact()
    ensures exact { SelfCheckingIsExact }
{}

/// A law: what a verdict names can be told of the netlist, where its source has at most 20 inputs.
pub fn exact_verdicts_are_shown()
    ensures shown { ExactVerdictsAreShown }
{}

/// A law: of a source and a netlist with a well-made plan of it there is at most one verdict: two are the same.
pub fn exact_verdict_is_determined()
    ensures one { OneExactVerdict }
{}
