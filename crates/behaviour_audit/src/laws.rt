//! The law of the answer.
ghost use Rattle.behaviour_audit.specs.Reason.{OneAnswer};

/// Of a netlist with a well-made plan of it there is at most one answer: two are the same.
pub fn behaviour_reason_is_determined()
    ensures determined { OneAnswer }
{}
