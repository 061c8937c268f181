//! Netlists with registers, whatever their construction.
ghost use Rattle.register_laws.specs.RegisterLaws.{MarksHoldWhatReaches, RegistersAreFaultSecure, RegistersAreSecure};

/// A netlist without a ring is secure for a source without a ring, which it follows, against any one failing cell, whatever bits the cell
/// gives at whatever steps. Its structure must be this: each output stands in one group, groups are apart through registers, and the checker
/// decides.
pub fn registers_are_secure()
    ensures secure { RegistersAreSecure }
{}

/// Without a ring, what is secure against any one failing cell is secure against each listed fault, present at any steps.
pub fn registers_are_fault_secure()
    ensures secure { RegistersAreFaultSecure }
{}

/// Marks that go from each marked net on to the nets that drive it, through registers too, are on every cell that reaches a marked net: so a
/// cell without a mark doesn't reach it.
pub fn marks_hold_what_reaches()
    ensures marked { MarksHoldWhatReaches }
{}
